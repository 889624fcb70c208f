// What the equipment is told before it starts: alarms, variables with their bands, and the settings.
#![tactic(auto)]

pub mod plan;
pub mod refusal;
pub mod settings;
pub mod table;
