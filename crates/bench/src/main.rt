// A run at the bench: one report by hand over the parts of the library, then the equipment through its public calls.
#![tactic(auto)]

mod by_hand;
mod frames_of_host;
mod session;
mod show;

fn main(rt: HostRuntime) -> anyhow::Result<()> {
    by_hand::one_report(&rt)?;
    session::run(&rt)
}
