use rules::state::Core;
use store::Store;
use zone::variable::Sample;

// A started equipment: only `start` makes one, and only it takes the calls.
pub struct Equipment<Q: Store, S: Store> {
    // Whether the stores were fit for use at the start. A flag: unfit ones are held too, to be given back.
    pub(crate) fit: bool,
    pub(crate) core: Core<Q, S>,
}

// A call of the equipment as a value: a run is a list of them.
#[derive(Clone, Copy)]
pub enum Call<'a> {
    // A frame of the host: header and body.
    Host(&'a [u8]),
    // The operator moves the switch of a number.
    Switch(u32),
    // The timer of a number expires.
    Expiry(u32),
    // The connection fails.
    Failure,
    // A variable is sampled.
    Sample(u32, Sample),
    // An alarm is set or cleared.
    Alarm(u32, bool),
    // One step of sending reports.
    Pump,
    // Power goes and comes back.
    Power,
}

// A call with the sizes of the output buffer and of the ledger that are lent to it.
#[derive(Clone, Copy)]
pub struct LentCall<'a> {
    pub call: Call<'a>,
    pub out: usize,
    pub ledger: usize,
}
