use states::control::Fallback;

// The settings that an equipment is started with.
#[derive(Clone, Copy)]
pub struct Settings {
    // The session number that our frames carry and that the host's must carry.
    pub session: u16,
    pub fallback: Fallback,
    // OverWriteSpool: a full spool gives up its oldest report for a newer one.
    pub overwrite: bool,
    // MaxSpoolTransmit: how many reports one transmit sends at most; 0 is no maximum, as SEMI E30 has it.
    pub max_transmit: u16,
}
