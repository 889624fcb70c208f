// The header of a frame.
#[derive(Clone, Copy, PartialEq, Eq, Debug)]
pub struct Header {
    pub session: u16,
    pub wait: bool,
    pub stream: u8,
    pub function: u8,
    pub ptype: u8,
    pub stype: u8,
    pub transaction: u32,
}
