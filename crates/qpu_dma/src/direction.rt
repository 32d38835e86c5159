/// Which way a transfer goes.
#[derive(Clone, Copy, Debug, PartialEq, Eq)]
pub enum Direction {
    /// From memory into the VPM.
    Load,
    /// From the VPM into memory.
    Store,
}
