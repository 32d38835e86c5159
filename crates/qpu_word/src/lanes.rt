/// How many lanes a processor has.
pub const LANES: usize = 16;

/// One value of 32 bits for each of the sixteen lanes.
#[derive(Clone, Copy, Debug, PartialEq, Eq)]
pub struct Lanes {
    /// Lane i at index i.
    pub v: [u32; LANES],
}
