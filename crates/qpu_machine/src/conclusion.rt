/// How a machine in which nothing can move has come out (this project's own).
#[derive(Clone, Copy, Debug, PartialEq, Eq)]
pub enum Ending {
    /// Every processor ended.
    Done,
    /// Some processor awaits what no step will bring.
    Stuck,
    /// Some processor executed its limit of instructions.
    RanOut,
    /// Some processor faulted.
    Faulted,
}
