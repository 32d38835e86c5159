/// What can take a step of the machine (this project's own).
#[derive(Clone, Copy, Debug, PartialEq, Eq)]
pub enum Actor {
    /// One whole instruction of a processor.
    Exec(u32),
    /// The move of one row of a processor's pending load.
    Load(u32),
    /// The move of one row of a processor's pending store.
    Store(u32),
    /// One move of a processor's look-ups in TMU unit 0 or 1.
    Fetch(u32, u32),
}
