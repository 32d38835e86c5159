/// Why an instruction awaits, in the order in which the causes are tried (this project's own).
#[derive(Clone, Copy, Debug, PartialEq, Eq)]
pub enum Cause {
    /// It waits for the processor's pending load.
    LoadWait,
    /// It waits for the processor's pending store.
    StoreWait,
    /// It starts a load while one is pending.
    LoadStart,
    /// It starts a store while one is pending.
    StoreStart,
    /// It takes the words of a look-up of this TMU unit, which aren't there yet.
    TmuLoad(u32),
    /// It acquires the mutex, which is held.
    Mutex,
    /// It increments this semaphore, which stands at 15.
    Up(u32),
    /// It decrements this semaphore, which stands at 0.
    Down(u32),
}
