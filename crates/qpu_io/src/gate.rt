//! What a worker passes before it runs local words.

/// What a worker passes before each stretch of local words that it runs, outside the turn. It has no
/// faults.
pub trait Gate {
    /// Lets a stretch of processor `q` begin; `stretch` counts the loans of that processor from 0.
    fn pass(&self, q: u32, stretch: u64);
}

/// A gate that does nothing.
#[derive(Clone, Copy, Debug, PartialEq, Eq)]
pub struct OpenGate;

impl Gate for OpenGate {
    /// Lets every stretch begin at once.
    fn pass(&self, _q: u32, _stretch: u64) {}
}
