use qpu_dma::Transfer;
use qpu_word::{Book, Lanes};

/// What an instruction starts and issues, and the book that it leaves.
#[derive(Clone, Copy, Debug)]
pub struct Begun {
    /// The book after the instruction.
    pub book: Book,
    /// The load that starts.
    pub load: Option<Transfer>,
    /// The store that starts.
    pub store: Option<Transfer>,
    /// The indexes of the words of the look-up that is issued.
    pub look: Option<Lanes>,
}
