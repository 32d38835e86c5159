use qpu_word::LANES;

/// One look-up: where its sixteen words lie, and the words once they are fetched.
#[derive(Clone, Copy, Debug, PartialEq, Eq)]
pub struct LookUp {
    /// The index in memory of each lane's word.
    pub at: [u32; LANES],
    /// Each lane's word; none before the fetch.
    pub words: Option<[u32; LANES]>,
}

impl Default for LookUp {
    fn default() -> LookUp {
        LookUp {
            at: [0; LANES],
            words: None,
        }
    }
}
