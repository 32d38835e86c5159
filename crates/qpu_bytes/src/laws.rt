//! Laws about elements in lists of words. Each is a function without a body; its clauses are the law.
ghost use Rattle.qpu_bytes.specs.Laws.{ReadsBack, BytesAfter, WordsStay, SameBytes};

/// The low bytes of what is written at a place are read back there.
#[tactic(auto, using(crate::proofs::FootLemmas::part_back))]
pub fn a_part_reads_back()
    ensures { ReadsBack }
{}

/// After an element is written its bytes are the value's, and each other byte is as it was; words of
/// 32 bits stay so.
#[tactic(auto, using(crate::proofs::FootLemmas::bytes_after, crate::proofs::FootLemmas::words_stay))]
pub fn other_bytes_stay()
    ensures bytes { BytesAfter }
    ensures words { WordsStay }
{}

/// Two lists of as many words of 32 bits with the same bytes are the same list.
#[tactic(auto, using(crate::proofs::FootLemmas::same_bytes))]
pub fn words_of_equal_bytes_are_equal()
    ensures { SameBytes }
{}
