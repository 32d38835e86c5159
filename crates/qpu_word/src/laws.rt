//! Laws about what a processor keeps of its setups, and about words with one meaning. Each is a
//! function without a body; its clauses are the law.
ghost use Rattle.std.specs.Prelude.{◌≡◌, ℕ, Bool, IfOk};
ghost use Rattle.qpu_word.specs.declared.setup.Book.{Book};
ghost use Rattle.qpu_word.specs.Setups.{put_read, put_write, take_vector, put_vector};
ghost use Rattle.qpu_word.specs.Books.{IsSoundBook};
ghost use Rattle.qpu_word.specs.Processor.{ProcessorState, opening_book};
ghost use Rattle.qpu_word.specs.Words.{fields_of, writes_link};
ghost use Rattle.qpu_word.specs.Instruction.{local_result};
ghost use Rattle.qpu_word.specs.CanonicalWord.{canonical_word};

/// A book begins sound, and every access and every value of a setup register leaves it so: its
/// setups are valid ones, of each read setup some vectors are left, and a second one waits only
/// behind a first.
#[tactic(auto, using(crate::proofs::BookLemmas::opening_sound, crate::proofs::BookLemmas::put_read_sound, crate::proofs::BookLemmas::put_write_sound, crate::proofs::BookLemmas::take_sound, crate::proofs::BookLemmas::put_sound))]
pub fn books_stay_sound()
    ensures opening { (uniforms : ℕ) → IsSoundBook (opening_book uniforms) }
    ensures read { (book : Book) (value : ℕ) → IsSoundBook book → IfOk (put_read book value) IsSoundBook }
    ensures write { (book : Book) (value : ℕ) → IsSoundBook book → IfOk (put_write book value) IsSoundBook }
    ensures take { (book : Book) → IsSoundBook book → IfOk (take_vector book) IsSoundBook }
    ensures put { (book : Book) → IsSoundBook book → IfOk (put_vector book) IsSoundBook }
{}

/// A word and its canonical word do the same to a processor that shares nothing, its fault included,
/// and link the same places.
#[tactic(auto, using(crate::proofs::MeaningLaw::local_same, crate::proofs::MeaningLaw::links_same))]
pub fn canonical_words_do_the_same()
    ensures local { (is_link : ℕ → Bool) (w : ℕ) (p : ProcessorState) → local_result is_link (canonical_word w) p ≡ local_result is_link w p }
    ensures links { (w : ℕ) → writes_link (fields_of (canonical_word w)) ≡ writes_link (fields_of w) }
{}
