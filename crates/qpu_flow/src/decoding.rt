//! Words taken apart once, when a program is made.
ghost use Rattle.std.specs.Prelude.{◌≡◌, IfOk};
ghost use Rattle.qpu_flow.specs.Code.{all_decoded};

use qpu_decoded::Decoded;
use qpu_word::Word;
use std::alloc::{AllocError, Global};

/// The words, decoded, in their order.
pub(crate) fn decode(alloc: Global, words: &[Word]) -> Result<Vec<Decoded>, AllocError>
    ensures { IfOk result (λ decoded. decoded.items ≡ all_decoded words.now) }
{
    words.iter().map(|word| Decoded::of(*word)).collect(alloc)
}
