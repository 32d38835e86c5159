//! Words that are written as lines and read again.
ghost use Rattle.std.specs.Prelude.{◌≡◌, ◌≤◌, ◌<◌, ◌^◌, All, length, map, IfOk, IfErr};
ghost use Rattle.std.specs.Str.{IsUtf8};
ghost use Rattle.qpu_token.specs.declared.fault.AsmKind.TheVariants.{Memory};
ghost use Rattle.qpu_expr.specs.declared.limits.TheConstants.{MOST_WORDS};
ghost use Rattle.qpu_dis.specs.Text.{disassembly};

use qpu_asm::assemble;
use qpu_dis::disassemble;
use qpu_io::PlainSink;
use qpu_token::{AsmFault, NO_MEMORY};
use qpu_word::Word;
use std::alloc::Global;

/// The most bytes of a line, with its end.
const LINE_BYTES: usize = 1_025;

/// The number of a word, which has 64 bits.
fn number_of(word: Word) -> u64
    ensures number { result ≡ word.0 }
    ensures bits { word.0 < 2 ^ 64 }
{
    word.0
}

/// Words have 64 bits, as each shows once it is read.
fn have_bits(words: &[Word])
    ensures { All (λ word. word.0 < 2 ^ 64) words.now }
{
    for word in words {
        let _bits = number_of(*word);
    }
}

/// The lines of words, in a sink with room for them. Where it has none the answer is want of memory.
fn written(alloc: Global, words: &[Word]) -> Result<PlainSink, AsmFault>
    requires { length words.now ≤ MOST_WORDS }
    ensures ok { IfOk result (λ sink. sink.bytes ≡ disassembly (map (λ word. word.0) words.now)) }
    ensures err { IfErr result (λ fault. fault.kind ≡ Memory) }
{
    let mut sink = PlainSink::new(alloc);
    if sink.reserve(words.len() * LINE_BYTES).is_err() {
        return Err(NO_MEMORY);
    }
    match disassemble(words, &mut sink) {
        Ok(()) => Ok(sink),
        Err(_) => Err(NO_MEMORY),
    }
}

/// Bytes as text.
fn as_text(bytes: &[u8]) -> &str
    requires { IsUtf8 bytes.now }
    ensures { result.now ≡ bytes.now }
{
    match std::str::from_utf8(bytes) {
        Ok(text) => text,
        Err(_) => unreachable!(),
    }
}

/// The words of the lines that the disassembler writes of at most 4,096 words: these words again. The
/// one error is want of memory, so no such text has a fault.
pub fn read_back(alloc: Global, words: &[Word]) -> Result<Vec<Word>, AsmFault>
    requires { length words.now ≤ MOST_WORDS }
    ensures ok { IfOk result (λ again. again.items ≡ words.now) }
    ensures err { IfErr result (λ fault. fault.kind ≡ Memory) }
{
    have_bits(words);
    let sink = written(alloc, words)?;
    assemble(alloc, as_text(sink.bytes()))
}
