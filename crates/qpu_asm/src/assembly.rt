//! Texts into words.
ghost use Rattle.std.specs.Prelude.{◌≡◌, ◌<◌, ◌≤◌, [], length, map, ◌∷◌, ◌++◌, slice_range, IfOk, IfErr, OnOk};
ghost use Rattle.qpu_token.specs.Tokens.{AreTokens};
ghost use Rattle.qpu_expr.specs.declared.limits.TheConstants.{MOST_WORDS};
ghost use Rattle.qpu_expr.specs.Expansion.{Left};
ghost use Rattle.qpu_asm.specs.Placed.{placed_token};
ghost use Rattle.qpu_token.specs.Stops.{Answers, Leads};
ghost use Rattle.qpu_asm.specs.SpelledTexts.{AreSpelled};
ghost use Rattle.qpu_asm.specs.Assembly.{label_put, labels_of, closing_token, line_at, word_behind, words_of_lines, encoding, AreWords, IsItsFault};

use crate::line::{Line, read_line};
use crate::placed::{Placed, symbol_of, text_of};
use qpu_expr::{Expanded, LabelAt, PlainLine, Table, expand};
use qpu_token::{AsmFault, MOST_BYTES, Stop, Token, TokenKind, tokens};
use qpu_word::Word;
use std::alloc::{AllocError, Global};
use std::marker::Model;

/// The end of a line that has none.
const NO_TOKEN: Token = Token {
    kind: TokenKind::LineEnd,
    from: 0,
    to: 0,
    line: 0,
    column: 0,
};

/// Bytes of a text from one up to another; those outside the text are none.
fn slice_of(text: &[u8], from: usize, to: usize) -> &[u8]
    ensures { result.now ≡ slice_range text.now from to }
{
    let to = to.min(text.len());
    let from = from.min(to);
    &text[from..to]
}

/// The words behind the labels of a text.
#[tactic(auto, unfolding(crate::specs::Assembly::labels_of), using(std::proofs::lemmas::List::Sums::fold_more))]
fn labels_of(alloc: Global, text: &[u8], labels: &[LabelAt]) -> Result<Table<u32>, AllocError>
    ensures { IfOk result (λ table. table ≡ labels_of text.now labels.now) }
{
    let mut table = Table::new(alloc);
    for label in labels {
        table.put(alloc, slice_of(text, label.from, label.to), label.word)?;
    }
    Ok(table)
}

/// A token with what it is.
#[tactic(auto, unfolding(crate::specs::Placed::placed_token))]
fn placed(text: &[u8], labels: &Table<u32>, token: Token) -> Placed
    ensures { result ≡ placed_token text.now labels.now token }
{
    Placed {
        symbol: symbol_of(text, token),
        token,
        label: labels.get(text_of(text, token)).copied(),
    }
}

/// Tokens with what they are.
fn all_placed(
    alloc: Global,
    text: &[u8],
    labels: &Table<u32>,
    line: &[Token],
) -> Result<Vec<Placed>, AllocError>
    ensures { IfOk result (λ all. all.items ≡ map (placed_token text.now labels.now) line.now) }
{
    let mut all = Vec::new(alloc);
    for token in line {
        all.push(placed(text, labels, *token))?;
    }
    Ok(all)
}

/// The end of a line.
fn end_of(line: &[Token]) -> Token
    ensures { result ≡ closing_token line.now }
{
    line.get(line.len().saturating_sub(1))
        .copied()
        .unwrap_or(NO_TOKEN)
}

/// What a line says at a place of the program.
#[tactic(auto, unfolding(crate::specs::Assembly::line_at))]
fn line_at(
    alloc: Global,
    text: &[u8],
    labels: &Table<u32>,
    at: u32,
    line: &[Token],
) -> Result<Line, Stop>
    ensures { Answers (line_at text.now labels.now at line.now) result }
{
    let front = &line[..line.len().saturating_sub(1)];
    let xs = all_placed(alloc, text, labels, front)?;
    read_line(alloc, at, end_of(line), &xs)
}

/// Words, in order. Contracts see their numbers.
#[derive(Drop)]
struct Words {
    words: Vec<Word>,
}

impl Model for Words {
    ghost use Rattle.std.specs.Prelude.{ℕ, List, map};

    ghost Value = { List ℕ };

    ghost view = { λ w. map (λ word. word.0) w.words.items };
}

impl Words {
    /// Puts a word behind the others.
    fn push(&mut self, word: Word) -> Result<(), AllocError>
        ensures { OnOk result (self.new ≡ self.old ++ word.0 ∷ []) }
    {
        self.words.push(word)?;
        Ok(())
    }

    /// Puts the word of a line behind the others.
    fn put(
        &mut self,
        alloc: Global,
        text: &[u8],
        labels: &Table<u32>,
        line: &[Token],
    ) -> Result<(), Stop>
        requires { length self.old < MOST_WORDS }
        ensures { Leads (word_behind text.now labels.now line.now self.old) self.new result }
    {
        let at = self.words.len() as u32;
        let said = line_at(alloc, text, labels, at, line)?;
        self.push(Word(said.word()))?;
        Ok(())
    }
}

/// The words of lines, with the words behind labels.
fn encode_lines(
    alloc: Global,
    text: &[u8],
    labels: &Table<u32>,
    lines: &[PlainLine],
) -> Result<Words, Stop>
    requires { length lines.now ≤ MOST_WORDS }
    ensures due { Answers (words_of_lines text.now labels.now [] lines.now) result }
    ensures few { IfOk result (λ words. length words ≤ MOST_WORDS) }
{
    let mut words = Words {
        words: Vec::new(alloc),
    };
    for line in lines {
        words.put(alloc, text, labels, &line.tokens)?;
    }
    Ok(words)
}

/// The words of what is left of a text.
#[tactic(auto, unfolding(crate::specs::Assembly::encoding))]
fn encode(alloc: Global, text: &[u8], expanded: &Expanded) -> Result<Words, Stop>
    requires { length expanded.now.lines.items ≤ MOST_WORDS }
    ensures due { Answers (encoding text.now (record { lines = expanded.now.lines.items; labels = expanded.now.labels.items })) result }
    ensures few { IfOk result (λ words. length words ≤ MOST_WORDS) }
{
    let labels = labels_of(alloc, text, &expanded.labels)?;
    encode_lines(alloc, text, &labels, &expanded.lines)
}

/// The words of a text with its tokens.
#[tactic(auto, using(crate::proofs::AnswerLemmas::expansion_fault, crate::proofs::AnswerLemmas::words_due, crate::proofs::AnswerLemmas::stop_due))]
fn assemble_tokens(alloc: Global, text: &str, tokens: &[Token]) -> Result<Vec<Word>, AsmFault>
    requires { AreTokens text.now tokens.now }
    ensures ok { IfOk result (λ words. AreWords text.now words.items) }
    ensures few { IfOk result (λ words. length words.items ≤ MOST_WORDS) }
    ensures err { IfErr result (λ fault. IsItsFault text.now fault) }
{
    match expand(alloc, text, tokens) {
        Err(fault) => Err(fault),
        Ok(expanded) => match encode(alloc, text.as_bytes(), &expanded) {
            Ok(words) => Ok(words.words),
            Err(stop) => Err(stop.fault()),
        },
    }
}

/// The words of a text of at most `MOST_BYTES` bytes, in order: those that the lines which its expansion
/// leaves spell, by the grammar of lines. The one error beside want of memory is the first fault of the
/// text, with its kind and place: of its tokens, then of its expansion, then of the lines that are left.
#[tactic(auto, using(crate::proofs::AnswerLemmas::token_fault, crate::proofs::TextLaw::words_are_spelled))]
pub fn assemble(alloc: Global, text: &str) -> Result<Vec<Word>, AsmFault>
    requires { length text.now ≤ MOST_BYTES }
    ensures ok { IfOk result (λ words. AreWords text.now words.items) }
    ensures spelled { IfOk result (λ words. AreSpelled text.now words.items) }
    ensures few { IfOk result (λ words. length words.items ≤ MOST_WORDS) }
    ensures err { IfErr result (λ fault. IsItsFault text.now fault) }
{
    match tokens(alloc, text) {
        Err(fault) => Err(fault),
        Ok(tokens) => assemble_tokens(alloc, text, &tokens),
    }
}
