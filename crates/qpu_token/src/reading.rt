ghost use Rattle.std.specs.Prelude.{◌≡◌, ◌+◌, ◌^◌, ◌<◌, ◌≤◌, ◌++◌, length, IfOk, IfErr, OnOk};
ghost use Rattle.qpu_token.specs.Places.{place_at};
ghost use Rattle.qpu_token.specs.Tokens.{AreTokens, AreSpans};
ghost use Rattle.qpu_token.specs.Faults.{IsFirstFault};
ghost use Rattle.qpu_token.specs.Reading.{IsRead, IsPastLarge, end_here};

use crate::fault::{AsmFault, AsmKind, NO_MEMORY};
use crate::here::Here;
use crate::piece::{Shape, piece_at};
use crate::place::Place;
use crate::token::{MOST_BYTES, Token, TokenKind};
use crate::turn::{Turn, take_turn};
use std::alloc::Global;

/// The tokens of a text of at most `MOST_BYTES` bytes. The one error beside want of memory is the
/// first fault: a byte that begins no token, or a number that is too large; in one line the former.
#[tactic(auto, using(crate::proofs::SpanLaw::spans_of))]
pub fn tokens(alloc: Global, text: &str) -> Result<Vec<Token>, AsmFault>
    requires { length text.now ≤ MOST_BYTES }
    ensures ok { IfOk result (λ tokens. AreTokens text.now tokens.items) }
    ensures spans { IfOk result (λ tokens. AreSpans 0 tokens.items (length text.now)) }
    ensures err { IfErr result (λ fault. IsFirstFault text.now fault) }
{
    let text = text.as_bytes();
    let mut tokens = Vec::new(alloc);
    let mut here = Here::START;
    while here.at < text.len() {
        here = read_on(text, here, &mut tokens)?;
    }
    close(here, &mut tokens)?;
    Ok(tokens)
}

/// Reads on by one word, and puts the token that it is behind the others.
fn read_on(text: &[u8], here: Here, tokens: &mut Vec<Token>) -> Result<Here, AsmFault>
    requires most { length text.now ≤ MOST_BYTES }
    requires inside { here.at < length text.now }
    requires read { IsRead text.now tokens.old.items here }
    ensures ok { IfOk result (λ next. IsRead text.now tokens.new.items next) }
    ensures further { IfOk result (λ next. here.at < next.at) }
    ensures err { IfErr result (λ fault. IsFirstFault text.now fault) }
{
    match take_turn(text, here) {
        Turn::Nothing => Err(here.place.fault(AsmKind::BadByte)),
        Turn::Passed(next) => Ok(next),
        Turn::Told(token, next) => match tokens.push(token) {
            Ok(()) => Ok(next),
            Err(_) => Err(NO_MEMORY),
        },
        Turn::TooLarge(next) => Err(line_fault(text, here.place, next)),
    }
}

/// The fault of a line in which a number is too large, read up to here: that of the number, unless a
/// byte behind it begins no token.
fn line_fault(text: &[u8], large: Place, here: Here) -> AsmFault
    requires most { length text.now ≤ MOST_BYTES }
    requires past { IsPastLarge text.now large here.at }
    requires place { here.place ≡ place_at text.now here.at }
    ensures { IsFirstFault text.now result }
{
    let mut at = here.at;
    let mut place = here.place;
    while at < text.len() {
        let Some(piece) = piece_at(text, at) else {
            return place.fault(AsmKind::BadByte);
        };
        if piece.shape == Shape::LineEnd {
            return large.fault(AsmKind::NumberTooLarge);
        }
        place = place.further(piece.length);
        at += piece.length;
    }
    large.fault(AsmKind::NumberTooLarge)
}

/// Puts the line end of a last line that has no line feed behind the other tokens.
fn close(here: Here, tokens: &mut Vec<Token>) -> Result<(), AsmFault>
    ensures ok { OnOk result (tokens.new.items ≡ tokens.old.items ++ end_here here) }
    ensures err { IfErr result (λ fault. fault ≡ NO_MEMORY) }
{
    if here.place.column == 1 {
        return Ok(());
    }
    match tokens.push(here.token(TokenKind::LineEnd, here.at)) {
        Ok(()) => Ok(()),
        Err(_) => Err(NO_MEMORY),
    }
}
