ghost use Rattle.std.specs.Prelude.{◌≤◌, length, All, IfOk, IfErr};
ghost use Rattle.qpu_expr.specs.declared.limits.TheConstants.{MOST_WORDS};
ghost use Rattle.qpu_expr.specs.Expansion.{expansion};
ghost use Rattle.qpu_expr.specs.Ended.{IsEnded};
ghost use Rattle.qpu_expr.specs.Answer.{IsExpanded, IsItsFault, Expands};

use crate::expanded::Expanded;
use crate::expansion::run_lines;
use crate::limits::MOST_DEPTH;
use crate::line::lines_of;
use crate::state::State;
use qpu_token::{AsmFault, Stop, Token};
use std::alloc::Global;

/// Expands a text with its tokens: what is left without macros, repeats, set names, expressions and
/// labels. The one error beside want of memory is the first fault of the
/// expansion: an unknown name, a name that is there twice, a macro or repeat that is nested too deep,
/// too many lines, tokens or words, a division by 0, a directive of no shape, or too many turns. At most
/// `MOST_WORDS` lines are left, and the last token of each is a line end.
pub fn expand(alloc: Global, text: &str, tokens: &[Token]) -> Result<Expanded, AsmFault>
    ensures ok { IfOk result (λ e. IsExpanded (expansion text.now tokens.now) e) }
    ensures few { IfOk result (λ e. length e.lines.items ≤ MOST_WORDS) }
    ensures ended { IfOk result (λ e. All IsEnded e.lines.items) }
    ensures err { IfErr result (λ fault. IsItsFault (expansion text.now tokens.now) fault) }
{
    match expand_all(alloc, text.as_bytes(), tokens) {
        Ok(expanded) => Ok(expanded),
        Err(stop) => Err(stop.fault()),
    }
}

/// Expands a text with its tokens.
#[tactic(auto, unfolding(crate::specs::Expansion::expansion))]
fn expand_all(alloc: Global, text: &[u8], tokens: &[Token]) -> Result<Expanded, Stop>
    ensures { Expands (expansion text.now tokens.now) result }
{
    let lines = lines_of(alloc, text, tokens)?;
    let mut state = State::new(alloc);
    run_lines(alloc, text, &lines, MOST_DEPTH, &mut state)?;
    let expanded = state.expanded(alloc)?;
    Ok(expanded)
}
