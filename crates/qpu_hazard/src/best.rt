//! The first hazard of those that were found.
ghost use Rattle.std.specs.Prelude.{◌≡◌, ◌⊎◌, Some, MatchBool, All, Contains};
ghost use Rattle.qpu_hazard.specs.declared.breaks.Hazard.{Hazard};
ghost use Rattle.qpu_hazard.specs.declared.breaks.Break.{Break};
ghost use Rattle.qpu_hazard.specs.Refusal.{NotAfter};
ghost use Rattle.qpu_hazard.specs.Search.{AtMost, hazard_at};

use crate::breaks::{Break, Hazard};

/// Whether a hazard is not after another: by place, rule, and the place told with it.
fn is_not_after(x: Hazard, y: Hazard) -> bool
    ensures { MatchBool result (NotAfter x y) (NotAfter y x) }
{
    if x.at != y.at {
        return x.at < y.at;
    }
    if x.rule != y.rule {
        return x.rule < y.rule;
    }
    x.before <= y.before
}

/// Keeps the first of the best hazard and another one.
fn keep_first(best: &mut Option<Hazard>, h: Hazard)
    ensures falls { (x : Hazard) → AtMost best.old x → AtMost best.new x }
    ensures least { AtMost best.new h }
    ensures one { (best.new ≡ best.old) ⊎ (best.new ≡ Some h) }
{
    if let Some(b) = *best {
        if is_not_after(b, h) {
            return;
        }
    }
    *best = Some(h);
}

/// Keeps the first of the best hazard and the breaks of the word at a place.
pub(crate) fn keep_all(best: &mut Option<Hazard>, breaks: &[Break], at: u32)
    ensures falls { (x : Hazard) → AtMost best.old x → AtMost best.new x }
    ensures least { All (λ b. AtMost best.new (hazard_at at b)) breaks.now }
    ensures one { (best.new ≡ best.old) ⊎ ((b : Break) × Contains breaks.now b × (best.new ≡ Some (hazard_at at b))) }
{
    for b in breaks {
        let h = Hazard {
            at,
            rule: b.rule,
            before: b.before,
        };
        keep_first(best, h);
    }
}
