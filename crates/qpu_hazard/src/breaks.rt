//! Breaks of rules, and the list that a word's breaks are noted in.
ghost use Rattle.std.specs.Prelude.{◌≡◌, ◌++◌, OnOk};
ghost use Rattle.qpu_hazard.specs.Rules.{break_when, in_slot};

use std::alloc::AllocError;

/// That a word breaks a rule.
#[derive(Clone, Copy, Debug, PartialEq, Eq)]
pub struct Break {
    /// The number of the rule, 1 to 16.
    pub rule: u32,
    /// The place told with it. H1 to H3 tell the last word before the breaking one, H4 the word that
    /// wrote the uniforms address, H5, H7 and H9 the branch or program end whose slots are in
    /// progress or begin. All others tell the breaking word again.
    pub before: u32,
}

/// A break with the place of the word that breaks the rule.
#[derive(Clone, Copy, Debug, PartialEq, Eq)]
pub struct Hazard {
    /// The place of the breaking word, counted in words from 0.
    pub at: u32,
    /// The number of the rule, 1 to 16.
    pub rule: u32,
    /// The place told with it.
    pub before: u32,
}

/// Notes a break where a test holds.
pub(crate) fn note(
    breaks: &mut Vec<Break>,
    test: bool,
    rule: u32,
    before: u32,
) -> Result<(), AllocError>
    ensures { OnOk result (breaks.new.items ≡ breaks.old.items ++ break_when test rule before) }
{
    if !test {
        return Ok(());
    }
    breaks.push(Break { rule, before })?;
    Ok(())
}

/// Notes a break where a test holds in a slot, with the branch or program end that began the slots.
pub(crate) fn note_in_slot(
    breaks: &mut Vec<Break>,
    begun: Option<u32>,
    test: bool,
    rule: u32,
) -> Result<(), AllocError>
    ensures { OnOk result (breaks.new.items ≡ breaks.old.items ++ in_slot begun test rule) }
{
    match begun {
        None => Ok(()),
        Some(begun) => note(breaks, test, rule, begun),
    }
}
