//! The search over the marks of a part: whether some way of a program breaks a rule of the part.
ghost use Rattle.std.specs.Prelude.{◌≡◌, ◌<◌, ◌*◌, ◌^◌, ◌++◌, ◌∷◌, ℕ, true, [], length, OnOk, IfOk, IsTrue, Contains, slice_index_or};
ghost use Rattle.qpu_flow.specs.Control.{asks_for, next_from};
ghost use Rattle.qpu_hazard.specs.declared.mark.Mark.{Mark};
ghost use Rattle.qpu_hazard.specs.Parts.{IsFitMark, IsPartClean};
ghost use Rattle.qpu_hazard.specs.Marks.{Extends, IsStepDone, AreLinksDone, AreLinksMet, IsPointDone, IsMarkDone};

use crate::mark::{Mark, links_mark, opening_mark};
use crate::part::Part;
use indexmap::IndexSet;
use qpu_flow::Flow;
use std::alloc::Global;
use std::marker::Model;

/// That a program wasn't shown to be clean: a word breaks a rule, or memory is wanted.
#[derive(Clone, Copy, Debug, PartialEq, Eq)]
pub(crate) struct NotShown;

/// Marks, each once, in the order in which they were found. Contracts see their list.
#[derive(Drop)]
struct Marks {
    marks: IndexSet<Mark>,
    /// For each place, the index of the mark that was last found there: a guess, which `is_recent` tries.
    recent: Vec<usize>,
}

impl Model for Marks {
    ghost use Rattle.std.specs.Prelude.{List};
    ghost use Rattle.qpu_hazard.specs.declared.mark.Mark.{Mark};

    ghost Value = { List Mark };

    ghost view = { λ marks. marks.marks.keys };
}

impl Marks {
    /// No mark, of a program of so many words.
    fn new(alloc: Global, words: usize) -> Result<Marks, NotShown>
        ensures { IfOk result (λ marks. marks ≡ []) }
    {
        let Ok(recent) = vec![in alloc; 0; words] else {
            return Err(NotShown);
        };
        Ok(Marks {
            marks: IndexSet::new(alloc),
            recent,
        })
    }

    /// How many marks there are.
    fn len(&self) -> usize
        ensures count { result ≡ length self.now }
        ensures small { result < 2 ^ 63 }
    {
        self.marks.len()
    }

    /// The mark at an index.
    fn at(&self, index: usize) -> Mark
        requires { index < length self.now }
        ensures { (d : Mark) → result ≡ slice_index_or self.now index d }
    {
        match self.marks.get_index(index) {
            Some(m) => *m,
            None => unreachable!(),
        }
    }

    /// Whether a mark is the one that was last found at its place.
    fn is_recent(&self, m: &Mark) -> bool
        ensures { IsTrue result → Contains self.now m.now }
    {
        let Some(at) = m.last else {
            return false;
        };
        let Some(index) = self.recent.get(at as usize) else {
            return false;
        };
        match self.marks.get_index(*index) {
            Some(found) => found == m,
            None => false,
        }
    }

    /// Keeps the index of the mark that was found at a place, if it has one.
    fn keep_recent(&mut self, last: Option<u32>, index: usize)
        ensures { self.new ≡ self.old }
    {
        let Some(at) = last else {
            return;
        };
        let at = at as usize;
        if at < self.recent.len() {
            self.recent[at] = index;
        }
    }

    /// Adds a mark, unless it is there, and gives its index.
    fn insert(&mut self, m: Mark) -> Result<usize, NotShown>
        ensures has { OnOk result (Contains self.new m) }
        ensures grows { OnOk result (Extends self.old self.new) }
    {
        let Ok((index, _)) = self.marks.insert_full(m) else {
            return Err(NotShown);
        };
        Ok(index)
    }

    /// Adds a mark, unless it is there.
    fn add(&mut self, m: Mark) -> Result<(), NotShown>
        ensures has { OnOk result (Contains self.new m) }
        ensures grows { OnOk result (Extends self.old self.new) }
    {
        if self.is_recent(&m) {
            return Ok(());
        }
        let index = self.insert(m)?;
        self.keep_recent(m.last, index);
        Ok(())
    }

    /// Looks at a word that may follow a mark.
    fn visit(
        &mut self,
        alloc: Global,
        flow: &Flow,
        part: Part,
        m: &Mark,
        at: u32,
    ) -> Result<(), NotShown>
        requires fits { IsFitMark flow.now m.now }
        requires there { at < length flow.now }
        ensures grows { OnOk result (Extends self.old self.new) }
        ensures done { OnOk result (IsStepDone part flow.now self.new m.now at) }
    {
        if !part.holds(alloc, flow, m, at) {
            return Err(NotShown);
        }
        self.add(part.mark_after(flow, m, at))
    }

    /// Looks at the next word, where it may follow.
    fn visit_ahead(
        &mut self,
        alloc: Global,
        flow: &Flow,
        part: Part,
        m: &Mark,
        ahead: Option<u32>,
    ) -> Result<(), NotShown>
        requires fits { IsFitMark flow.now m.now }
        ensures grows { OnOk result (Extends self.old self.new) }
        ensures done { OnOk result ((a : ℕ) → asks_for ahead a ≡ true → a < length flow.now → IsStepDone part flow.now self.new m.now a) }
    {
        let Some(at) = ahead else {
            return Ok(());
        };
        if at >= flow.len() {
            return Ok(());
        }
        self.visit(alloc, flow, part, m, at)
    }

    /// Looks at the word at a branch's target, where it may follow.
    fn visit_jump(
        &mut self,
        alloc: Global,
        flow: &Flow,
        part: Part,
        m: &Mark,
        jump: Option<u32>,
    ) -> Result<(), NotShown>
        requires fits { IsFitMark flow.now m.now }
        ensures grows { OnOk result (Extends self.old self.new) }
        ensures done { OnOk result ((a : ℕ) → asks_for jump (8 * a) ≡ true → a < length flow.now → IsStepDone part flow.now self.new m.now a) }
    {
        let Some(byte) = jump else {
            return Ok(());
        };
        let Some(at) = flow.place_of(byte) else {
            return Ok(());
        };
        self.visit(alloc, flow, part, m, at)
    }

    /// Looks at all link points.
    fn visit_links(
        &mut self,
        alloc: Global,
        flow: &Flow,
        part: Part,
        m: &Mark,
    ) -> Result<(), NotShown>
        requires fits { IsFitMark flow.now m.now }
        ensures grows { OnOk result (Extends self.old self.new) }
        ensures done { OnOk result (AreLinksDone part flow.now self.new m.now) }
    {
        for at in flow.links() {
            self.visit(alloc, flow, part, m, *at)?;
        }
        Ok(())
    }

    /// Meets all link points: where the part goes by its value, by the mark before them.
    fn meet_links(
        &mut self,
        alloc: Global,
        flow: &Flow,
        part: Part,
        m: &Mark,
    ) -> Result<(), NotShown>
        requires fits { IsFitMark flow.now m.now }
        ensures grows { OnOk result (Extends self.old self.new) }
        ensures met { OnOk result (AreLinksMet part flow.now self.new m.now) }
    {
        if part.is_by_value() {
            return self.add(links_mark(m.value));
        }
        self.visit_links(alloc, flow, part, m)
    }

    /// Looks at each word that may follow a mark that isn't before all link points.
    fn visit_point(
        &mut self,
        alloc: Global,
        flow: &Flow,
        part: Part,
        m: &Mark,
    ) -> Result<(), NotShown>
        requires fits { IsFitMark flow.now m.now }
        ensures grows { OnOk result (Extends self.old self.new) }
        ensures done { OnOk result (IsPointDone part flow.now self.new m.now) }
    {
        let next = flow.next_from(m.slots, m.last);
        self.visit_ahead(alloc, flow, part, m, next.ahead)?;
        self.visit_jump(alloc, flow, part, m, next.jump)?;
        if !next.any_link {
            return Ok(());
        }
        self.meet_links(alloc, flow, part, m)
    }

    /// Looks at each word that may follow a mark.
    fn visit_all(
        &mut self,
        alloc: Global,
        flow: &Flow,
        part: Part,
        m: &Mark,
    ) -> Result<(), NotShown>
        ensures grows { OnOk result (Extends self.old self.new) }
        ensures done { OnOk result (IsMarkDone part flow.now self.new m.now) }
    {
        if !m.is_fit(flow) {
            return Err(NotShown);
        }
        if m.links {
            return self.visit_links(alloc, flow, part, m);
        }
        self.visit_point(alloc, flow, part, m)
    }
}

/// Looks at each word of each way of a program, until no mark is new. It answers Ok only where none
/// breaks a rule of the part.
pub(crate) fn show_part(alloc: Global, flow: &Flow, part: Part) -> Result<(), NotShown>
    ensures { OnOk result (IsPartClean part flow.now) }
{
    let mut marks = Marks::new(alloc, flow.len() as usize)?;
    marks.add(opening_mark())?;
    let mut next = 0;
    while next < marks.len() {
        let m = marks.at(next);
        marks.visit_all(alloc, flow, part, &m)?;
        next += 1;
    }
    Ok(())
}
