//! What the lines of a text have led to.
ghost use Rattle.std.specs.Prelude.{◌≡◌, ◌<◌, ◌-◌, OnOk, IfOk, map, true, slice_get, option_map, Ok, Err, if◌then◌else◌};
ghost use Rattle.qpu_token.specs.declared.fault.AsmKind.TheVariants.{TooLong};
ghost use Rattle.qpu_expr.specs.declared.place.Place.{Place};
ghost use Rattle.qpu_expr.specs.Symbols.{place_of, fault_at};
ghost use Rattle.qpu_expr.specs.Stage.{first_stage, line_place, too_long, tokens_counted, turn_counted, labelled, leaves, changed, label_twice};
ghost use Rattle.qpu_expr.specs.Room.{HasTokenRoom};

use crate::expanded::{Expanded, LabelAt, PlainLine};
use crate::limits::{MOST_LINES, MOST_TOKENS, MOST_WORDS};
use crate::line::Line;
use crate::macros::Macro;
use crate::place::{Place, place_of};
use crate::setting::Setting;
use crate::symbol::text_of;
use crate::table::Table;
use qpu_token::Token;
use std::alloc::{AllocError, Global};
use std::marker::Model;

/// What a line changes.
#[derive(Drop)]
pub(crate) enum Change {
    /// Nothing.
    Nothing,
    /// A name is set.
    Sets(Setting),
    /// A macro is defined.
    Defines(Macro),
    /// A line is left.
    Leaves(PlainLine),
}

impl Change {
    /// Whether a line is left.
    pub(crate) fn leaves(&self) -> bool
        ensures { result ≡ leaves self.now }
    {
        matches!(self, Change::Leaves(_))
    }
}

/// What the lines up to here have led to.
#[derive(Drop)]
pub(crate) struct State {
    lines: Vec<PlainLine>,
    labels: Table<LabelAt>,
    sets: Table<u32>,
    macros: Table<Macro>,
    reached: u32,
    tokens: usize,
    words: u32,
}

impl Model for State {
    ghost use Rattle.qpu_expr.specs.StageParts.{Stage};

    ghost Value = { Stage };

    ghost view = { λ s. record {
      lines = s.lines.items;
      labels = s.labels;
      sets = s.sets;
      macros = s.macros;
      reached = s.reached;
      tokens = s.tokens;
      words = s.words;
    } };
}

/// The place of a line.
fn line_place(line: &Line) -> Place
    ensures { result ≡ line_place line.now }
{
    match line.tokens.first() {
        Some(token) => place_of(*token),
        None => Place {
            line: line.end.line,
            column: 1,
        },
    }
}

impl State {
    /// Before the first line.
    pub(crate) fn new(alloc: Global) -> State
        ensures { result ≡ first_stage }
    {
        State {
            lines: Vec::new(alloc),
            labels: Table::new(alloc),
            sets: Table::new(alloc),
            macros: Table::new(alloc),
            reached: 0,
            tokens: 0,
            words: 0,
        }
    }

    /// The names that are set.
    pub(crate) fn sets(&self) -> &Table<u32>
        ensures { result.now ≡ self.now.sets }
    {
        &self.sets
    }

    /// The macros.
    pub(crate) fn macros(&self) -> &Table<Macro>
        ensures { result.now ≡ self.now.macros }
    {
        &self.macros
    }

    /// The place of a label whose name is there already.
    pub(crate) fn label_twice(&self, text: &[u8], label: Option<Token>) -> Option<Place>
        ensures { result ≡ label_twice text.now self.now.labels label }
    {
        match label {
            Some(name) if self.labels.get(text_of(text, name)).is_some() => Some(place_of(name)),
            _ => None,
        }
    }

    /// The place of the first token of a line that is one too many.
    fn token_past(&self, line: &Line) -> Option<Place>
        ensures { result ≡ option_map place_of (slice_get line.now.tokens (MOST_TOKENS - self.now.tokens)) }
    {
        match line.tokens.get(MOST_TOKENS.saturating_sub(self.tokens)) {
            Some(token) => Some(place_of(*token)),
            None => None,
        }
    }

    /// Where a limit is passed by a line, and by the word that it may give.
    #[tactic(auto, unfolding(crate::specs::Stage::too_long))]
    pub(crate) fn too_long(&self, line: &Line, word: bool) -> Option<Place>
        ensures { result ≡ too_long self.now line.now word }
    {
        if self.reached >= MOST_LINES || word && self.words >= MOST_WORDS {
            return Some(line_place(line));
        }
        self.token_past(line)
    }

    /// Counts a line that passes no limit.
    pub(crate) fn count(&mut self, line: &Line)
        requires { HasTokenRoom self.old line.now }
        ensures { self.new ≡ tokens_counted line.now self.old }
    {
        self.reached += 1;
        self.tokens += line.tokens.len();
    }

    /// Counts a turn of a repeat, unless it passes the limit.
    pub(crate) fn count_turn(&mut self) -> bool
        ensures { (place : Place) → turn_counted place self.old ≡ (if result then Ok self.new else Err (fault_at TooLong place)) }
    {
        if self.reached >= MOST_LINES {
            return false;
        }
        self.reached += 1;
        true
    }

    /// Puts a label before the next word.
    pub(crate) fn put_label(
        &mut self,
        alloc: Global,
        text: &[u8],
        label: Option<Token>,
    ) -> Result<(), AllocError>
        ensures { OnOk result (self.new ≡ labelled text.now label self.old) }
    {
        let Some(name) = label else {
            return Ok(());
        };
        let at = LabelAt {
            from: name.from,
            to: name.to,
            word: self.words,
        };
        self.labels.put(alloc, text_of(text, name), at)
    }

    /// Makes the change of a line.
    pub(crate) fn change(
        &mut self,
        alloc: Global,
        text: &[u8],
        change: Change,
    ) -> Result<(), AllocError>
        requires { leaves change ≡ true → self.old.words < MOST_WORDS }
        ensures { OnOk result (self.new ≡ changed text.now change self.old) }
    {
        match change {
            Change::Nothing => Ok(()),
            Change::Sets(setting) => self
                .sets
                .put(alloc, text_of(text, setting.name), setting.value),
            Change::Defines(m) => self.macros.put(alloc, text_of(text, m.name), m),
            Change::Leaves(line) => {
                self.lines.push(line)?;
                self.words += 1;
                Ok(())
            }
        }
    }

    /// What is left of the text.
    pub(crate) fn expanded(self, alloc: Global) -> Result<Expanded, AllocError>
        ensures lines { IfOk result (λ e. e.lines.items ≡ self.lines) }
        ensures labels { IfOk result (λ e. e.labels.items ≡ map (λ l. l.1) self.labels) }
    {
        let labels = self.labels.into_values(alloc)?;
        Ok(Expanded {
            lines: self.lines,
            labels,
        })
    }
}
