//! Expressions, read by a stack.
ghost use Rattle.std.specs.Prelude.{◌≡◌, ◌++◌, ◌∷◌, [], List, reverse, MatchOption, OnOk};
ghost use Rattle.qpu_expr.specs.declared.expression.Frame.{Frame};
ghost use Rattle.qpu_expr.specs.Operators.{Worth};
ghost use Rattle.qpu_expr.specs.Expressions.{Reading, reading, taken, collapse, read_due, closed, passed, read_behind, stepped, finished};

use crate::operator::{Operator, Worth, invert, negate};
use crate::place::Place;
use std::alloc::{AllocError, Global};
use std::marker::Model;

/// What an item of an expression is.
#[derive(Clone, Copy)]
pub(crate) enum What {
    /// A number, or a name's.
    Value(u32),
    /// A sign that stands between two numbers; `-` also before one.
    Binary(Operator),
    /// `~`.
    Invert,
    /// `(`.
    Open,
    /// `)`.
    Close,
    /// Something that no expression has.
    Other,
}

/// An item of an expression.
#[derive(Clone, Copy)]
pub(crate) struct Item {
    /// What it is.
    pub(crate) what: What,
    /// Its place.
    pub(crate) place: Place,
}

/// What waits for its right side.
#[derive(Clone, Copy)]
pub(crate) enum Frame {
    /// A left side and its sign.
    Left {
        /// What the left side is worth.
        worth: Worth,
        /// The sign.
        sign: Operator,
        /// The place of the sign.
        place: Place,
    },
    /// `-` before a number.
    Negate,
    /// `~`.
    Invert,
    /// An open bracket.
    Open,
}

/// What was read last.
#[derive(Clone, Copy)]
pub(crate) enum Phase {
    /// Nothing, or what a number has to follow.
    Due,
    /// A number.
    There(Worth),
    /// What no expression goes on with.
    Broken,
    /// Something behind a whole expression, at this place.
    Behind(Place),
}

/// What items come to as an expression.
#[derive(Clone, Copy)]
pub(crate) enum Parsed {
    /// An expression with its worth.
    Whole(Worth),
    /// No expression, nor one with more behind it.
    Cut,
    /// An expression with more behind it, at this place.
    Extra(Place),
}

/// An expression that is being read.
#[derive(Drop)]
pub(crate) struct Reader {
    stack: Vec<Frame>,
    phase: Phase,
}

impl Model for Reader {
    ghost use Rattle.std.specs.Prelude.{reverse};
    ghost use Rattle.qpu_expr.specs.Expressions.{Reading, reading};

    ghost Value = { Reading };

    ghost view = { λ r. reading (reverse r.stack.items) r.phase };
}

/// The newest frame.
fn top(stack: &Vec<Frame>) -> Option<Frame>
    ensures { MatchOption result (stack.now.items ≡ []) (λ f. (front : List Frame) × (stack.now.items ≡ front ++ f ∷ [])) }
{
    stack.last().copied()
}

/// What a frame makes of its right side, where it binds at least as tight as a level.
fn take(least: u32, frame: Frame, worth: Worth) -> Option<Worth>
    ensures { result ≡ taken least frame worth }
{
    match frame {
        Frame::Left {
            worth: left,
            sign,
            place,
        } => {
            if sign.level() < least {
                None
            } else {
                Some(sign.combine(place, left, worth))
            }
        }
        Frame::Negate => Some(negate(worth)),
        Frame::Invert => Some(invert(worth)),
        Frame::Open => None,
    }
}

/// Takes all frames that bind at least as tight as a level.
fn collapse(stack: &mut Vec<Frame>, least: u32, last: Worth) -> Worth
    ensures { collapse least (reverse stack.old.items) last ≡ (reverse stack.new.items, result) }
{
    let mut worth = last;
    while let Some(frame) = top(stack) {
        let Some(next) = take(least, frame, worth) else {
            return worth;
        };
        stack.pop();
        worth = next;
    }
    worth
}

/// The phase behind something that no expression goes on with, and the place of that. What is read was
/// whole exactly where nothing waits.
fn passed(stack: &Vec<Frame>, place: Place) -> Phase
    ensures { (v : Worth) → passed place (reverse stack.now.items, v) ≡ reading (reverse stack.now.items) result }
{
    if stack.is_empty() {
        Phase::Behind(place)
    } else {
        Phase::Broken
    }
}

impl Reader {
    /// Nothing is read yet.
    pub(crate) fn new(alloc: Global) -> Reader
        ensures { result ≡ reading [] Phase.Due }
    {
        Reader {
            stack: Vec::new(alloc),
            phase: Phase::Due,
        }
    }

    /// Lets a frame wait for its right side.
    fn wait(&mut self, frame: Frame) -> Result<(), AllocError>
        ensures { OnOk result (self.new ≡ reading (frame ∷ self.old.stack) Phase.Due) }
    {
        self.stack.push(frame)?;
        self.phase = Phase::Due;
        Ok(())
    }

    /// Reads an item where a number is due.
    fn read_due(&mut self, what: What) -> Result<(), AllocError>
        ensures { OnOk result (self.new ≡ read_due what self.old.stack) }
    {
        match what {
            What::Value(v) => self.phase = Phase::There(Ok(v)),
            What::Binary(Operator::Minus) => return self.wait(Frame::Negate),
            What::Invert => return self.wait(Frame::Invert),
            What::Open => return self.wait(Frame::Open),
            What::Binary(_) | What::Close | What::Other => self.phase = Phase::Broken,
        }
        Ok(())
    }

    /// Closes the newest bracket that is open.
    fn close(&mut self, place: Place, worth: Worth)
        ensures { self.new ≡ closed place (collapse 0 self.old.stack worth) }
    {
        let worth = collapse(&mut self.stack, 0, worth);
        match top(&self.stack) {
            Some(Frame::Open) => {
                self.stack.pop();
                self.phase = Phase::There(worth);
            }
            Some(_) => self.phase = Phase::Broken,
            None => self.phase = Phase::Behind(place),
        }
    }

    /// Reads something behind a number that no expression goes on with.
    fn pass(&mut self, place: Place, worth: Worth)
        ensures { self.new ≡ passed place (collapse 0 self.old.stack worth) }
    {
        let _ = collapse(&mut self.stack, 0, worth);
        self.phase = passed(&self.stack, place);
    }

    /// Reads an item behind a number.
    fn read_behind(&mut self, item: Item, worth: Worth) -> Result<(), AllocError>
        ensures { OnOk result (self.new ≡ read_behind item.what item.place self.old.stack worth) }
    {
        match item.what {
            What::Binary(sign) => {
                let left = collapse(&mut self.stack, sign.level(), worth);
                self.wait(Frame::Left {
                    worth: left,
                    sign,
                    place: item.place,
                })
            }
            What::Close => {
                self.close(item.place, worth);
                Ok(())
            }
            What::Value(_) | What::Invert | What::Open | What::Other => {
                self.pass(item.place, worth);
                Ok(())
            }
        }
    }

    /// Reads one item more.
    pub(crate) fn read(&mut self, item: Item) -> Result<(), AllocError>
        ensures { OnOk result (self.new ≡ stepped self.old item) }
    {
        match self.phase {
            Phase::Due => self.read_due(item.what),
            Phase::There(worth) => self.read_behind(item, worth),
            Phase::Broken | Phase::Behind(_) => Ok(()),
        }
    }

    /// What the items come to.
    pub(crate) fn finish(&mut self) -> Parsed
        ensures { result ≡ finished self.old }
    {
        match self.phase {
            Phase::Due | Phase::Broken => Parsed::Cut,
            Phase::Behind(place) => Parsed::Extra(place),
            Phase::There(worth) => {
                let worth = collapse(&mut self.stack, 0, worth);
                if self.stack.is_empty() {
                    Parsed::Whole(worth)
                } else {
                    Parsed::Cut
                }
            }
        }
    }
}
