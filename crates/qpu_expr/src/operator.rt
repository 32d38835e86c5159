ghost use Rattle.std.specs.Prelude.{◌≡◌};
ghost use Rattle.qpu_expr.specs.Operators.{level, applied, combined, negated, inverted};

use crate::place::Place;

/// A sign between two numbers of an expression.
#[derive(Clone, Copy)]
pub(crate) enum Operator {
    /// `*`.
    Times,
    /// `/`.
    Over,
    /// `%`.
    Rest,
    /// `+`.
    Plus,
    /// `-`.
    Minus,
    /// `<<`.
    Left,
    /// `>>`.
    Right,
    /// `&`.
    And,
    /// `^`.
    Xor,
    /// `|`.
    Or,
}

/// What an expression is worth: a number of 32 bits, or the place of its leftmost division by 0.
pub(crate) type Worth = Result<u32, Place>;

impl Operator {
    /// How tight it binds, from 0 on.
    pub(crate) fn level(self) -> u32
        ensures { result ≡ level self }
    {
        match self {
            Operator::Times | Operator::Over | Operator::Rest => 5,
            Operator::Plus | Operator::Minus => 4,
            Operator::Left | Operator::Right => 3,
            Operator::And => 2,
            Operator::Xor => 1,
            Operator::Or => 0,
        }
    }

    /// Its result; none for a division by 0.
    fn apply(self, a: u32, b: u32) -> Option<u32>
        ensures { result ≡ applied self a b }
    {
        match self {
            Operator::Times => Some(a.wrapping_mul(b)),
            Operator::Over => if b == 0 { None } else { Some(a / b) },
            Operator::Rest => if b == 0 { None } else { Some(a % b) },
            Operator::Plus => Some(a.wrapping_add(b)),
            Operator::Minus => Some(a.wrapping_sub(b)),
            Operator::Left => Some(a.wrapping_shl(b)),
            Operator::Right => Some(a.wrapping_shr(b)),
            Operator::And => Some(a & b),
            Operator::Xor => Some(a ^ b),
            Operator::Or => Some(a | b),
        }
    }

    /// What it makes of two sides; its sign stands at a place.
    pub(crate) fn combine(self, place: Place, a: Worth, b: Worth) -> Worth
        ensures { result ≡ combined self place a b }
    {
        match (a, b) {
            (Err(fault), _) | (Ok(_), Err(fault)) => Err(fault),
            (Ok(x), Ok(y)) => self.apply(x, y).ok_or(place),
        }
    }
}

/// What `-` before a number makes of it.
pub(crate) fn negate(worth: Worth) -> Worth
    ensures { result ≡ negated worth }
{
    match worth {
        Ok(x) => Ok(0_u32.wrapping_sub(x)),
        Err(fault) => Err(fault),
    }
}

/// What `~` before a number makes of it.
pub(crate) fn invert(worth: Worth) -> Worth
    ensures { result ≡ inverted worth }
{
    match worth {
        Ok(x) => Ok(u32::MAX - x),
        Err(fault) => Err(fault),
    }
}
