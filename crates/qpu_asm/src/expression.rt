//! How far an expression goes.
ghost use Rattle.std.specs.Prelude.{◌≡◌, ◌<◌, ◌+◌, ◌^◌, length, map, option_map};
ghost use Rattle.qpu_asm.specs.Expressions.{value_read, closed, sign_read, symbol_read, ended, length_from, expression_length};

use crate::placed::Placed;
use qpu_line::Symbol;

/// What is due in an expression.
#[derive(Clone, Copy)]
pub(crate) enum Due {
    /// A number, a name, or what stands before one.
    Value,
    /// A sign between two numbers, or the end.
    Sign,
}

/// What is due behind a symbol where a value is due, and how many brackets are then open.
fn value_read(depth: usize, symbol: Symbol) -> Option<(Due, usize)>
    requires { depth + 1 < 2 ^ 64 }
    ensures { result ≡ value_read depth symbol }
{
    match symbol {
        Symbol::Name(_) | Symbol::Unknown | Symbol::Number(_) => Some((Due::Sign, depth)),
        Symbol::Open => Some((Due::Value, depth + 1)),
        Symbol::Minus | Symbol::Invert => Some((Due::Value, depth)),
        _ => None,
    }
}

/// What is due behind a symbol where a sign is due, and how many brackets are then open.
fn sign_read(depth: usize, symbol: Symbol) -> Option<(Due, usize)>
    ensures { result ≡ sign_read depth symbol }
{
    match symbol {
        Symbol::Minus | Symbol::Binary => Some((Due::Value, depth)),
        Symbol::Close if depth > 0 => Some((Due::Sign, depth - 1)),
        _ => None,
    }
}

/// What is due behind a symbol, and how many brackets are then open.
fn symbol_read(due: Due, depth: usize, symbol: Symbol) -> Option<(Due, usize)>
    requires { depth + 1 < 2 ^ 64 }
    ensures { result ≡ symbol_read due depth symbol }
{
    match due {
        Due::Value => value_read(depth, symbol),
        Due::Sign => sign_read(depth, symbol),
    }
}

/// Where an expression ends, if it may end there.
fn ended(due: Due, depth: usize, at: usize) -> Option<usize>
    ensures { result ≡ option_map (λ n. n + at) (ended due depth) }
{
    match due {
        Due::Sign if depth == 0 => Some(at),
        _ => None,
    }
}

/// How many of the tokens at the front are an expression, the longest; none where none begins there or
/// can be completed.
pub(crate) fn expression_length(xs: &[Placed]) -> Option<usize>
    ensures { result ≡ expression_length (map (λ x. x.symbol) xs.now) }
{
    let mut due = Due::Value;
    let mut depth = 0;
    for (i, x) in xs.iter().enumerate() {
        let Some((then, open)) = symbol_read(due, depth, x.symbol) else {
            return ended(due, depth, i);
        };
        due = then;
        depth = open;
    }
    ended(due, depth, xs.len())
}
