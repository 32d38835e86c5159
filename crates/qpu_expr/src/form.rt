//! Whether tokens are an expression, told without their numbers.
ghost use Rattle.std.specs.Prelude.{◌≡◌, IfOk};
ghost use Rattle.qpu_expr.specs.Forms.{due_read, behind_read, formed, is_form, no_outline, outlined, lacks};

use crate::expression::What;
use crate::operator::Operator;
use crate::setting::{is_unknown, item_of};
use crate::table::Table;
use qpu_token::Token;
use std::alloc::AllocError;

/// How far an expression is, with how many brackets open.
#[derive(Clone, Copy)]
pub(crate) enum Form {
    /// A number is due, or what may stand before one.
    Due(usize),
    /// A number is there.
    There(usize),
    /// It is none.
    Broken,
}

/// How far an expression is, and whether a name in it isn't set.
#[derive(Clone, Copy)]
pub(crate) struct Outline {
    /// How far it is.
    pub(crate) form: Form,
    /// Whether a name isn't set.
    pub(crate) unknown: bool,
}

/// Reads an item where a number is due. More brackets than memory counts are want of memory.
fn due_read(depth: usize, what: What) -> Result<Form, AllocError>
    ensures { IfOk result (λ form. form ≡ due_read depth what) }
{
    match what {
        What::Value(_) => Ok(Form::There(depth)),
        What::Binary(Operator::Minus) | What::Invert => Ok(Form::Due(depth)),
        What::Open => match depth.checked_add(1) {
            Some(more) => Ok(Form::Due(more)),
            None => Err(AllocError),
        },
        What::Binary(_) | What::Close | What::Other => Ok(Form::Broken),
    }
}

/// Reads an item behind a number.
fn behind_read(depth: usize, what: What) -> Form
    ensures { result ≡ behind_read depth what }
{
    match what {
        What::Binary(_) => Form::Due(depth),
        What::Close if depth > 0 => Form::There(depth - 1),
        _ => Form::Broken,
    }
}

impl Form {
    /// Reads one item more.
    fn read(self, what: What) -> Result<Form, AllocError>
        ensures { IfOk result (λ form. form ≡ formed self what) }
    {
        match self {
            Form::Due(depth) => due_read(depth, what),
            Form::There(depth) => Ok(behind_read(depth, what)),
            Form::Broken => Ok(Form::Broken),
        }
    }

    /// Whether it is an expression as it stands.
    pub(crate) fn is_whole(self) -> bool
        ensures { result ≡ is_form self }
    {
        matches!(self, Form::There(0))
    }
}

impl Outline {
    /// Nothing is read yet.
    pub(crate) fn new() -> Outline
        ensures { result ≡ no_outline }
    {
        Outline {
            form: Form::Due(0),
            unknown: false,
        }
    }

    /// Reads one token more.
    pub(crate) fn read(
        self,
        text: &[u8],
        sets: &Table<u32>,
        token: Token,
    ) -> Result<Outline, AllocError>
        ensures { IfOk result (λ o. o ≡ outlined text.now sets.now self token) }
    {
        Ok(Outline {
            form: self.form.read(item_of(text, sets, token).what)?,
            unknown: self.unknown || is_unknown(text, sets, token),
        })
    }

    /// Whether it is an expression with a name that isn't set.
    pub(crate) fn lacks(self) -> bool
        ensures { result ≡ lacks self }
    {
        self.form.is_whole() && self.unknown
    }
}
