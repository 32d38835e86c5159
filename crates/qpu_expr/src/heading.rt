//! The heading of a macro, read up to the first parameter that is there twice.
ghost use Rattle.std.specs.Prelude.{◌≡◌, OnOk, drop};
ghost use Rattle.qpu_expr.specs.Headings.{no_heading, name_twice, headed, heading_twice};

use crate::deed::when;
use crate::macros::{Macro, NameList};
use crate::place::{Place, place_of};
use crate::symbol::text_of;
use crate::table::Table;
use qpu_token::Token;
use std::alloc::{AllocError, Global};
use std::marker::Model;

/// A heading that is being read.
#[derive(Drop)]
pub(crate) struct Heading {
    names: NameList,
    twice: Option<Place>,
}

impl Model for Heading {
    ghost use Rattle.qpu_expr.specs.Headings as headings;

    ghost Value = { headings.Heading };

    ghost view = { λ h. record { names = h.names; twice = h.twice } };
}

impl Heading {
    /// Nothing is read yet.
    pub(crate) fn new(alloc: Global) -> Heading
        ensures { result ≡ no_heading }
    {
        Heading {
            names: NameList::new(alloc),
            twice: None,
        }
    }

    /// Reads one token more.
    pub(crate) fn read(&mut self, text: &[u8], token: Token) -> Result<(), AllocError>
        ensures { OnOk result (self.new ≡ headed text.now self.old token) }
    {
        if self.twice.is_some() {
            return Ok(());
        }
        self.twice = self.names.twice(text, token);
        self.names.read(text, token)
    }

    /// The place of the macro's name where it is there already, or of the first parameter that is.
    pub(crate) fn twice(&self, text: &[u8], macros: &Table<Macro>) -> Option<Place>
        ensures { result ≡ heading_twice text.now macros.now self.now }
    {
        match self.names.names() {
            [] => None,
            [name, ..] => {
                let there = macros.get(text_of(text, *name)).is_some();
                when(there, place_of(*name)).or(self.twice)
            }
        }
    }
}
