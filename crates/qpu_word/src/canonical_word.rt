//! The canonical word of a word's meaning: what each of its fields holds, form by form. This is the
//! project's own.
ghost use Rattle.std.specs.Prelude.{◌≡◌, IsSome};
ghost use Rattle.qpu_word.specs.Words.{word_fault, IsInProfile};
ghost use Rattle.qpu_word.specs.Canonical.{IsCanonical};
ghost use Rattle.qpu_word.specs.CanonicalWord.{exchange_matters, code_acts, said_by, address_by, cond_by, row_by, canonical_signal, canonical_row_b, canonical_exchange, second_by, canonical_units, canonical_load, canonical_semaphore, canonical_branch, canonical_of_form, canonical_word};

use crate::canonical::{SEMAPHORE_IMMEDIATES, file_matters};
use crate::code::{COND_ALWAYS, MUX_FILE_A, MUX_FILE_B, NOWHERE, ROTATE_BY_R5, ROWS, SIGNAL_NONE};
use crate::form::Form;
use crate::word::{Fields, Word};

/// A field of a unit that acts; else 0.
fn said_by(acts: bool, n: u32) -> u32
    ensures { result ≡ said_by acts n }
{
    if acts { n } else { 0 }
}

/// The address of a unit that acts; else 39.
fn address_by(acts: bool, address: u32) -> u32
    ensures { result ≡ address_by acts address }
{
    if acts { address } else { NOWHERE }
}

/// The condition of a unit that acts, which is always where its address is 39; else 0.
fn cond_by(acts: bool, address: u32, cond: u32) -> u32
    ensures { result ≡ cond_by acts address cond }
{
    said_by(
        acts,
        if address == NOWHERE {
            COND_ALWAYS
        } else {
            cond
        },
    )
}

/// A read address; 39 in place of a row that isn't read.
fn row_by(used: bool, address: u32) -> u32
    ensures { result ≡ row_by used address }
{
    if address < ROWS && !used {
        NOWHERE
    } else {
        address
    }
}

impl Fields {
    /// Whether an exchange of the files matters to a unit that is active, or writes.
    fn exchange_matters(&self) -> bool
        ensures { result ≡ exchange_matters self.now }
    {
        ((self.add_active() || self.add_writes()) && file_matters(self.waddr_add))
            || ((self.mul_active() || self.mul_writes()) && file_matters(self.waddr_mul))
    }

    /// Whether the code of a small immediate word has an effect.
    fn code_acts(&self) -> bool
        ensures { result ≡ code_acts self.now }
    {
        if self.raddr_b < ROTATE_BY_R5 {
            self.uses(MUX_FILE_B)
        } else {
            self.mul_active()
        }
    }

    /// The signal; none in place of a code without effect.
    #[tactic(auto, unfolding(crate::specs::CanonicalWord::canonical_signal))]
    fn canonical_signal(&self) -> u32
        ensures { result ≡ canonical_signal self.now }
    {
        if self.is_small() && !self.code_acts() {
            SIGNAL_NONE
        } else {
            self.sig
        }
    }

    /// The read address of file B, or the code.
    #[tactic(auto, unfolding(crate::specs::CanonicalWord::canonical_row_b))]
    fn canonical_row_b(&self) -> u32
        ensures { result ≡ canonical_row_b self.now }
    {
        if self.is_small() {
            address_by(self.code_acts(), self.raddr_b)
        } else {
            row_by(self.uses(MUX_FILE_B), self.raddr_b)
        }
    }

    /// Whether the files are exchanged.
    #[tactic(auto, unfolding(crate::specs::CanonicalWord::canonical_exchange))]
    fn canonical_exchange(&self) -> u32
        ensures { result ≡ canonical_exchange self.now }
    {
        said_by(self.exchange_matters(), self.ws)
    }

    /// The second operand of the add unit; that of an operation with one operand is the first.
    fn second(&self) -> u32
        ensures { result ≡ second_by self.now }
    {
        if self.is_unary() {
            self.add_a
        } else {
            self.add_b
        }
    }

    /// The canonical fields of an ALU or small immediate word.
    #[tactic(auto, unfolding(crate::specs::CanonicalWord::canonical_units))]
    fn canonical_units(&self) -> Fields
        ensures { result ≡ canonical_units self.now }
    {
        let add = self.add_active();
        let mul = self.mul_active();
        Fields {
            sig: self.canonical_signal(),
            pm: 0,
            cond_add: cond_by(add, self.waddr_add, self.cond_add),
            cond_mul: cond_by(mul, self.waddr_mul, self.cond_mul),
            sf: said_by(add || mul, self.sf),
            ws: self.canonical_exchange(),
            waddr_add: address_by(add, self.waddr_add),
            waddr_mul: address_by(mul, self.waddr_mul),
            op_mul: said_by(mul, self.op_mul),
            op_add: said_by(add, self.op_add),
            raddr_a: row_by(self.uses(MUX_FILE_A), self.raddr_a),
            raddr_b: self.canonical_row_b(),
            add_a: said_by(add, self.add_a),
            add_b: said_by(add, self.second()),
            mul_a: said_by(mul, self.mul_a),
            mul_b: said_by(mul, self.mul_b),
            ..*self
        }
    }

    /// The canonical fields of a load immediate.
    #[tactic(auto, unfolding(crate::specs::CanonicalWord::canonical_load))]
    fn canonical_load(&self) -> Fields
        ensures { result ≡ canonical_load self.now }
    {
        let add = self.add_writes();
        let mul = self.mul_writes();
        Fields {
            pm: 0,
            cond_add: said_by(add, self.cond_add),
            cond_mul: said_by(mul, self.cond_mul),
            ws: self.canonical_exchange(),
            waddr_add: address_by(add, self.waddr_add),
            waddr_mul: address_by(mul, self.waddr_mul),
            ..*self
        }
    }

    /// The canonical fields of a semaphore word.
    #[tactic(auto, unfolding(crate::specs::CanonicalWord::canonical_semaphore))]
    fn canonical_semaphore(&self) -> Fields
        ensures { result ≡ canonical_semaphore self.now }
    {
        Fields {
            pm: 0,
            pack: 0,
            cond_add: 0,
            cond_mul: 0,
            sf: 0,
            ws: 0,
            immediate: self.immediate % SEMAPHORE_IMMEDIATES,
            ..*self
        }
    }

    /// The canonical fields of a branch.
    #[tactic(auto, unfolding(crate::specs::CanonicalWord::canonical_branch))]
    fn canonical_branch(&self) -> Fields
        ensures { result ≡ canonical_branch self.now }
    {
        Fields {
            kind: 0,
            pm: 0,
            ws: self.canonical_exchange(),
            raddr_br: said_by(self.reg == 1, self.raddr_br),
            ..*self
        }
    }

    /// The canonical word of the fields, by their form.
    #[tactic(auto, unfolding(crate::specs::CanonicalWord::canonical_of_form))]
    fn canonical_of_form(&self, form: Form) -> Word
        ensures { result.0 ≡ canonical_of_form form self.now }
    {
        match form {
            Form::Alu | Form::Small => self.canonical_units().unit_word(),
            Form::Load32 | Form::LoadSigned | Form::LoadUnsigned => {
                self.canonical_load().immediate_word()
            }
            Form::Semaphore => self.canonical_semaphore().immediate_word(),
            Form::Branch => self.canonical_branch().branch_word(),
        }
    }
}

/// The canonical word of a word, by its form; a word without one itself.
#[tactic(auto, unfolding(crate::specs::CanonicalWord::canonical_word))]
fn canonical_word(word: Word) -> Word
    ensures { result.0 ≡ canonical_word word.0 }
{
    match word.form() {
        Ok(form) => word.fields().canonical_of_form(form),
        Err(_) => word,
    }
}

impl Word {
    /// The canonical word of the same meaning (this project's own): that of a word of the profile is
    /// canonical, and a canonical word is its own. A word outside the profile is given back.
    pub fn canonical_of(self) -> Word
        ensures exact { result.0 ≡ canonical_word self.0 }
        ensures canonical { IsInProfile self.0 → IsCanonical result.0 }
        ensures own { IsCanonical self.0 → result.0 ≡ self.0 }
        ensures outside { IsSome (word_fault self.0) → result.0 ≡ self.0 }
    {
        canonical_word(self)
    }
}
