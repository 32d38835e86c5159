//! What an instruction starts and issues, and why it may not.
ghost use Rattle.std.specs.Prelude.{◌≡◌, ◌/◌, nat_lt, length, IfOk, IsSome};
ghost use Rattle.std.specs.List.{list_all};
ghost use Rattle.qpu_word.specs.Books.{IsSoundBook};
ghost use Rattle.qpu_shared.specs.Views.{IsFitting};
ghost use Rattle.qpu_shared.specs.Instruction.{after_vpm_write, started_with, transfer_started, word_indexes, look_issued, after_writes};

use crate::shared::Shared;
use crate::starts::Begun;
use qpu_dma::{Direction, Transfer};
use qpu_word::code::WORD_BYTES;
use qpu_word::{Book, FaultKind, LANES, Lanes, Outs};

/// The book after a VPM write, where there is one; `NoSetup` where no write setup was given.
fn after_vpm_write(values: &Option<Lanes>, book: Book) -> Result<Book, FaultKind>
    requires { IsSoundBook book }
    ensures value { result ≡ after_vpm_write values.now book }
    ensures sound { IfOk result IsSoundBook }
{
    let mut book = book;
    if values.is_some() {
        book.put_vector()?;
    }
    Ok(book)
}

/// The indexes of the words at byte addresses, whose low two bits are without effect.
#[tactic(auto, using(crate::proofs::SharedLemmas::lanes_mapped))]
fn word_indexes(addresses: &Lanes) -> Lanes
    ensures { result.v ≡ (word_indexes addresses.now).v }
{
    let mut out = [0; LANES];
    for i in 0..LANES {
        out[i] = addresses.v[i] / WORD_BYTES;
    }
    Lanes { v: out }
}

impl Shared {
    /// A transfer with a setup, where one was given: `NoSetup` where none was, `Transfer` where it
    /// doesn't fit.
    fn start(
        &self,
        direction: Direction,
        setup: Option<u32>,
        step: u32,
        address: u32,
    ) -> Result<Option<Transfer>, FaultKind>
        ensures value { result ≡ started_with direction setup step address self.now.memory }
        ensures fits { IfOk result (λ transfer. IsFitting (length self.now.memory) transfer) }
    {
        let Some(setup) = setup else {
            return Err(FaultKind::NoSetup);
        };
        match Transfer::of(direction, setup, step, address, self.memory.len()) {
            Ok(transfer) => Ok(Some(transfer)),
            Err(_) => Err(FaultKind::Transfer),
        }
    }

    /// The transfer of a direction that starts, where there is one.
    fn transfer_started(
        &self,
        direction: Direction,
        at: Option<u32>,
        book: &Book,
    ) -> Result<Option<Transfer>, FaultKind>
        ensures value { result ≡ transfer_started direction at book.now self.now.memory }
        ensures fits { IfOk result (λ transfer. IsFitting (length self.now.memory) transfer) }
    {
        let Some(address) = at else {
            return Ok(None);
        };
        match direction {
            Direction::Load => self.start(direction, book.load, book.load_pitch, address),
            Direction::Store => self.start(direction, book.store, book.store_stride, address),
        }
    }

    /// Whether each word at sixteen byte addresses is inside memory.
    fn are_inside(&self, addresses: &Lanes) -> bool
        ensures { result ≡ list_all (λ a. nat_lt (a / 4) (length self.now.memory)) addresses.now.v }
    {
        let words = self.memory.len();
        addresses
            .v
            .iter()
            .all(|address| address / WORD_BYTES < words)
    }

    /// The look-up that is issued, where there is one; `LookUp` where a word lies outside memory.
    fn look_issued(&self, addresses: &Option<Lanes>) -> Result<Option<Lanes>, FaultKind>
        ensures value { result ≡ look_issued addresses.now self.now.memory }
        ensures sent { IfOk result (λ look. IsSome look → IsSome addresses.now) }
    {
        match addresses {
            None => Ok(None),
            Some(addresses) => {
                if self.are_inside(addresses) {
                    Ok(Some(word_indexes(addresses)))
                } else {
                    Err(FaultKind::LookUp)
                }
            }
        }
    }

    /// What an instruction starts and issues, by what it sends out and the book after its reads;
    /// or the first fault of these, in the order in which they are tried.
    #[tactic(auto, unfolding(crate::specs::Instruction::after_writes))]
    pub(crate) fn starts(&self, outs: &Outs, book: Book) -> Result<Begun, FaultKind>
        requires { IsSoundBook book }
        ensures value { result ≡ after_writes outs.now self.now.memory book }
        ensures sound { IfOk result (λ starts. IsSoundBook starts.book) }
        ensures load { IfOk result (λ starts. IsFitting (length self.now.memory) starts.load) }
        ensures store { IfOk result (λ starts. IsFitting (length self.now.memory) starts.store) }
        ensures sent { IfOk result (λ starts. IsSome starts.look → IsSome outs.now.look) }
    {
        let book = after_vpm_write(&outs.vpm, book)?;
        let book = book.with_setups(outs)?;
        let load = self.transfer_started(Direction::Load, outs.load_at, &book)?;
        let store = self.transfer_started(Direction::Store, outs.store_at, &book)?;
        let look = self.look_issued(&outs.look)?;
        Ok(Begun {
            book: book.with_uniform_to(outs.uniform_to),
            load,
            store,
            look,
        })
    }
}
