ghost use Rattle.std.specs.Prelude.{◌≡◌, ◌<◌, ◌≤◌, ◌+◌, ◌/◌, ◌↔◌, ℕ, IsOk, IfOk, IfSome, IsTrue, Some};
ghost use Rattle.std.specs.List.{slice_get};
ghost use Rattle.qpu_word.specs.declared.code.TheConstants.{MEMORY_WORDS};
ghost use Rattle.qpu_bytes.specs.Elements.{is_place};
ghost use Rattle.qpu_dma.specs.Transfers.{transfer_of, fits, pair_at, row_pairs};
ghost use Rattle.qpu_dma.specs.Moves.{after_row};
ghost use Rattle.qpu_dma.specs.Runs.{LiesInRun};
ghost use Rattle.qpu_dma.specs.States.{state_of, IsPossible};

use crate::decoding::places;
use crate::places::Places;
use crate::{Direction, Pair, TransferOut, WordRow};
use qpu_bytes::Size;
use qpu_word::code::WORD_BYTES;
use std::marker::Model;

/// A DMA transfer that may start, and how many of its rows were moved: fewer than it has. Contracts
/// see its `TransferState`.
#[derive(Clone, Copy, Debug)]
pub struct Transfer {
    places: Places,
    moved: u32,
}

impl Model for Transfer {
    ghost use Rattle.qpu_dma.specs.Transfers.{TransferState};

    ghost Value = { TransferState };

    ghost use Rattle.qpu_dma.specs.States.{state_of, places_of, IsMovable};

    ghost view = { λ inside. state_of inside.places inside.moved };

    ghost invariant = { λ inside. IsMovable (state_of inside.places inside.moved) };

    ghost inverse = { λ t. record { places = places_of t; moved = t.moved } };
}

impl Transfer {
    /// A transfer before its first row, by its direction, its setup, the extended pitch of a load or
    /// the stride of a store, and the address, all three in bytes, and the number of words of memory
    /// (Guide, "VPM DMA Loads" and "VPM DMA Stores"). `TransferOut` exactly where it may not start.
    pub fn of(
        direction: Direction,
        setup: u32,
        step: u32,
        address: u32,
        words: u32,
    ) -> Result<Transfer, TransferOut>
        requires { words ≤ MEMORY_WORDS }
        ensures ok { IsOk result ↔ IsTrue (fits (transfer_of direction setup step address) words) }
        ensures is { IfOk result (λ t. t ≡ transfer_of direction setup step address) }
    {
        let places = places(direction, setup, step, address);
        if places.fits(words) {
            Ok(Transfer { places, moved: 0 })
        } else {
            Err(TransferOut)
        }
    }

    /// How many rows there are, 1 to 64.
    pub fn rows(&self) -> u32
        ensures is { result ≡ self.now.rows }
        ensures some { 1 ≤ result }
        ensures most { result ≤ 64 }
    {
        self.places.rows
    }

    /// How many elements a row has, 1 to 128.
    pub fn length(&self) -> u32
        ensures is { result ≡ self.now.row_length }
        ensures some { 1 ≤ result }
        ensures most { result ≤ 128 }
    {
        self.places.row_length
    }

    /// How many rows were moved: the row of that number, from 0, is the next.
    pub fn moved(&self) -> u32
        ensures is { result ≡ self.now.moved }
        ensures below { result < self.now.rows }
    {
        self.moved
    }

    /// Element j of row k, both from 0. It lies inside each memory in which the transfer may start,
    /// and inside the VPM, at multiples of its size.
    pub fn pair(&self, k: u32, j: u32) -> Pair
        requires k { k < self.now.rows }
        requires j { j < self.now.row_length }
        ensures pair { result ≡ pair_at self.now k j }
        ensures listed { slice_get (row_pairs self.now k) j ≡ Some result }
        ensures word { (words : ℕ) → IsTrue (fits self.now words) → result.at / 4 < words }
        ensures place { result.place < 4096 }
        ensures at_whole { IsTrue (is_place result.at result.size) }
        ensures place_whole { IsTrue (is_place result.place result.size) }
    {
        self.places.pair(k, j)
    }

    /// Where the next row lies, if its elements are words that stand side by side in the VPM. None of
    /// all other rows.
    pub fn word_row(&self) -> Option<WordRow>
        ensures run { IfSome result (LiesInRun self.now self.now.moved) }
        ensures inside { IfSome result (λ row. row.place + self.now.row_length ≤ 1024) }
    {
        if self.places.size != Size::Word || self.places.vertical {
            return None;
        }
        let first = self.pair(self.moved, 0);
        Some(WordRow {
            at: first.at / WORD_BYTES,
            place: first.place / WORD_BYTES,
        })
    }

    /// What is left after the next row is moved: None after the last.
    #[tactic(auto, unfolding(crate::specs::Moves::after_row))]
    pub fn next(self) -> Option<Transfer>
        ensures { result ≡ after_row self }
    {
        let moved = self.moved + 1;
        if moved < self.places.rows {
            Some(Transfer {
                places: self.places,
                moved,
            })
        } else {
            None
        }
    }
}
