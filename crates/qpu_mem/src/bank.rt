//! The banks that memory is kept in.
ghost use Rattle.std.specs.Prelude.{◌≡◌, ℕ, ◌<◌, ◌≤◌, ◌+◌, ◌^◌, drop, length, take, replicate, slice_index, slice_set, IfOk};
ghost use Rattle.qpu_bytes.specs.Elements.{words_from, with_words};
ghost use Rattle.qpu_mem.specs.Banks.{words_in, IsBanked};
ghost use Rattle.qpu_mem.specs.declared.memory.TheConstants.{GROUP};

use crate::memory::GROUP;
use std::alloc::{AllocError, Global};
use std::marker::Model;

/// How many words a bank has; the last bank of a memory may have fewer.
pub(crate) const BANK: usize = 4_096;

/// Words that stand together, seen as a list.
#[derive(Debug, Drop)]
pub(crate) struct Bank {
    words: Vec<u32>,
}

impl Model for Bank {
    ghost use Rattle.std.specs.Prelude.{List, ℕ};

    ghost Value = { List ℕ };

    ghost view = { λ bank. bank.words.items };
}

/// Tells that words have 32 bits.
fn fit(words: &[u32])
    ensures { (i : ℕ) → slice_index words.now i < 2 ^ 32 }
{
    let _words = words;
}

impl Bank {
    /// So many words, all 0.
    pub(crate) fn new(alloc: Global, words: usize) -> Result<Bank, AllocError>
        ensures { IfOk result (λ bank. bank ≡ replicate words 0) }
    {
        Ok(Bank {
            words: vec![in alloc; 0; words]?,
        })
    }

    /// The word at an index.
    pub(crate) fn word(&self, at: usize) -> u32
        requires { at < length self.now }
        ensures { result ≡ slice_index self.now at }
    {
        self.words[at]
    }

    /// Sets the word at an index.
    pub(crate) fn set(&mut self, at: usize, value: u32)
        requires { at < length self.old }
        ensures { self.new ≡ slice_set self.old at value }
    {
        self.words[at] = value;
    }

    /// Copies the words from an index on into a slice.
    pub(crate) fn read(&self, at: usize, out: &mut [u32])
        requires { at + length out.old ≤ length self.now }
        ensures words { out.new ≡ words_from self.now at (length out.old) }
        ensures small { (i : ℕ) → slice_index self.now i < 2 ^ 32 }
    {
        fit(&self.words);
        out.copy_from_slice(&self.words[at..at + out.len()]);
    }

    /// Replaces the words from an index on by those of a slice.
    pub(crate) fn write(&mut self, at: usize, words: &[u32])
        requires { at + length words.now ≤ length self.old }
        ensures words { self.new ≡ with_words self.old at words.now }
        ensures small { (i : ℕ) → slice_index self.old i < 2 ^ 32 }
    {
        fit(&self.words);
        self.words[at..at + words.len()].copy_from_slice(words);
    }

    /// The words from an index on, as many as a group has, or those that remain.
    pub(crate) fn group(&self, first: usize) -> &[u32]
        requires { first ≤ length self.now }
        ensures { result.now ≡ take GROUP (drop first self.now) }
    {
        let rest = &self.words[first..];
        &rest[..rest.len().min(GROUP)]
    }

    /// Equal words.
    pub(crate) fn copy(&self, alloc: Global) -> Result<Bank, AllocError>
        ensures { IfOk result (λ bank. bank ≡ self.now) }
    {
        Ok(Bank {
            words: Vec::from_slice(alloc, &self.words)?,
        })
    }
}

/// So many words, all 0, in banks.
#[tactic(auto, using(crate::proofs::BankLemmas::clear_none, crate::proofs::BankLemmas::clear_more, crate::proofs::BankLemmas::clear_banked, crate::proofs::BankLemmas::clear_words))]
pub(crate) fn clear_banks(alloc: Global, words: usize) -> Result<Vec<Bank>, AllocError>
    ensures banked { IfOk result (λ banks. IsBanked words banks.items) }
    ensures clear { IfOk result (λ banks. words_in banks.items ≡ replicate words 0) }
{
    let mut banks = Vec::new(alloc);
    for k in 0..words.div_ceil(BANK) {
        banks.push(Bank::new(alloc, BANK.min(words - BANK * k))?)?;
    }
    Ok(banks)
}

/// Banks with the same words.
pub(crate) fn copied_banks(alloc: Global, banks: &[Bank]) -> Result<Vec<Bank>, AllocError>
    ensures { IfOk result (λ copies. copies.items ≡ banks.now) }
{
    let mut copies = Vec::new(alloc);
    for bank in banks {
        copies.push(bank.copy(alloc)?)?;
    }
    Ok(copies)
}
