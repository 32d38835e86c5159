//! What a processor keeps of its setups, access by access.
ghost use Rattle.std.specs.Prelude.{◌≡◌, Result, Some, IfOk};
ghost use Rattle.qpu_word.specs.Setups.{put_read, put_write, take_vector, put_vector, queued, fresh, Puts};
ghost use Rattle.qpu_word.specs.Books.{IsSoundBook};
ghost use Rattle.qpu_word.specs.Instruction.{after_read_setup, after_write_setup, after_setups, after_uniform_to};

use crate::code::VPM_PLACES;
use crate::fault::FaultKind;
use crate::setup::{
    Book, ReadSetup, Vectors, WriteSetup, bits, read_setup, vector_count, write_setup,
};
use crate::traffic::Outs;

/// A setup of vectors before its first access.
fn fresh(setup: u32) -> Vectors
    ensures { result ≡ fresh setup }
{
    Vectors { setup, done: 0 }
}

impl Book {
    /// Queues a VPM read setup behind the one in use; `SetupsFull` where two are unfinished, and
    /// then nothing changes.
    fn queue(&mut self, setup: u32) -> Result<(), FaultKind>
        ensures { Puts result (queued self.old.first self.old.second self.old setup) self.old self.new }
    {
        match (self.first, self.second) {
            (None, _) => {
                self.first = Some(fresh(setup));
                Ok(())
            }
            (Some(_), None) => {
                self.second = Some(fresh(setup));
                Ok(())
            }
            (Some(_), Some(_)) => Err(FaultKind::SetupsFull),
        }
    }

    /// Takes a value written to the read setup register. `Setup` exactly where the value is
    /// refused, `SetupsFull` exactly where it is a VPM setup and two are unfinished; a refusal
    /// changes nothing.
    #[tactic(auto, unfolding(crate::specs::Setups::put_read))]
    pub fn put_read(&mut self, value: u32) -> Result<(), FaultKind>
        ensures { Puts result (put_read self.old value) self.old self.new }
    {
        match read_setup(value) {
            Ok(ReadSetup::Vectors) => self.queue(value),
            Ok(ReadSetup::Load) => {
                self.load = Some(value);
                Ok(())
            }
            Ok(ReadSetup::Pitch) => {
                self.load_pitch = bits(value, 0, 13);
                Ok(())
            }
            Err(fault) => Err(FaultKind::Setup(fault)),
        }
    }

    /// Takes a value written to the write setup register. `Setup` exactly where the value is
    /// refused; a refusal changes nothing.
    #[tactic(auto, unfolding(crate::specs::Setups::put_write))]
    pub fn put_write(&mut self, value: u32) -> Result<(), FaultKind>
        ensures { Puts result (put_write self.old value) self.old self.new }
    {
        match write_setup(value) {
            Ok(WriteSetup::Vectors) => {
                self.writes = Some(fresh(value));
                Ok(())
            }
            Ok(WriteSetup::Store) => {
                self.store = Some(value);
                Ok(())
            }
            Ok(WriteSetup::Stride) => {
                self.store_stride = bits(value, 0, 13);
                Ok(())
            }
            Err(fault) => Err(FaultKind::Setup(fault)),
        }
    }

    /// Takes the next access of the first read setup, which leaves the queue after its last
    /// vector; the setup comes with the count of vectors before it. `NoSetup` exactly where no
    /// read setup is left, and then nothing changes.
    #[tactic(auto, unfolding(crate::specs::Setups::take_vector))]
    pub fn take_vector(&mut self) -> Result<Vectors, FaultKind>
        requires { IsSoundBook self.old }
        ensures book { Puts result (take_vector self.old) self.old self.new }
        ensures access { IfOk result (λ vectors. self.old.first ≡ Some vectors) }
    {
        let Some(vectors) = self.first else {
            return Err(FaultKind::NoSetup);
        };
        let done = vectors.done + 1;
        if done == vector_count(vectors.setup) {
            self.first = self.second;
            self.second = None;
        } else {
            self.first = Some(Vectors { done, ..vectors });
        }
        Ok(vectors)
    }

    /// Takes the next access of the write setup, whose vectors are counted modulo 256; the setup
    /// comes with the count before it. `NoSetup` exactly where no write setup was given, and then
    /// nothing changes.
    #[tactic(auto, unfolding(crate::specs::Setups::put_vector))]
    pub fn put_vector(&mut self) -> Result<Vectors, FaultKind>
        requires { IsSoundBook self.old }
        ensures book { Puts result (put_vector self.old) self.old self.new }
        ensures access { IfOk result (λ vectors. self.old.writes ≡ Some vectors) }
    {
        let Some(vectors) = self.writes else {
            return Err(FaultKind::NoSetup);
        };
        self.writes = Some(Vectors {
            done: (vectors.done + 1) % VPM_PLACES,
            ..vectors
        });
        Ok(vectors)
    }

    /// The book after a value for the read setup register, where there is one.
    fn with_read_setup(self, value: Option<u32>) -> Result<Book, FaultKind>
        ensures { result ≡ after_read_setup value self }
    {
        let mut book = self;
        match value {
            None => Ok(book),
            Some(value) => match book.put_read(value) {
                Ok(()) => Ok(book),
                Err(kind) => Err(kind),
            },
        }
    }

    /// The book after a value for the write setup register, where there is one.
    fn with_write_setup(self, value: Option<u32>) -> Result<Book, FaultKind>
        ensures { result ≡ after_write_setup value self }
    {
        let mut book = self;
        match value {
            None => Ok(book),
            Some(value) => match book.put_write(value) {
                Ok(()) => Ok(book),
                Err(kind) => Err(kind),
            },
        }
    }

    /// The book after what an instruction sends to both setup registers, read setups first; or why
    /// a value is refused.
    #[tactic(auto, unfolding(crate::specs::Instruction::after_setups))]
    pub fn with_setups(self, outs: &Outs) -> Result<Book, FaultKind>
        ensures { result ≡ after_setups outs.now self }
    {
        match self.with_read_setup(outs.to_read_setup) {
            Ok(book) => book.with_write_setup(outs.to_write_setup),
            Err(kind) => Err(kind),
        }
    }

    /// The book after a new uniforms address, in bytes, where there is one.
    pub fn with_uniform_to(self, address: Option<u32>) -> Book
        ensures { result ≡ after_uniform_to address self }
    {
        match address {
            None => self,
            Some(uniform_at) => Book { uniform_at, ..self },
        }
    }
}
