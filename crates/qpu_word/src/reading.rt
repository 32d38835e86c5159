//! What a word's units read, and where read addresses past the rows act.
ghost use Rattle.std.specs.Prelude.{◌≡◌, ◌<◌};
ghost use Rattle.qpu_word.specs.Words.{is_tmu_load, is_unary, add_uses, mul_uses, uses, reads, reads_a, reads_b};

use crate::code::SIGNAL_LOAD_TMU0;
use crate::word::Fields;

/// The codes of not and clz, which don't use the add unit's second operand.
const NOT: u32 = 23;

const CLZ: u32 = 24;

impl Fields {
    /// Whether it is a TMU load of a unit, 0 or 1.
    pub fn is_tmu_load(&self, unit: u32) -> bool
        requires { unit < 2 }
        ensures { result ≡ is_tmu_load self.now unit }
    {
        self.sig == SIGNAL_LOAD_TMU0 + unit
    }

    /// Whether the add unit's operation doesn't use its second operand.
    pub(crate) fn is_unary(&self) -> bool
        ensures { result ≡ is_unary self.now.op_add }
    {
        self.op_add == NOT || self.op_add == CLZ
    }

    /// Whether an active add unit uses a mux.
    pub fn add_uses(&self, mux: u32) -> bool
        ensures { result ≡ add_uses self.now mux }
    {
        self.add_active() && (self.add_a == mux || (!self.is_unary() && self.add_b == mux))
    }

    /// Whether an active mul unit uses a mux.
    pub fn mul_uses(&self, mux: u32) -> bool
        ensures { result ≡ mul_uses self.now mux }
    {
        self.mul_active() && (self.mul_a == mux || self.mul_b == mux)
    }

    /// Whether an active unit uses a mux.
    pub fn uses(&self, mux: u32) -> bool
        ensures { result ≡ uses self.now mux }
    {
        self.add_uses(mux) || self.mul_uses(mux)
    }

    /// Whether a read address past the rows stands in the field of file A; it acts whether or not
    /// a unit uses it.
    pub fn reads_a(&self, address: u32) -> bool
        ensures { result ≡ reads_a self.now address }
    {
        self.is_unit_word() && self.raddr_a == address
    }

    /// The same of file B, whose field is no address in a small immediate word.
    pub fn reads_b(&self, address: u32) -> bool
        ensures { result ≡ reads_b self.now address }
    {
        self.is_alu() && self.raddr_b == address
    }

    /// Whether a read address past the rows stands in the field of either file.
    pub fn reads(&self, address: u32) -> bool
        ensures { result ≡ reads self.now address }
    {
        self.reads_a(address) || self.reads_b(address)
    }
}
