ghost use Rattle.std.specs.Prelude.{◌≡◌, ◌<◌, ◌≤◌};
ghost use Rattle.qpu_word.specs.Words.{field, fields_of};

/// An instruction word of 64 bits.
#[derive(Clone, Copy, Debug, PartialEq, Eq)]
pub struct Word(pub u64);

/// The bit fields of a word, whatever its form (Guide, "QPU Instruction Encoding"). Fields of
/// other forms overlap; each form reads its own.
#[derive(Clone, Copy, Debug, PartialEq, Eq)]
pub struct Fields {
    /// Signal, bits 63:60.
    pub sig: u32,
    /// Unpacking of the file A value, bits 59:57.
    pub unpack: u32,
    /// Whether packing is of the mul unit and r4, bit 56.
    pub pm: u32,
    /// Packing of the value for file A, bits 55:52.
    pub pack: u32,
    /// Write condition of the add unit, bits 51:49.
    pub cond_add: u32,
    /// Write condition of the mul unit, bits 48:46.
    pub cond_mul: u32,
    /// Whether flags are set, bit 45.
    pub sf: u32,
    /// Whether the units' files are exchanged, bit 44.
    pub ws: u32,
    /// Write address of the add unit, bits 43:38.
    pub waddr_add: u32,
    /// Write address of the mul unit, bits 37:32.
    pub waddr_mul: u32,
    /// Operation of the mul unit, bits 31:29.
    pub op_mul: u32,
    /// Operation of the add unit, bits 28:24.
    pub op_add: u32,
    /// Read address of file A, bits 23:18.
    pub raddr_a: u32,
    /// Read address of file B, or a small immediate's code, bits 17:12.
    pub raddr_b: u32,
    /// Mux of the add unit's first operand, bits 11:9.
    pub add_a: u32,
    /// Mux of the add unit's second operand, bits 8:6.
    pub add_b: u32,
    /// Mux of the mul unit's first operand, bits 5:3.
    pub mul_a: u32,
    /// Mux of the mul unit's second operand, bits 2:0.
    pub mul_b: u32,
    /// Kind of a load immediate or semaphore word, bits 59:57.
    pub kind: u32,
    /// Immediate of a load or branch, bits 31:0.
    pub immediate: u32,
    /// Whether a semaphore word decrements, bit 4.
    pub down: u32,
    /// Number of a semaphore, bits 3:0.
    pub number: u32,
    /// Condition of a branch, bits 55:52.
    pub cond_br: u32,
    /// Whether a branch is relative to the address after its slots, bit 51.
    pub rel: u32,
    /// Whether a branch adds a row of file A, bit 50.
    pub reg: u32,
    /// The row of file A that a branch adds, bits 49:45.
    pub raddr_br: u32,
}

impl Word {
    /// Bits `low` to `low + count - 1`.
    fn bits(self, low: u32, count: u32) -> u32
        requires low { low < 64 }
        requires count { count ≤ 32 }
        ensures { result ≡ field self.0 low count }
    {
        ((self.0 >> low) % (1 << count)) as u32
    }

    /// The bit fields.
    pub fn fields(self) -> Fields
        ensures { result ≡ fields_of self.0 }
    {
        Fields {
            sig: self.bits(60, 4),
            unpack: self.bits(57, 3),
            pm: self.bits(56, 1),
            pack: self.bits(52, 4),
            cond_add: self.bits(49, 3),
            cond_mul: self.bits(46, 3),
            sf: self.bits(45, 1),
            ws: self.bits(44, 1),
            waddr_add: self.bits(38, 6),
            waddr_mul: self.bits(32, 6),
            op_mul: self.bits(29, 3),
            op_add: self.bits(24, 5),
            raddr_a: self.bits(18, 6),
            raddr_b: self.bits(12, 6),
            add_a: self.bits(9, 3),
            add_b: self.bits(6, 3),
            mul_a: self.bits(3, 3),
            mul_b: self.bits(0, 3),
            kind: self.bits(57, 3),
            immediate: self.bits(0, 32),
            down: self.bits(4, 1),
            number: self.bits(0, 4),
            cond_br: self.bits(52, 4),
            rel: self.bits(51, 1),
            reg: self.bits(50, 1),
            raddr_br: self.bits(45, 5),
        }
    }
}
