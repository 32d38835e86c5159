ghost use Rattle.std.specs.Prelude.{◌≡◌};
ghost use Rattle.qpu_word.specs.Operations.{add_op, mul_op};

/// The operations of the add unit other than nop (Guide, "QPU Instruction Encoding", Op Add).
#[derive(Clone, Copy, Debug, PartialEq, Eq)]
pub enum AddOp {
    Add,
    Sub,
    Shr,
    Asr,
    Ror,
    Shl,
    Min,
    Max,
    And,
    Or,
    Xor,
    Not,
    Clz,
    V8adds,
    V8subs,
}

/// The operations of the mul unit other than nop (Guide, "QPU Instruction Encoding", Op Mul).
#[derive(Clone, Copy, Debug, PartialEq, Eq)]
pub enum MulOp {
    Mul24,
    V8muld,
    V8min,
    V8max,
    V8adds,
    V8subs,
}

impl AddOp {
    /// The operation of a code, bits 28:24 of a word; none for nop and outside the profile.
    #[tactic(auto, unfolding(crate::specs::Operations::add_op))]
    pub fn of(code: u32) -> Option<AddOp>
        ensures { result ≡ add_op code }
    {
        match code {
            12 => Some(AddOp::Add),
            13 => Some(AddOp::Sub),
            14 => Some(AddOp::Shr),
            15 => Some(AddOp::Asr),
            16 => Some(AddOp::Ror),
            17 => Some(AddOp::Shl),
            18 => Some(AddOp::Min),
            19 => Some(AddOp::Max),
            20 => Some(AddOp::And),
            21 => Some(AddOp::Or),
            22 => Some(AddOp::Xor),
            23 => Some(AddOp::Not),
            24 => Some(AddOp::Clz),
            30 => Some(AddOp::V8adds),
            31 => Some(AddOp::V8subs),
            _ => None,
        }
    }
}

impl MulOp {
    /// The operation of a code, bits 31:29 of a word; none for nop and outside the profile.
    #[tactic(auto, unfolding(crate::specs::Operations::mul_op))]
    pub fn of(code: u32) -> Option<MulOp>
        ensures { result ≡ mul_op code }
    {
        match code {
            2 => Some(MulOp::Mul24),
            3 => Some(MulOp::V8muld),
            4 => Some(MulOp::V8min),
            5 => Some(MulOp::V8max),
            6 => Some(MulOp::V8adds),
            7 => Some(MulOp::V8subs),
            _ => None,
        }
    }
}
