//! Where fields stand in the halves of a word, and how many values they have (Guide, "QPU
//! Instruction Encoding"). A place is told by the number that has its lowest bit alone.

/// Fields in the upper half.
pub const SIGNAL: u32 = 1 << 28;

pub const UNPACK: u32 = 1 << 25;

pub const KIND: u32 = 1 << 25;

pub const PACKER: u32 = 1 << 24;

pub const PACK: u32 = 1 << 20;

pub const ADD_CONDITION: u32 = 1 << 17;

pub const MUL_CONDITION: u32 = 1 << 14;

pub const SETS: u32 = 1 << 13;

pub const EXCHANGE: u32 = 1 << 12;

pub const ADD_ADDRESS: u32 = 1 << 6;

pub const MUL_ADDRESS: u32 = 1;

/// Fields of branches alone, in the upper half.
pub const BRANCH_CONDITION: u32 = 1 << 20;

pub const RELATIVE: u32 = 1 << 19;

pub const REGISTER: u32 = 1 << 18;

pub const ROW: u32 = 1 << 13;

/// Fields in the lower half of a word in which both units compute.
pub const MUL_OPERATION: u32 = 1 << 29;

pub const ADD_OPERATION: u32 = 1 << 24;

pub const READ_A: u32 = 1 << 18;

pub const READ_B: u32 = 1 << 12;

pub const ADD_FIRST: u32 = 1 << 9;

pub const ADD_SECOND: u32 = 1 << 6;

pub const MUL_FIRST: u32 = 1 << 3;

pub const MUL_SECOND: u32 = 1;

/// How many values fields have.
pub const SIGNALS: u32 = 16;

pub const UNPACKS: u32 = 8;

pub const KINDS: u32 = 8;

pub const PACKS: u32 = 16;

pub const CONDITIONS: u32 = 8;

pub const ADDRESSES: u32 = 64;

pub const MUL_CODES: u32 = 8;

pub const ADD_CODES: u32 = 32;

pub const MUXES: u32 = 8;

pub const BRANCH_CONDITIONS: u32 = 16;

pub const BRANCH_ROWS: u32 = 32;

/// Of a field that is one bit.
pub const FLAGS: u32 = 2;
