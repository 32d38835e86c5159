//! The numbers of the manual's tables (Guide, "QPU Instruction Encoding" and "QPU Register Address
//! Map"), under their names.

/// Signals of the profile, bits 63:60.
pub const SIGNAL_NONE: u32 = 1;

pub const SIGNAL_PROGRAM_END: u32 = 3;

pub const SIGNAL_LOAD_TMU0: u32 = 10;

pub const SIGNAL_LOAD_TMU1: u32 = 11;

pub const SIGNAL_SMALL_IMMEDIATE: u32 = 13;

pub const SIGNAL_LOAD_IMMEDIATE: u32 = 14;

pub const SIGNAL_BRANCH: u32 = 15;

/// Kinds of words with the load immediate signal, bits 59:57.
pub const KIND_LOAD: u32 = 0;

pub const KIND_LOAD_SIGNED: u32 = 1;

pub const KIND_LOAD_UNSIGNED: u32 = 3;

pub const KIND_SEMAPHORE: u32 = 4;

/// Muxes that aren't accumulators.
pub const MUX_FILE_A: u32 = 6;

pub const MUX_FILE_B: u32 = 7;

/// How many rows a file has; the addresses below it are rows.
pub const ROWS: u32 = 32;

/// How many accumulators there are, r0 to r5.
pub const ACCUMULATORS: u32 = 6;

/// The address of both directions that reads and writes nothing.
pub const NOWHERE: u32 = 39;

/// Read addresses past the rows.
pub const READ_UNIFORM: u32 = 32;

pub const READ_NUMBER: u32 = 38;

pub const READ_VPM: u32 = 48;

pub const READ_DMA_BUSY: u32 = 49;

pub const READ_DMA_WAIT: u32 = 50;

pub const READ_MUTEX: u32 = 51;

/// Write addresses past the rows; r0 to r3 are 32 to 35.
pub const WRITE_R0: u32 = 32;

pub const WRITE_R3: u32 = 35;

pub const WRITE_R5: u32 = 37;

pub const WRITE_HOST_INT: u32 = 38;

pub const WRITE_UNIFORMS_ADDRESS: u32 = 40;

pub const WRITE_VPM: u32 = 48;

pub const WRITE_VPM_SETUP: u32 = 49;

pub const WRITE_DMA_ADDRESS: u32 = 50;

pub const WRITE_MUTEX: u32 = 51;

pub const WRITE_TMU0_S: u32 = 56;

pub const WRITE_TMU1_S: u32 = 60;

/// Codes of small immediates from this one on rotate; this one by r5, the others by their distance
/// from it.
pub const ROTATE_BY_R5: u32 = 48;

/// Slots that execute after a branch, and after program end.
pub const BRANCH_SLOTS: u32 = 3;

pub const END_SLOTS: u32 = 2;

/// The condition of a write that takes place in every lane, and that of a branch that is always taken.
pub const COND_ALWAYS: u32 = 1;

pub const BRANCH_ALWAYS: u32 = 15;

/// Bytes of an instruction word, and of a word of memory or of the VPM.
pub const INSTRUCTION_BYTES: u32 = 8;

pub const WORD_BYTES: u32 = 4;

/// TMU units of a processor, and the look-ups that one may have outstanding.
pub const TMU_UNITS: u32 = 2;

pub const LOOK_UPS: u32 = 4;

/// Rows of the VPM, and words of a row.
pub const VPM_ROWS: u32 = 64;

pub const VPM_COLUMNS: u32 = 16;

/// Places of vectors of 8 bits in the VPM: four in each row.
pub const VPM_PLACES: u32 = 256;

/// Bytes of the VPM, and of one of its rows.
pub const VPM_BYTES: u32 = 4096;

pub const VPM_ROW_BYTES: u32 = 64;

/// Words of the largest memory.
pub const MEMORY_WORDS: u32 = 1_048_576;

/// Processors of the machine, and its semaphores with the highest count of one.
pub const PROCESSORS: u32 = 12;

pub const SEMAPHORES: u32 = 16;

pub const SEMAPHORE_MOST: u32 = 15;

/// Words of the longest program.
pub const PROGRAM_WORDS: u32 = 4096;

/// The highest limit of instructions of a processor.
pub const LIMIT_MOST: u32 = 1_000_000;
