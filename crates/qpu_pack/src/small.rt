ghost use Rattle.std.specs.Prelude.{◌≡◌, ◌≢◌, ℕ, ◌<◌, IfSome, IfNone};
ghost use Rattle.qpu_word.specs.Operands.{small_value, immediate_of};

use qpu_word::code::ROTATE_BY_R5;

/// The codes from which on the values are -16 to -1, 1.0 to 128.0, and 1/256 to 1/2.
const NEGATIVE: u32 = 16;

const POWERS: u32 = 32;

const FRACTIONS: u32 = 40;

/// -16, 1.0 and 1/256 as words, and the step from one power of two to the next.
const MINUS_16: u32 = 0xffff_fff0;

const ONE: u32 = 0x3f80_0000;

const ONE_256TH: u32 = 0x3b80_0000;

const DOUBLED: u32 = 0x0080_0000;

/// The value of a small immediate's code, below 48.
#[tactic(auto, unfolding(qpu_word::specs::Operands::small_value))]
fn small_value(code: u32) -> u32
    requires { code < 48 }
    ensures { result ≡ small_value code }
{
    if code < NEGATIVE {
        code
    } else if code < POWERS {
        MINUS_16 + (code - NEGATIVE)
    } else if code < FRACTIONS {
        ONE + (code - POWERS) * DOUBLED
    } else {
        ONE_256TH + (code - FRACTIONS) * DOUBLED
    }
}

/// The immediate of a small immediate word's code, 0 for a code that rotates.
pub fn immediate_of(code: u32) -> u32
    ensures { result ≡ immediate_of code }
{
    if code < ROTATE_BY_R5 {
        small_value(code)
    } else {
        0
    }
}

/// The code of a small immediate with this value; none exactly where no code has it.
pub fn small_code(value: u32) -> Option<u32>
    ensures found { IfSome result (λ code. (code < 48) × (small_value code ≡ value)) }
    ensures none { IfNone result ((code : ℕ) → code < 48 → small_value code ≢ value) }
{
    for code in 0..ROTATE_BY_R5 {
        if small_value(code) == value {
            return Some(code);
        }
    }
    None
}
