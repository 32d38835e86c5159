//! Names of registers.
ghost use Rattle.std.specs.Prelude.{◌≡◌};
ghost use Rattle.qpu_expr.specs.Registers.{is_row_number, is_numbered, is_text, is_source, is_target, is_register};

/// Whether digits are those of 0 to 31, with no leading zero.
fn is_row_number(digits: &[u8]) -> bool
    ensures { result ≡ is_row_number digits.now }
{
    match digits {
        [b'0'..=b'9'] | [b'1'..=b'2', b'0'..=b'9'] | [b'3', b'0'..=b'1'] => true,
        _ => false,
    }
}

/// Whether a name is that of an accumulator or of a row of a file.
#[tactic(auto, unfolding(crate::specs::Registers::is_numbered))]
fn is_numbered(word: &[u8]) -> bool
    ensures { result ≡ is_numbered word.now }
{
    match word {
        [b'r', b'0'..=b'5'] => true,
        [b'r', b'a' | b'b', digits @ ..] => is_row_number(digits),
        _ => false,
    }
}

pub(crate) fn is_text(word: &[u8], text: &[u8]) -> bool
    ensures { result ≡ is_text word.now text.now }
{
    word == text
}

/// Whether a name is read under an address above 31.
#[tactic(auto, unfolding(crate::specs::Registers::is_source))]
fn is_source(word: &[u8]) -> bool
    ensures { result ≡ is_source word.now }
{
    is_text(word, b"unif")
        || is_text(word, b"unifb")
        || is_text(word, b"elem_num")
        || is_text(word, b"qpu_num")
        || is_text(word, b"vpm")
        || is_text(word, b"vpmb")
        || is_text(word, b"vpm_ld_busy")
        || is_text(word, b"vpm_st_busy")
        || is_text(word, b"vpm_ld_wait")
        || is_text(word, b"vpm_st_wait")
        || is_text(word, b"mutex_acq")
        || is_text(word, b"mutex_acqb")
}

/// Whether a name is written under an address above 31.
#[tactic(auto, unfolding(crate::specs::Registers::is_target))]
fn is_target(word: &[u8]) -> bool
    ensures { result ≡ is_target word.now }
{
    is_text(word, b"r5quad")
        || is_text(word, b"r5rep")
        || is_text(word, b"host_int")
        || is_text(word, b"unif_addr")
        || is_text(word, b"vr_setup")
        || is_text(word, b"vw_setup")
        || is_text(word, b"vr_addr")
        || is_text(word, b"vw_addr")
        || is_text(word, b"mutex_rel")
        || is_text(word, b"t0s")
        || is_text(word, b"t1s")
}

/// Whether a name is that of a register.
#[tactic(auto, unfolding(crate::specs::Registers::is_register))]
pub(crate) fn is_register(word: &[u8]) -> bool
    ensures { result ≡ is_register word.now }
{
    is_numbered(word) || is_source(word) || is_target(word)
}
