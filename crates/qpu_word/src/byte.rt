//! Four bytes of a number, from the low one on.
ghost use Rattle.std.specs.Prelude.{◌≡◌, ◌+◌, ◌*◌, ◌^◌, ◌<◌};
ghost use Rattle.qpu_word.specs.Operations.{byte};

/// Byte k of a number.
pub fn byte_of(n: u32, k: u32) -> u32
    requires { k < 4 }
    ensures value { result ≡ byte n k }
    ensures below { result < 256 }
{
    (n >> (8 * k)) & 255
}

/// The number of four bytes.
pub fn number_of(b0: u32, b1: u32, b2: u32, b3: u32) -> u32
    requires b0 { b0 < 256 }
    requires b1 { b1 < 256 }
    requires b2 { b2 < 256 }
    requires b3 { b3 < 256 }
    ensures { result ≡ b0 + 2 ^ 8 * b1 + 2 ^ 16 * b2 + 2 ^ 24 * b3 }
{
    b0 + (b1 << 8) + (b2 << 16) + (b3 << 24)
}
