//! The fields of a setup.
ghost use Rattle.std.specs.Prelude.{◌≡◌, ◌<◌, ◌≤◌, ◌^◌, ℕ};
ghost use Rattle.qpu_word.specs.Words.{field};
ghost use Rattle.qpu_word.specs.Setups.{counted};

/// Bits `low` to `low + count - 1` of a setup.
pub(crate) fn bits(value: u32, low: u32, count: u32) -> u32
    requires low { low < 32 }
    requires count { count < 32 }
    ensures field { result ≡ field value low count }
    ensures below { result < 2 ^ count }
{
    (value >> low) % (1 << count)
}

/// Such a field in which 0 stands for the number above its range.
pub(crate) fn counted_bits(value: u32, low: u32, count: u32) -> u32
    requires low { low < 32 }
    requires count { count < 32 }
    ensures field { result ≡ counted (field value low count) (2 ^ count) }
    ensures some { 1 ≤ result }
    ensures most { result ≤ 2 ^ count }
{
    let n = bits(value, low, count);
    if n == 0 { 1 << count } else { n }
}
