ghost use Rattle.std.specs.Prelude.{◌≡◌, ◌<◌};
ghost use Rattle.qpu_word.specs.Writing.{rotated};

use qpu_word::Lanes;
use std::simd::prelude::*;

/// Sixteen lanes rotated by n, n below 16; the number is chosen once for all lanes.
fn turned(lanes: u32x16, n: u32) -> u32x16
    requires { n < 16 }
    ensures { result ≡ rotated n lanes }
{
    match n {
        0 => lanes,
        1 => lanes.rotate_elements_right::<1>(),
        2 => lanes.rotate_elements_right::<2>(),
        3 => lanes.rotate_elements_right::<3>(),
        4 => lanes.rotate_elements_right::<4>(),
        5 => lanes.rotate_elements_right::<5>(),
        6 => lanes.rotate_elements_right::<6>(),
        7 => lanes.rotate_elements_right::<7>(),
        8 => lanes.rotate_elements_right::<8>(),
        9 => lanes.rotate_elements_right::<9>(),
        10 => lanes.rotate_elements_right::<10>(),
        11 => lanes.rotate_elements_right::<11>(),
        12 => lanes.rotate_elements_right::<12>(),
        13 => lanes.rotate_elements_right::<13>(),
        14 => lanes.rotate_elements_right::<14>(),
        _ => lanes.rotate_elements_right::<15>(),
    }
}

/// A value rotated by n lanes, n below 16: lane i of it goes to lane (i + n) mod 16.
pub fn rotate(value: &Lanes, n: u32) -> Lanes
    requires { n < 16 }
    ensures { result.v ≡ rotated n value.now.v }
{
    let v = turned(value.vector(), n).to_array();
    Lanes { v }
}
