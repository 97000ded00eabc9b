//! A program of functions.

ghost use Rattle.std.specs.Prelude.{◌≡◌, ◌<◌, ◌≤◌, IfOk};
ghost use Rattle.case_maker.specs.Cases.{case_text, target_of};

use crate::function::function_text;
use faults::Memory;
use std::alloc::Global;

/// The multiplier of the linear congruential generator of MMIX (Knuth).
const MULTIPLIER: u64 = 6_364_136_223_846_793_005;
/// Its increment.
const INCREMENT: u64 = 1_442_695_040_888_963_407;

/// The program of this number with so many functions, some 131 bytes each. It takes time in
/// proportion to them.
#[tactic(auto, using(crate::proofs::Joined::one_more), unfolding(crate::specs::Cases::case_text))]
pub fn make_case(alloc: Global, number: u32, size: u32) -> Result<Vec<u8>, Memory>
    requires least { 1 ≤ size }
    requires most { size ≤ 1500 }
    ensures { IfOk result (λ text. text.items ≡ case_text number size) }
{
    let target = target_of(number, size);
    let mut text = String::new(alloc);
    for index in 0..size {
        let function = function_text(alloc, index, index == target)?;
        text.push_str(function.as_str())?;
    }
    Ok(text.into_bytes())
}

/// The number of the function that has the target line.
fn target_of(number: u32, size: u32) -> u32
    requires { 1 ≤ size }
    ensures target { result ≡ target_of number size }
    ensures within { result < size }
{
    let scrambled = u64::from(number)
        .wrapping_mul(MULTIPLIER)
        .wrapping_add(INCREMENT);
    ((scrambled >> 33) % u64::from(size)) as u32
}
