// Letters merged many at a time, without a branch.
ghost use Rattle.std.specs.Prelude.{◌≡◌};
ghost use Rattle.std.specs.Simd.Lanes.{zip2};
ghost use Rattle.coding.specs.Parity.{decode_letter};
ghost use Rattle.store.specs.Page.{merge};

use coding::parity::FIRST_LETTER;
use std::simd::prelude::*;

// The lower seven bits of a byte.
const SEVEN: u8 = 127;

// Its highest bit.
const HIGHEST: u8 = 128;

// The letters of N bytes that came over what was there: the parity of each byte is folded into its highest bit.
#[tactic(auto, using(std::proofs::lemmas::Simd::shifts_fit_splat))]
pub(crate) fn merged<const N: usize>(came: Simd<u8, N>, old: Simd<u8, N>) -> Simd<u8, N>
    ensures { result ≡ zip2 (λ x y. merge (decode_letter x) y) came.entry old.entry }
{
    let nibbles = came ^ (came << Simd::splat(4));
    let pairs = nibbles ^ (nibbles << Simd::splat(2));
    let parity = pairs ^ (pairs << Simd::splat(1));
    let seven = came & Simd::splat(SEVEN);
    let letter = parity.simd_ge(Simd::splat(HIGHEST)) & seven.simd_ge(Simd::splat(FIRST_LETTER));
    letter.select(seven, old)
}
