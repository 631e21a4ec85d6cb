// The functions on words of the standard, on one word or on each of four.
ghost use Rattle.std.specs.Prelude.{◌≡◌, ◌<◌, map, bit_xor};
ghost use Rattle.sha256.specs.Words.{ch, maj, rotr, shr};

use std::simd::prelude::*;

// Three operations where the standard's form has four.
#[tactic(auto, using(crate::proofs::Forms::ch_is))]
pub(crate) fn choice(x: u32, y: u32, z: u32) -> u32
    ensures { result ≡ ch x y z }
{
    z ^ (x & (y ^ z))
}

// `x ^ y` is the next round's `y ^ z`, so the compiler can work it out once.
#[tactic(auto, using(crate::proofs::Forms::maj_is))]
pub(crate) fn majority(x: u32, y: u32, z: u32) -> u32
    ensures { result ≡ maj x y z }
{
    y ^ ((x ^ y) & (y ^ z))
}

// The standard's Σ0 and Σ1, by their three rotations.
pub(crate) fn big_sigma<const A: u32, const B: u32, const C: u32>(x: u32) -> u32
    requires { (0 < A) × (A < 32) × (0 < B) × (B < 32) × (0 < C) × (C < 32) }
    ensures { result ≡ bit_xor (bit_xor (rotr A x) (rotr B x)) (rotr C x) }
{
    x.rotate_right(A) ^ x.rotate_right(B) ^ x.rotate_right(C)
}

// Lanes have no rotation of their own.
fn rotated<const N: u32>(x: u32x4) -> u32x4
    requires { (0 < N) × (N < 32) }
    ensures { result ≡ map (rotr N) x }
{
    (x >> u32x4::splat(N)) | (x << u32x4::splat(32 - N))
}

// The standard's σ0 and σ1 in each lane, by their two rotations and their shift.
pub(crate) fn small_sigma<const A: u32, const B: u32, const C: u32>(x: u32x4) -> u32x4
    requires { (0 < A) × (A < 32) × (0 < B) × (B < 32) × (C < 32) }
    ensures { result ≡ map (λ w. bit_xor (bit_xor (rotr A w) (rotr B w)) (shr C w)) x }
{
    rotated::<A>(x) ^ rotated::<B>(x) ^ (x >> u32x4::splat(C))
}
