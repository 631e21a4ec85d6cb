// One block into the hash value: 64 rounds over the message schedule.
ghost use Rattle.std.specs.Prelude.{◌≡◌, ℕ, ◌+◌, ◌%◌, ◌++◌};
ghost use Rattle.sha256.specs.Compression.{round, rounds, state_sum, compressed};
ghost use Rattle.sha256.specs.Schedule.{grown};
ghost use Rattle.sha256.specs.Windows.{window_words};

use crate::schedule::Window;
use crate::words::{big_sigma, choice, majority};
use std::simd::prelude::*;

// The eight working variables, or the eight words of a hash value.
#[derive(Clone, Copy)]
pub struct State {
    pub a: u32,
    pub b: u32,
    pub c: u32,
    pub d: u32,
    pub e: u32,
    pub f: u32,
    pub g: u32,
    pub h: u32,
}

// One round, given the constant and the word already added up.
fn one_round(s: State, kw: u32) -> State
    ensures { (k w : ℕ) → kw ≡ (w + k) % 4294967296 → result ≡ round s k w }
{
    let t1 = kw
        .wrapping_add(s.h)
        .wrapping_add(choice(s.e, s.f, s.g))
        .wrapping_add(big_sigma::<6, 11, 25>(s.e));
    let t2 = big_sigma::<2, 13, 22>(s.a).wrapping_add(majority(s.a, s.b, s.c));
    State {
        a: t1.wrapping_add(t2),
        b: s.a,
        c: s.b,
        d: s.c,
        e: s.d.wrapping_add(t1),
        f: s.e,
        g: s.f,
        h: s.g,
    }
}

#[tactic(auto, unfolding(crate::specs::Compression::state_sum))]
fn added(s: State, t: State) -> State
    ensures { result ≡ state_sum s t }
{
    State {
        a: s.a.wrapping_add(t.a),
        b: s.b.wrapping_add(t.b),
        c: s.c.wrapping_add(t.c),
        d: s.d.wrapping_add(t.d),
        e: s.e.wrapping_add(t.e),
        f: s.f.wrapping_add(t.f),
        g: s.g.wrapping_add(t.g),
        h: s.h.wrapping_add(t.h),
    }
}

const K: [u32; 64] = [
    0x428a2f98, 0x71374491, 0xb5c0fbcf, 0xe9b5dba5, 0x3956c25b, 0x59f111f1, 0x923f82a4, 0xab1c5ed5,
    0xd807aa98, 0x12835b01, 0x243185be, 0x550c7dc3, 0x72be5d74, 0x80deb1fe, 0x9bdc06a7, 0xc19bf174,
    0xe49b69c1, 0xefbe4786, 0x0fc19dc6, 0x240ca1cc, 0x2de92c6f, 0x4a7484aa, 0x5cb0a9dc, 0x76f988da,
    0x983e5152, 0xa831c66d, 0xb00327c8, 0xbf597fc7, 0xc6e00bf3, 0xd5a79147, 0x06ca6351, 0x14292967,
    0x27b70a85, 0x2e1b2138, 0x4d2c6dfc, 0x53380d13, 0x650a7354, 0x766a0abb, 0x81c2c92e, 0x92722c85,
    0xa2bfe8a1, 0xa81a664b, 0xc24b8b70, 0xc76c51a3, 0xd192e819, 0xd6990624, 0xf40e3585, 0x106aa070,
    0x19a4c116, 0x1e376c08, 0x2748774c, 0x34b0bcb5, 0x391c0cb3, 0x4ed8aa4a, 0x5b9cca4f, 0x682e6ff3,
    0x748f82ee, 0x78a5636f, 0x84c87814, 0x8cc70208, 0x90befffa, 0xa4506ceb, 0xbef9a3f7, 0xc67178f2,
];

// The working variables, and the sixteen words of the rounds to come.
#[derive(Clone, Copy)]
struct Progress {
    state: State,
    window: Window,
}

impl Progress {
    // Four rounds, with the first lane of the window. As a call it is slower: the compiler drops the words that come after
    // the last round only where it sees all calls at once.
    #[inline(always)]
    fn four_rounds(self, k: &[u32; 4]) -> Progress
        ensures state { result.state ≡ rounds self.state k.now self.window.x0 }
        ensures window { self.window.x0 ++ window_words result.window ≡ grown 4 (window_words self.window) }
    {
        let kw = (self.window.x0 + u32x4::from_array(*k)).to_array();
        let s0 = one_round(self.state, kw[0]);
        let s1 = one_round(s0, kw[1]);
        let s2 = one_round(s1, kw[2]);
        Progress {
            state: one_round(s2, kw[3]),
            window: self.window.four_on(),
        }
    }

    // Sixteen rounds, with all words of the window. Inlined for the same reason.
    #[inline(always)]
    fn quarter(self, k: &[u32; 16]) -> Progress
        ensures state { result.state ≡ rounds self.state k.now (window_words self.window) }
        ensures window { window_words self.window ++ window_words result.window ≡ grown 16 (window_words self.window) }
    {
        let (k, _) = k.as_chunks::<4>();
        self.four_rounds(&k[0])
            .four_rounds(&k[1])
            .four_rounds(&k[2])
            .four_rounds(&k[3])
    }
}

// The hash value after one block more. As a loop over K, four constants at a time, it is a tenth slower, since that works out
// the words after the last round too.
pub fn compress(s: State, block: &[u8; 64]) -> State
    ensures { result ≡ compressed s block.now }
{
    let start = Progress {
        state: s,
        window: Window::first(block),
    };
    let (k, _) = K.as_chunks::<16>();
    let end = start
        .quarter(&k[0])
        .quarter(&k[1])
        .quarter(&k[2])
        .quarter(&k[3]);
    added(s, end.state)
}
