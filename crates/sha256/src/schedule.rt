// The message schedule, sixteen words at a time in four lanes of four.
ghost use Rattle.std.specs.Prelude.{◌≡◌, ◌++◌};
ghost use Rattle.sha256.specs.Schedule.{words, grown};
ghost use Rattle.sha256.specs.Windows.{window_words};

use crate::words::small_sigma;
use std::simd::prelude::*;

// Sixteen words of the message schedule in a row. Four fields and no array: a proof then knows that each has four words.
#[derive(Clone, Copy)]
pub struct Window {
    pub x0: u32x4,
    pub x1: u32x4,
    pub x2: u32x4,
    pub x3: u32x4,
}

// Four words, each with its highest byte first.
fn four_words(bytes: &[u8; 16]) -> u32x4
    ensures { result ≡ words bytes.now }
{
    let (parts, _) = bytes.as_chunks::<4>();
    u32x4::from_array([parts[0], parts[1], parts[2], parts[3]].map(u32::from_be_bytes))
}

impl Window {
    // The first sixteen words of a block's schedule: the block itself.
    pub fn first(block: &[u8; 64]) -> Window
        ensures { window_words result ≡ words block.now }
    {
        let (lanes, _) = block.as_chunks::<16>();
        Window {
            x0: four_words(&lanes[0]),
            x1: four_words(&lanes[1]),
            x2: four_words(&lanes[2]),
            x3: four_words(&lanes[3]),
        }
    }

    // The four words after these sixteen. The last two of them need the first two.
    fn next_four(self) -> u32x4
        ensures { window_words self ++ result ≡ grown 4 (window_words self) }
    {
        let zero = u32x4::splat(0);
        let a = small_sigma::<7, 18, 3>(self.x0.shuffle(self.x1, [1, 2, 3, 4]));
        let y = self.x0 + a + self.x2.shuffle(self.x3, [1, 2, 3, 4]);
        let b = small_sigma::<17, 19, 10>(self.x3.shuffle(zero, [2, 3, 4, 4]));
        let low = y + b;
        let c = small_sigma::<17, 19, 10>(low.shuffle(zero, [4, 4, 0, 1]));
        low + c
    }

    // The window four words on.
    pub fn four_on(self) -> Window
        ensures { self.x0 ++ window_words result ≡ grown 4 (window_words self) }
    {
        Window {
            x0: self.x1,
            x1: self.x2,
            x2: self.x3,
            x3: self.next_four(),
        }
    }
}
