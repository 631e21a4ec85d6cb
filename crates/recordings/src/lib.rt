// How the bytes of a library are cut into recordings: every 4,096 bytes, and what is left over is the last one.

#![tactic(auto)]

ghost use Rattle.std.specs.Prelude.{◌≡◌, ◌+◌, ◌/◌, ◌<◌, ◌≤◌, [], length, MatchOption, slice_index_or};
ghost use Rattle.std.specs.Iterator.{AlwaysYields};
ghost use Rattle.std.specs.Slice.Iter.{chunks_rest, chunks_size, chunks_steps};
ghost use Rattle.recordings.specs.Recordings.{recordings, OnlyCut};

use std::slice::Chunks;

// How many bytes a recording has, the last one excepted.
const SIZE: usize = 4096;

// The recordings in order, each as a part of the library.
#[tactic(auto, using(crate::proofs::Cuts::yields_recordings))]
pub fn all(library: &[u8]) -> Chunks<'_, u8>
    ensures yields { AlwaysYields chunks_steps (λ piece. piece.now) result (recordings library.now) }
    ensures rest { chunks_rest result ≡ library.now }
    ensures size { chunks_size result ≡ 4096 }
{
    library.chunks(SIZE)
}

// How many recordings the library has; an empty library has none.
pub fn count(library: &[u8]) -> usize
    ensures number { result ≡ length (recordings library.now) }
    ensures by_length { result ≡ (length library.now + 4095) / 4096 }
    ensures cut { OnlyCut library.now (recordings library.now) }
{
    library.len().div_ceil(SIZE)
}

// The recording of this number, from 0, as a part of the library; none from the count on.
pub fn recording(library: &[u8], number: usize) -> Option<&[u8]>
    ensures value { MatchOption result (length (recordings library.now) ≤ number) (λ piece. (number < length (recordings library.now)) × (piece.now ≡ slice_index_or (recordings library.now) number [])) }
    ensures cut { OnlyCut library.now (recordings library.now) }
{
    let rest = library.get(number.checked_mul(SIZE)?..)?;
    all(rest).next()
}
