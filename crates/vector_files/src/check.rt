// Checking one vector: its message is hashed twice, in one piece and in many.
ghost use Rattle.std.specs.Prelude.{◌≡◌, IfErr};
ghost use Rattle.hashes.specs.Digests.{digest_bytes};
ghost use Rattle.vector_files.specs.Checks.{BothAre, Expanded, Tells, CheckedVector};
ghost use Rattle.vector_files.specs.Vectors.{GoodVector, hashed};

use crate::fields::read_digest;
use crate::vector::{Fault, HashName, Message, Vector};
use hashes::digest::Digest;
use hashes::fnv::Fnv1a64;
use hashes::{RunningHash, digest_of};
use sha256::running::Sha256;
use texts::hex::{decode_hex, is_hex};

// Whether the digest found is the expected one.
#[derive(Clone, Copy, PartialEq, Eq, Debug)]
pub enum Outcome {
    Agrees,
    Differs,
}

// What was found of a vector: how long its message is, the digest of it, and whether that is the expected one.
#[derive(Clone, Copy)]
pub struct Report {
    pub length: usize,
    pub digest: Digest,
    pub outcome: Outcome,
}

// Puts the bytes that a message stands for at the front of a buffer, and answers how many they are. Two arms test the length:
// over `get_mut` and `?`, which was tried, the proof of what becomes of the buffer did not close.
pub fn expand(message: Message, buffer: &mut [u8]) -> Result<usize, Fault>
    ensures { Expanded message.entry buffer.old buffer.new result }
{
    match message {
        Message::Text(bytes) => {
            if bytes.len() > buffer.len() {
                return Err(Fault::TooLong);
            }
            buffer[0..bytes.len()].copy_from_slice(bytes);
            Ok(bytes.len())
        }
        Message::Hex(digits) => {
            if !is_hex(digits) {
                return Err(Fault::Message);
            }
            decode_hex(digits, buffer).ok_or(Fault::TooLong)
        }
        Message::Repeat { byte, count } => {
            if count > buffer.len() {
                return Err(Fault::TooLong);
            }
            buffer[0..count].fill(byte);
            Ok(count)
        }
    }
}

// The digest of a string, taken in pieces of one byte, two bytes, three and so on: where a piece ends makes no difference.
pub fn digest_in_pieces<H: RunningHash>(bytes: &[u8]) -> Digest
    ensures { digest_bytes result ≡ H.RunningHash.start bytes.now }
{
    let mut hash = H::fresh();
    let mut rest = bytes;
    for size in 1..bytes.len() {
        if size >= rest.len() {
            break;
        }
        let (piece, behind) = rest.split_at(size);
        hash.absorb(piece);
        rest = behind;
    }
    hash.absorb(rest);
    hash.digest()
}

// The digest of a string in one piece, and in pieces.
#[derive(Clone, Copy)]
struct Digests {
    whole: Digest,
    in_pieces: Digest,
}

impl Digests {
    fn of<H: RunningHash>(bytes: &[u8]) -> Digests
        ensures { BothAre (H.RunningHash.start bytes.now) result }
    {
        Digests {
            whole: digest_of::<H>(bytes),
            in_pieces: digest_in_pieces::<H>(bytes),
        }
    }

    // Both have to be the expected one.
    fn compare(&self, expected: Digest) -> Outcome
        ensures { Tells result (BothAre (digest_bytes expected) self.now) }
    {
        if self.whole == expected && self.in_pieces == expected {
            Outcome::Agrees
        } else {
            Outcome::Differs
        }
    }
}

impl HashName {
    // A `match` by name, since a hash is a type here, and no value to call: no plainer otherwise.
    fn digests(self, bytes: &[u8]) -> Digests
        ensures { BothAre (hashed self bytes.now) result }
    {
        match self {
            HashName::Fnv1a64 => Digests::of::<Fnv1a64>(bytes),
            HashName::Sha256 => Digests::of::<Sha256>(bytes),
        }
    }
}

// Checks a vector, with a buffer for its message: it agrees exactly when both digests are the expected one. All that
// can be wrong with a good vector is that its message is longer than the buffer.
pub fn check(vector: Vector, buffer: &mut [u8]) -> Result<Report, Fault>
    ensures checks { CheckedVector vector.entry buffer.old buffer.new result }
    ensures good { GoodVector vector.entry → IfErr result (λ f. f ≡ Fault.TooLong) }
{
    let expected = read_digest(vector.hash, vector.expected)?;
    let length = expand(vector.message, buffer)?;
    let digests = vector.hash.digests(&buffer[0..length]);
    Ok(Report {
        length,
        digest: digests.whole,
        outcome: digests.compare(expected),
    })
}
