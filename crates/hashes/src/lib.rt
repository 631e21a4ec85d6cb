// Running hashes: what one is, the digests they give, and FNV-1a.

#![tactic(auto)]

pub mod digest;
pub mod fnv;

ghost use Rattle.std.specs.Prelude.{◌≡◌, ℕ, ◌≤◌, List, [], map, length};
ghost use Rattle.std.specs.List.{concat};
ghost use Rattle.hashes.specs.Digests.{digest_bytes};
ghost use Rattle.hashes.specs.Running.{after};

use digest::Digest;

// A hash that takes its string piece by piece. What a running hash means is the digest that it will give
// for each list of bytes still to come. It is `Copy`, so that one can be set aside and gone on with later.
pub trait RunningHash: Copy {
    // how many bytes a digest has
    ghost width: { ℕ };

    // the digest of a whole string: what a fresh hash means
    ghost start: { List ℕ → List ℕ };

    // the digest for each list of bytes still to come
    ghost meaning: { Self → List ℕ → List ℕ };

    // How many bytes every digest has.
    fn digest_len() -> usize
        ensures { result ≡ width };

    // A hash that has taken nothing: the same meaning each time.
    fn fresh() -> Self
        ensures { meaning result ≡ start };

    // Takes some bytes more: from now on a rest gives what these bytes and that rest gave before.
    fn absorb(&mut self, bytes: &[u8])
        ensures { meaning self.new ≡ after bytes.now (meaning self.old) };

    // The digest for no more bytes. The hash stays as it is.
    fn digest(&self) -> Digest
        ensures { digest_bytes result ≡ meaning self.now [] };

    // a digest has 1 to 32 bytes
    ghost some: { 1 ≤ width };

    ghost few: { width ≤ 32 };

    // every digest of a hash has `width` bytes
    ghost long: { (h : Self) (rest : List ℕ) → length (meaning h rest) ≡ width };

    ghost begun: { (whole : List ℕ) → length (start whole) ≡ width };
}

// The digest of a string that is handed over in pieces, however it is cut.
pub fn digest_of_pieces<H: RunningHash>(pieces: &[&[u8]]) -> Digest
    ensures { digest_bytes result ≡ H.RunningHash.start (concat (map (λ x. x.now) pieces.now)) }
{
    let mut hash = H::fresh();
    for piece in pieces {
        hash.absorb(piece);
    }
    hash.digest()
}

// The digest of a string, taken in one piece.
pub fn digest_of<H: RunningHash>(bytes: &[u8]) -> Digest
    ensures { digest_bytes result ≡ H.RunningHash.start bytes.now }
{
    digest_of_pieces::<H>(&[bytes])
}
