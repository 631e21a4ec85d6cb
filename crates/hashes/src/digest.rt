// A path that was public before: what it held stands beside the struct now.
pub mod calls {}

ghost use Rattle.std.specs.Prelude.{◌≤◌};

// A digest of 1 to 32 bytes: the first `width` bytes of the array.
// A buffer and a length: a digest is copied and takes no heap, and a const length would stand in every type that holds one.
// No `Model`, by which `==` could be derived: a copy needs its fields back from what clauses see, so each unused byte would
// have to be proved 0.
#[derive(Clone, Copy)]
pub struct Digest {
    bytes: [u8; 32],
    width: usize,
    ghost some: { 1 ≤ width },
    ghost few: { width ≤ 32 },
}

impl Digest {
    ghost use Rattle.std.specs.Prelude.{◌≡◌, length, MatchOption};
    ghost use Rattle.hashes.specs.Digests.{DigestLength, digest_bytes};

    // The digest with these bytes; absent for no bytes and for more than 32. A `TryFrom` would be a second name
    // for it, and no plainer.
    pub fn new(bytes: &[u8]) -> Option<Digest>
        ensures { MatchOption result (DigestLength (length bytes.now) → ⊥) (λ d. DigestLength (length bytes.now) × (digest_bytes d ≡ bytes.now)) }
    {
        let width = bytes.len();
        if !(1..=32).contains(&width) {
            return None;
        }
        let mut full = [0; 32];
        full[..width].copy_from_slice(bytes);
        Some(Digest { bytes: full, width })
    }

    // The bytes that it stands for, 1 to 32 of them.
    pub fn as_bytes(&self) -> &[u8]
        ensures value { result.now ≡ digest_bytes self.now }
        ensures len { DigestLength (length result.now) }
    {
        &self.bytes[..self.width]
    }
}

// Two digests are equal when their bytes are. By hand: the unused bytes of the array do not count, and the edit
// `equal_to_itself` is planted in the body.
impl PartialEq for Digest {
    ghost use Rattle.std.specs.Prelude.{◌≡◌, Decides, nat_eq};
    ghost use Rattle.std.specs.Ordering.{on};
    ghost use Rattle.std.specs.Cmp.Lexicographic.{pointwise};
    ghost use Rattle.std.specs.Cmp.Rules.{comparing};
    ghost use Rattle.std.proofs.Common.{rules};
    ghost use Rattle.hashes.specs.Digests.{digest_bytes};

    ghost eq = { on digest_bytes (pointwise nat_eq) };

    ghost laws = { Prim.search (comparing, rules) };

    fn eq(&self, other: &Digest) -> bool
        ensures tests { result ≡ pointwise nat_eq (digest_bytes self.now) (digest_bytes other.now) }
        ensures equals { Decides result (digest_bytes self.now ≡ digest_bytes other.now) }
    {
        self.as_bytes() == other.as_bytes()
    }
}
