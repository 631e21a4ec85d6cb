// Digests and running hashes on examples, and a hash that is implemented outside the crate of the trait.

#![tactic(auto)]

ghost use Rattle.std.specs.Prelude.{[], ◌∷◌};
ghost use Rattle.std.proofs.Common.{rules};

#[cfg(test)]
mod tests {
    use hashes::digest::Digest;
    use hashes::fnv::Fnv1a64;
    use hashes::{RunningHash, digest_of, digest_of_pieces};
    use sha256::running::Sha256;

    // The hash that gives every string the one digest 0: it keeps the trait's laws, and tells nothing of its string.
    #[derive(Clone, Copy)]
    struct Constant {}

    impl RunningHash for Constant {
        ghost width = { 1 };

        ghost start = { λ _. 0 ∷ [] };

        ghost meaning = { λ _ _. 0 ∷ [] };

        ghost some = { Prim.search rules };

        ghost few = { Prim.search rules };

        ghost long = { Prim.search rules };

        ghost begun = { Prim.search rules };

        fn digest_len() -> usize {
            1
        }

        fn fresh() -> Constant {
            Constant {}
        }

        fn absorb(&mut self, _bytes: &[u8]) {}

        fn digest(&self) -> Digest {
            Digest::new(&[0]).unwrap()
        }
    }

    #[test]
    fn digests_have_1_to_32_bytes(rt: HostRuntime) {
        let bytes = [7u8; 33];
        assert!(rt; Digest::new(&bytes[0..0]).is_none());
        assert!(rt; Digest::new(&bytes[0..1]).is_some());
        assert!(rt; Digest::new(&bytes[0..32]).is_some());
        assert!(rt; Digest::new(&bytes).is_none());
    }

    #[test]
    fn digests_are_compared_by_their_bytes(rt: HostRuntime) {
        let one = Digest::new(b"ab").unwrap();
        let same = Digest::new(b"ab").unwrap();
        let longer = Digest::new(b"abc").unwrap();
        assert!(rt; one == same);
        assert!(rt; one != longer);
        assert!(rt; one.as_bytes() == b"ab".as_slice());
    }

    // a copy that is set aside goes on from where it was
    #[test]
    fn a_copy_goes_on_by_itself(rt: HostRuntime) {
        let mut first = Sha256::fresh();
        first.absorb(b"foo");
        let aside = first;
        first.absorb(b"bar");
        assert!(rt; first.digest() == digest_of::<Sha256>(b"foobar"));
        assert!(rt; aside.digest() == digest_of::<Sha256>(b"foo"));
    }

    #[test]
    fn pieces_are_hashed_as_one_string(rt: HostRuntime) {
        let pieces: [&[u8]; 3] = [b"foo", b"", b"bar"];
        assert!(rt; digest_of_pieces::<Sha256>(&pieces) == digest_of::<Sha256>(b"foobar"));
        assert!(rt; digest_of_pieces::<Fnv1a64>(&[]) == digest_of::<Fnv1a64>(b""));
    }

    #[test]
    fn each_hash_has_its_width(rt: HostRuntime) {
        assert!(rt; digest_of::<Fnv1a64>(b"a").as_bytes().len() == 8);
        assert!(rt; digest_of::<Sha256>(b"a").as_bytes().len() == 32);
        assert!(rt; digest_of::<Constant>(b"a") == digest_of::<Constant>(b"b"));
        assert!(rt; digest_of::<Fnv1a64>(b"a") != digest_of::<Fnv1a64>(b"b"));
    }
}
