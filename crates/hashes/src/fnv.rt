ghost use Rattle.std.specs.Prelude.{◌≡◌, []};
ghost use Rattle.hashes.specs.BigEndian.{number_of};
ghost use Rattle.hashes.specs.Digests.{digest_bytes};
ghost use Rattle.hashes.specs.Fnv.{FnvLaw, fnv_from, fnv_step, fnv1a};
ghost use Rattle.std.proofs.Common.{rules};

use crate::RunningHash;
use crate::digest::Digest;

// A running FNV-1a of 64 bits: the value so far.
#[derive(Clone, Copy)]
pub struct Fnv1a64 {
    value: u64,
}

const BASIS: u64 = 14695981039346656037;

const PRIME: u64 = 1099511628211;

const DIGEST_LEN: usize = 8;

// The value after one byte more.
fn step(value: u64, byte: u8) -> u64
    ensures { result ≡ fnv_step value byte }
{
    (value ^ u64::from(byte)).wrapping_mul(PRIME)
}

impl RunningHash for Fnv1a64 {
    ghost width = { 8 };

    ghost start = { fnv1a };

    ghost meaning = { λ h rest. fnv_from h.value rest };

    ghost some = { Prim.search rules };

    ghost few = { Prim.search rules };

    ghost long = { Prim.search rules };

    ghost begun = { Prim.search rules };

    fn digest_len() -> usize {
        DIGEST_LEN
    }

    fn fresh() -> Fnv1a64 {
        Fnv1a64 { value: BASIS }
    }

    fn absorb(&mut self, bytes: &[u8]) {
        self.value = bytes
            .iter()
            .fold(self.value, |value, byte| step(value, *byte));
    }

    // As a number, with the highest byte first, the digest is the value. The law says of every string which values it
    // goes through.
    fn digest(&self) -> Digest
        ensures digest { digest_bytes result ≡ fnv_from self.now.value [] }
        ensures number { number_of (digest_bytes result) ≡ self.now.value }
        ensures values { FnvLaw }
    {
        Digest::new(&self.value.to_be_bytes()).unwrap()
    }
}
