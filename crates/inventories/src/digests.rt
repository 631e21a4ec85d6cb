// The two digests that a record keeps of a string of bytes.
ghost use Rattle.inventories.specs.Records.{DigestsOf};

use hashes::digest::Digest;
use hashes::fnv::Fnv1a64;
use sha256::running::Sha256;

#[derive(Clone, Copy)]
pub struct Digests {
    pub fnv: Digest,
    pub sha: Digest,
}

impl Digests {
    pub fn of(bytes: &[u8]) -> Digests
        ensures { DigestsOf bytes.now result }
    {
        Digests {
            fnv: hashes::digest_of::<Fnv1a64>(bytes),
            sha: hashes::digest_of::<Sha256>(bytes),
        }
    }
}
