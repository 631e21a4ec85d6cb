ghost use Rattle.std.specs.Prelude.{◌≡◌};
ghost use Rattle.vector_files.specs.Vectors.{NamesHash, hash_width};

use hashes::RunningHash;
use hashes::fnv::Fnv1a64;
use sha256::running::Sha256;

// The hashes that a vector can be of.
#[derive(Clone, Copy, PartialEq, Eq, Debug)]
pub enum HashName {
    Fnv1a64,
    Sha256,
}

impl HashName {
    // How many bytes the digests of the hash have. A `match` by name, since a hash is a type here, and no value to call:
    // no plainer otherwise.
    pub(crate) fn digest_len(self) -> usize
        ensures { result ≡ hash_width self }
    {
        match self {
            HashName::Fnv1a64 => Fnv1a64::digest_len(),
            HashName::Sha256 => Sha256::digest_len(),
        }
    }
}

// The hash of that word, all of which is compared.
impl TryFrom<&[u8]> for HashName {
    type Error = Fault;

    ghost try_from_gives = { λ word r. NamesHash word.now r };

    fn try_from(word: &[u8]) -> Result<HashName, Fault> {
        match word {
            b"fnv1a64" => Ok(HashName::Fnv1a64),
            b"sha256" => Ok(HashName::Sha256),
            _ => Err(Fault::Hash),
        }
    }
}

// A message as its vector writes it: as the bytes themselves, in hex, or as one byte so many times.
#[derive(Clone, Copy)]
pub enum Message<'a> {
    Text(&'a [u8]),
    Hex(&'a [u8]),
    Repeat { byte: u8, count: usize },
}

// A test vector, as its line writes it: a message and the hex text of the digest that it must have.
#[derive(Clone, Copy)]
pub struct Vector<'a> {
    pub name: &'a str,
    pub hash: HashName,
    pub message: Message<'a>,
    // no `Digest`: a caller may put any bytes here, and the check tells whether they are a digest's text
    pub expected: &'a [u8],
}

// What can be wrong with a line of the file, in the order in which a line is judged.
#[derive(Clone, Copy, PartialEq, Eq, Debug)]
pub enum Fault {
    Unended,
    FieldCount,
    Name,
    Hash,
    Form,
    Message,
    Digest,
    TooLong,
}
