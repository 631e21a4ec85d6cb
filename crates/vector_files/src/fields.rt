// The fields of a line, each read by itself.
ghost use Rattle.std.specs.Prelude.{◌≡◌, ℕ, List, Decides, MatchOption};
ghost use Rattle.std.specs.List.{AllByRecursion};
ghost use Rattle.texts.specs.Cuts.{Lacks};
ghost use Rattle.hashes.specs.Digests.{digest_bytes};
ghost use Rattle.vector_files.specs.Entries.{Remark};
ghost use Rattle.vector_files.specs.Tabs.{Five};
ghost use Rattle.vector_files.specs.Vectors.{Printable, Repeats, GoodName, OrFault, ReadMessage, DigestField};

use crate::vector::{Fault, HashName, Message};
use hashes::digest::Digest;
use texts::fields::cut;
use texts::hex::{decode_hex, hex_byte, is_hex};
use texts::number::number;

// The five fields of a line, as they stand there.
#[derive(Clone, Copy)]
pub(crate) struct Fields<'a> {
    pub(crate) name: &'a [u8],
    pub(crate) hash: &'a [u8],
    pub(crate) form: &'a [u8],
    pub(crate) message: &'a [u8],
    pub(crate) digest: &'a [u8],
}

// The fields of a line that has five of them.
pub(crate) fn five_fields(line: &[u8]) -> Option<Fields<'_>>
    ensures { MatchOption result ((a b c d e : List ℕ) → Five line.now a b c d e → ⊥) (λ f. Five line.now f.name.now f.hash.now f.form.now f.message.now f.digest.now) }
{
    let (name, rest) = cut(line, b'\t')?;
    let (hash, rest) = cut(rest, b'\t')?;
    let (form, rest) = cut(rest, b'\t')?;
    let (message, digest) = cut(rest, b'\t')?;
    if cut(digest, b'\t').is_some() {
        return None;
    }
    Some(Fields {
        name,
        hash,
        form,
        message,
        digest,
    })
}

// Whether a line is no entry.
pub(crate) fn is_remark(line: &[u8]) -> bool
    ensures { Decides result (Remark line.now) }
{
    matches!(line, [] | [b'#', ..])
}

// Whether all bytes are printable characters of ASCII.
fn printable(s: &[u8]) -> bool
    ensures { Decides result (AllByRecursion Printable s.now) }
{
    s.iter().all(|b| (b' '..=b'~').contains(b))
}

// A name, which does not look like a remark.
pub(crate) fn read_name(field: &[u8]) -> Result<&str, Fault>
    ensures { OrFault Fault.Name (GoodName field.now → ⊥) (λ s. GoodName field.now × (s.now ≡ field.now)) result }
{
    if is_remark(field) || !printable(field) {
        return Err(Fault::Name);
    }
    // ASCII is always UTF-8.
    Ok(std::str::from_utf8(field).unwrap())
}

// One byte in hex, a star, and how many times it comes.
fn read_repeat(field: &[u8]) -> Option<(u8, usize)>
    ensures { MatchOption result ((b n : ℕ) → Repeats field.now b n → ⊥) (λ p. Repeats field.now p.0 p.1) }
{
    let [hi, lo, b'*', digits @ ..] = field else {
        return None;
    };
    let byte = hex_byte(*hi, *lo)?;
    let count = number(digits, 7)?;
    Some((byte, count))
}

// A message of that form.
pub(crate) fn read_message<'a>(form: &[u8], field: &'a [u8]) -> Result<Message<'a>, Fault>
    requires { Lacks 9 field.now }
    ensures { ReadMessage form.now field.now result }
{
    match form {
        b"text" => Ok(Message::Text(field)),
        b"hex" if is_hex(field) => Ok(Message::Hex(field)),
        b"hex" => Err(Fault::Message),
        b"repeat" => {
            let (byte, count) = read_repeat(field).ok_or(Fault::Message)?;
            Ok(Message::Repeat { byte, count })
        }
        _ => Err(Fault::Form),
    }
}

// A digest of that hash, in hex.
pub(crate) fn read_digest(hash: HashName, field: &[u8]) -> Result<Digest, Fault>
    ensures { OrFault Fault.Digest ((bytes : List ℕ) → DigestField hash field.now bytes → ⊥) (λ d. DigestField hash field.now (digest_bytes d)) result }
{
    // no heap here, and a digest has 32 bytes at most
    let mut buffer = [0u8; 32];
    let count = decode_hex(field, &mut buffer).ok_or(Fault::Digest)?;
    if count != hash.digest_len() {
        return Err(Fault::Digest);
    }
    Digest::new(&buffer[0..count]).ok_or(Fault::Digest)
}
