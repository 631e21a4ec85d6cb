// The record of a library: a line for each recording, and a last line for the whole.

#![tactic(auto)]

pub mod digests;
mod lengths;
mod lines;

ghost use Rattle.std.specs.Prelude.{◌≡◌, ℕ, ◌^◌, ◌<◌, List, length};
ghost use Rattle.texts.specs.Buffers.{Written};
ghost use Rattle.inventories.specs.Alike.{SameRecord};
ghost use Rattle.inventories.specs.Texts.{inventory_text};

use refusals::Refusal;
use texts::writer::Writer;

// How long the record of a library is. It takes no digest, since all digests of a kind are as long.
pub fn inventory_len(library: &[u8]) -> usize
    ensures { result ≡ length (inventory_text library.now) }
{
    lengths::entries_len(library) + lengths::last_len(recordings::count(library))
}

// Writes the record of a library to the front of the buffer, and answers its length. A buffer that is too short for
// it is left as it was.
// What a record tells: two libraries have the same one exactly when their recordings are alike one by one, in length
// and digests, and so are the libraries.
pub fn write_inventory(library: &[u8], out: &mut [u8]) -> Result<usize, Refusal>
    ensures written { Written (inventory_text library.now) out.old out.new result }
    ensures tells { (other : List ℕ) → length other < 2 ^ 64 → SameRecord other library.now }
{
    if out.len() < inventory_len(library) {
        return Err(Refusal::OutputTooShort);
    }
    let mut writer = Writer::over(out);
    lines::write_recordings(&mut writer, library);
    lines::write_last(&mut writer, library);
    Ok(writer.place())
}
