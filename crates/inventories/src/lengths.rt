// How long the lines of a record are.
ghost use Rattle.std.specs.Prelude.{◌≡◌, ◌+◌, ◌*◌, ◌≤◌, length, decimal};
ghost use Rattle.recordings.specs.Recordings.{recordings};
ghost use Rattle.inventories.specs.Texts.{entry_lines};

use texts::writer::number_len;

// Two digests in hex, of 8 and of 32 bytes, three tabs and the line feed.
const FIXED: usize = 84;

// A line that begins with a name of that length.
fn entry_len(name_len: usize, number: usize) -> usize
    requires { name_len ≤ 20 }
    ensures value { result ≡ name_len + length (decimal number) + 84 }
    ensures few { result ≤ name_len + 104 }
{
    name_len + number_len(number) + FIXED
}

// All lines but the last.
pub(crate) fn entries_len(library: &[u8]) -> usize
    ensures value { result ≡ length (entry_lines 0 (recordings library.now)) }
    ensures few { result ≤ 124 * length (recordings library.now) }
{
    let mut total = 0;
    for (number, recording) in recordings::all(library).enumerate() {
        total += entry_len(number_len(number), recording.len());
    }
    total
}

// The last line of a library with so many recordings.
pub(crate) fn last_len(count: usize) -> usize
    ensures value { result ≡ length (decimal count) + 91 }
    ensures few { result ≤ 111 }
{
    entry_len(b"library".len(), count)
}
