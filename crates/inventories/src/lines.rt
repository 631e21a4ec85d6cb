// The lines of a record, by a writer that has room for them.
ghost use Rattle.texts.specs.Lines.{field_text};
ghost use Rattle.texts.specs.Writers.{Puts, Room};
ghost use Rattle.recordings.specs.Recordings.{recordings};
ghost use Rattle.inventories.specs.Texts.{record_line, entry_lines, last_line};

use crate::digests::Digests;
use texts::writer::{Field, Writer};

// One line: what it speaks of, a number, and the digests of some bytes, which are hashed here, once.
fn write_entry(writer: &mut Writer, name: Field, number: usize, bytes: &[u8])
    requires { Room writer.old (record_line (field_text name) number bytes.now) }
    ensures { Puts writer.old (record_line (field_text name.entry) number bytes.now) writer.new }
{
    let digests = Digests::of(bytes);
    let fields = [
        name,
        Field::Number(number),
        Field::Hex(digests.fnv.as_bytes()),
        Field::Hex(digests.sha.as_bytes()),
    ];
    writer.write_line(&fields).unwrap()
}

// All lines but the last.
pub(crate) fn write_recordings(writer: &mut Writer, library: &[u8])
    requires { Room writer.old (entry_lines 0 (recordings library.now)) }
    ensures { Puts writer.old (entry_lines 0 (recordings library.now)) writer.new }
{
    for (number, recording) in recordings::all(library).enumerate() {
        write_entry(writer, Field::Number(number), recording.len(), recording);
    }
}

// The last line, of the library as a whole.
pub(crate) fn write_last(writer: &mut Writer, library: &[u8])
    requires { Room writer.old (last_line library.now) }
    ensures { Puts writer.old (last_line library.now) writer.new }
{
    write_entry(
        writer,
        Field::Word(b"library"),
        recordings::count(library),
        library,
    );
}
