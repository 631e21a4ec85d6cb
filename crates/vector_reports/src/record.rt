// What is said of the entries of a file, one after the other.
ghost use Rattle.texts.specs.Readers.{left_of, passed_of};
ghost use Rattle.vector_reports.specs.Entries.{EntryLaw};
ghost use Rattle.vector_reports.specs.Reports.{NextRecord, OneReport};

use texts::reader::Reader;
use vector_files::entry::next_entry;
use vector_files::record::{Record, examine};

// The record of the next entry, past all remarks, with a buffer for its message; absent at the end of the text. The laws say
// that a text has one next entry, and that whatever else could be said of the entries of a file, its report would be the same.
pub fn next_record<'a>(reader: &mut Reader<'a>, messages: &mut [u8]) -> Option<Record<'a>>
    ensures next { NextRecord (passed_of reader.old) (left_of reader.old) messages.old messages.new result (passed_of reader.new) (left_of reader.new) }
    ensures entries { EntryLaw }
    ensures reports { OneReport }
{
    let entry = next_entry(reader)?;
    Some(examine(entry, messages))
}
