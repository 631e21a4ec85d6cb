// What is said of one entry of the file, and its line.
ghost use Rattle.std.specs.Prelude.{◌≡◌};
ghost use Rattle.texts.specs.Buffers.{Written};
ghost use Rattle.texts.specs.Lines.{line_of};
ghost use Rattle.vector_files.specs.Checks.{CheckedReading};
ghost use Rattle.vector_files.specs.Records.{Examined, record_line};

use crate::check::{Report, check};
use crate::entry::Entry;
use crate::vector::Fault;
use crate::write::{checked_fields, malformed_fields};
use refusals::Refusal;
use texts::writer::{Field, write_front};

// The number of a line, the name of its vector, and what was found: the report on the vector, or what is wrong with the
// line, which then has an empty name.
#[derive(Clone, Copy)]
pub struct Record<'a> {
    pub line: usize,
    pub name: &'a str,
    pub finding: Result<Report, Fault>,
}

impl Entry<'_> {
    // The report on the entry's vector, with a buffer for its message.
    fn check(self, buffer: &mut [u8]) -> Result<Report, Fault>
        ensures { CheckedReading self.entry.vector buffer.old buffer.new result }
    {
        check(self.vector?, buffer)
    }
}

impl Record<'_> {
    // The fields of the record's line.
    pub fn fields(&self) -> [Field<'_>; 4]
        ensures { line_of result ≡ record_line self.now }
    {
        match &self.finding {
            Ok(report) => checked_fields(self.name, report),
            Err(fault) => malformed_fields(self.line, *fault),
        }
    }

    // Writes the line of the record at the front of the buffer, and answers its length.
    pub fn write(self, out: &mut [u8]) -> Result<usize, Refusal>
        ensures { Written (record_line self.entry) out.old out.new result }
    {
        write_front(&self.fields(), out)
    }
}

// Checks the vector of an entry, with a buffer for its message.
pub fn examine<'a>(entry: Entry<'a>, buffer: &mut [u8]) -> Record<'a>
    ensures { Examined entry.entry buffer.old buffer.new result }
{
    let finding = entry.check(buffer);
    let name = match (entry.vector, finding) {
        (Ok(vector), Ok(_)) => vector.name,
        _ => "",
    };
    Record {
        line: entry.line,
        name,
        finding,
    }
}
