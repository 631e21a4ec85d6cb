// The fields of a record's line, and the words in them.
ghost use Rattle.std.specs.Prelude.{◌≡◌};
ghost use Rattle.texts.specs.Lines.{line_of};
ghost use Rattle.vector_files.specs.Records.{word_of_outcome, words_of_fault, checked_line, malformed_line};

use crate::check::{Outcome, Report};
use crate::vector::Fault;
use texts::writer::Field;

// No `Display`, by a rule of the project: these words become a field of a line.
impl Outcome {
    fn word(self) -> &'static str
        ensures { result.now ≡ word_of_outcome self }
    {
        match self {
            Outcome::Agrees => "ok",
            Outcome::Differs => "differs",
        }
    }
}

// Neither are these a `Display`.
impl Fault {
    fn words(self) -> &'static str
        ensures { result.now ≡ words_of_fault self }
    {
        match self {
            Fault::Unended => "no line feed at its end",
            Fault::FieldCount => "not five fields",
            Fault::Name => "no name",
            Fault::Hash => "unknown hash",
            Fault::Form => "unknown form",
            Fault::Message => "message not of its form",
            Fault::Digest => "no digest of its hash",
            Fault::TooLong => "message too long",
        }
    }
}

// The fields of a checked vector's line. Two parameters, by a rule of the project: public calls stay. `Record::fields` takes both
// from the record.
pub fn checked_fields<'a>(name: &'a str, report: &'a Report) -> [Field<'a>; 4]
    ensures { line_of result ≡ checked_line name.now report.now }
{
    [
        Field::Word(name.as_bytes()),
        Field::Number(report.length),
        Field::Hex(report.digest.as_bytes()),
        Field::Word(report.outcome.word().as_bytes()),
    ]
}

// The fields of the line of a line that holds no vector. Two parameters, for the same reason.
pub fn malformed_fields<'a>(number: usize, fault: Fault) -> [Field<'a>; 4]
    ensures { line_of result ≡ malformed_line number fault }
{
    [
        Field::Word(b"line"),
        Field::Number(number),
        Field::Word(b"malformed"),
        Field::Word(fault.words().as_bytes()),
    ]
}
