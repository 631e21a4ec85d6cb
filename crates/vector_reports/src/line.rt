// The lines of the report: one for each record, and the last one for the tally.
ghost use Rattle.std.specs.Prelude.{ℕ, ◌^◌, ◌<◌, List, length};
ghost use Rattle.std.specs.Option.{SomeIff};
ghost use Rattle.texts.specs.Buffers.{Written};
ghost use Rattle.vector_files.specs.Records.{record_line, tally_line};
ghost use Rattle.vector_files.specs.Tallies.{TallyLaw};

use refusals::Refusal;
use texts::writer::line_len;
use vector_files::record::Record;
use vector_files::tally::Tally;

// What has a line in the report.
pub trait ReportLine {
    // the line, with its line feed
    ghost text: { Self → List ℕ };

    // How long the line is; absent exactly where 64 bits do not hold it.
    fn line_len(&self) -> Option<usize>
        ensures { SomeIff result (length (text self.now) < 2 ^ 64) (length (text self.now)) };

    // Writes the line at the front of the buffer, and answers its length.
    fn write_line(&self, out: &mut [u8]) -> Result<usize, Refusal>
        ensures { Written (text self.now) out.old out.new result };
}

// One impl for both kinds of line would need the number of their fields in the trait and in each bound, and be no plainer.
impl ReportLine for Record<'_> {
    ghost text = { λ r. record_line r };

    fn line_len(&self) -> Option<usize> {
        line_len(&Record::fields(self))
    }

    fn write_line(&self, out: &mut [u8]) -> Result<usize, Refusal> {
        Record::write(*self, out)
    }
}

impl ReportLine for Tally {
    ghost text = { λ t. tally_line t };

    fn line_len(&self) -> Option<usize> {
        line_len(&Tally::fields(self))
    }

    // The law says what a tally has after any list of findings.
    fn write_line(&self, out: &mut [u8]) -> Result<usize, Refusal>
        ensures written { Written (tally_line self.now) out.old out.new result }
        ensures counts { TallyLaw }
    {
        Tally::write(self, out)
    }
}
