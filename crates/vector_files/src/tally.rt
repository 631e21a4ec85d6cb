// How many records there were of each kind, and the line that says so.
ghost use Rattle.std.specs.Prelude.{◌≡◌, Decides};
ghost use Rattle.texts.specs.Buffers.{Written};
ghost use Rattle.texts.specs.Lines.{line_of};
ghost use Rattle.vector_files.specs.Records.{none_counted, counted, tally_line};
ghost use Rattle.vector_files.specs.Tallies.{TallyLaw};

use crate::check::{Outcome, Report};
use crate::vector::Fault;
use refusals::Refusal;
use texts::writer::{Field, write_front};

// All records, and those that agree, differ and are malformed. A count stops at the greatest number of its type.
#[derive(Clone, Copy, PartialEq, Eq, Default, Debug)]
pub struct Tally {
    pub vectors: usize,
    pub ok: usize,
    pub differ: usize,
    pub malformed: usize,
}

impl Tally {
    pub fn new() -> Tally
        ensures { result ≡ none_counted }
    {
        Tally::default()
    }

    // Counts one record more. The law says what a tally has after any list of findings.
    #[tactic(auto, using(crate::proofs::Tallies::tally_law))]
    pub fn count(&mut self, finding: Result<Report, Fault>)
        ensures one_more { self.new ≡ counted self.old finding }
        ensures counts { TallyLaw }
    {
        self.vectors = self.vectors.saturating_add(1);
        match finding.map(|report| report.outcome) {
            Ok(Outcome::Agrees) => self.ok = self.ok.saturating_add(1),
            Ok(Outcome::Differs) => self.differ = self.differ.saturating_add(1),
            Err(_) => self.malformed = self.malformed.saturating_add(1),
        }
    }

    // Whether no record differs and none is malformed.
    pub fn all_ok(&self) -> bool
        ensures { Decides result ((self.now.differ ≡ 0) × (self.now.malformed ≡ 0)) }
    {
        self.differ == 0 && self.malformed == 0
    }

    // The fields of the tally's line: each count behind its word.
    pub fn fields(&self) -> [Field<'static>; 8]
        ensures { line_of result ≡ tally_line self.now }
    {
        [
            Field::Word(b"vectors"),
            Field::Number(self.vectors),
            Field::Word(b"ok"),
            Field::Number(self.ok),
            Field::Word(b"differ"),
            Field::Number(self.differ),
            Field::Word(b"malformed"),
            Field::Number(self.malformed),
        ]
    }

    // Writes the line of the tally at the front of the buffer, and answers its length. Kept beside the one of a record: they have
    // 8 and 4 fields, and one text for both would need that count in a trait and be no plainer.
    pub fn write(&self, out: &mut [u8]) -> Result<usize, Refusal>
        ensures { Written (tally_line self.now) out.old out.new result }
    {
        write_front(&self.fields(), out)
    }
}
