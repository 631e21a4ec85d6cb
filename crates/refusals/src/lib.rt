// What a call answers when it refuses: one case for each number that a caller can meet.
// docs/REFUSALS.md tells when each of them comes, and in which order the checks run.

#![tactic(auto)]

ghost use Rattle.std.specs.Prelude.{◌≡◌, Decides, nat_eq};
ghost use Rattle.std.specs.Ordering.{on};
ghost use Rattle.refusals.specs.Numbers.{number_of, Listed, Decodes};
ghost use Rattle.std.specs.Cmp.Rules.{comparing};
ghost use Rattle.std.proofs.Common.{rules};

// The numbers are printed and written down, so each case fixes its own.
#[derive(Clone, Copy, Eq, Debug)]
pub enum Refusal {
    // a scheme cannot be made
    FieldSize = 11,
    Dimension = 12,
    Strength = 13,
    ObjectCount = 14,
    GroupCount = 15,
    GroupsPerObject = 16,
    MergedSize = 17,
    // a session's call cannot be granted
    WrongPhase = 21,
    BankTooShort = 22,
    ObjectTooLong = 23,
    LibrarySize = 24,
    PageTooShort = 25,
    VerdictsTooShort = 26,
    NoSuchObject = 27,
    Unexplained = 28,
    NotAVerdict = 29,
    // a text cannot be read, or does not fit
    NotASheet = 31,
    MalformedSetting = 32,
    UnknownHash = 33,
    MalformedDigest = 34,
    LineCount = 35,
    ProgramLimit = 36,
    OutputTooShort = 37,
}

impl Refusal {
    // The number that stands for this case, and for no other. A `From` would be a second name for it, and no
    // plainer.
    pub fn number(self) -> u8
        ensures is { result ≡ number_of self }
        ensures listed { Listed result }
        ensures alone { (other : Refusal) → number_of other ≡ result → other ≡ self }
    {
        self as u8
    }
}

// A number that no case has.
#[derive(Clone, Copy, PartialEq, Eq, Debug)]
pub struct UnknownNumber(pub u8);

// The case with this number; the number itself exactly when no case has it.
impl TryFrom<u8> for Refusal {
    type Error = UnknownNumber;

    ghost try_from_gives = { Decodes };

    fn try_from(number: u8) -> Result<Refusal, UnknownNumber> {
        match number {
            11 => Ok(Refusal::FieldSize),
            12 => Ok(Refusal::Dimension),
            13 => Ok(Refusal::Strength),
            14 => Ok(Refusal::ObjectCount),
            15 => Ok(Refusal::GroupCount),
            16 => Ok(Refusal::GroupsPerObject),
            17 => Ok(Refusal::MergedSize),
            21 => Ok(Refusal::WrongPhase),
            22 => Ok(Refusal::BankTooShort),
            23 => Ok(Refusal::ObjectTooLong),
            24 => Ok(Refusal::LibrarySize),
            25 => Ok(Refusal::PageTooShort),
            26 => Ok(Refusal::VerdictsTooShort),
            27 => Ok(Refusal::NoSuchObject),
            28 => Ok(Refusal::Unexplained),
            29 => Ok(Refusal::NotAVerdict),
            31 => Ok(Refusal::NotASheet),
            32 => Ok(Refusal::MalformedSetting),
            33 => Ok(Refusal::UnknownHash),
            34 => Ok(Refusal::MalformedDigest),
            35 => Ok(Refusal::LineCount),
            36 => Ok(Refusal::ProgramLimit),
            37 => Ok(Refusal::OutputTooShort),
            _ => Err(UnknownNumber(number)),
        }
    }
}

// By hand, by a rule of the project: the edit `equality` has to stay, and a derive has no body to plant it in.
impl PartialEq for Refusal {
    ghost eq = { on number_of nat_eq };

    ghost laws = { Prim.search (comparing, rules) };

    fn eq(&self, other: &Refusal) -> bool
        ensures tests { result ≡ nat_eq (number_of self.now) (number_of other.now) }
        ensures equals { Decides result (self.now ≡ other.now) }
    {
        self.number() == other.number()
    }
}
