// The refusals, and the number and part that a refused call gives for each.
#![tactic(auto)]

ghost use Rattle.std.specs.Prelude.{◌≡◌};
ghost use Rattle.refusal.specs.Number.{number_of, part_of};

#[derive(Clone, Copy, PartialEq, Eq)]
pub enum Refusal {
    // The store or a table of the desk is too short.
    ShortDesk,
    // The case is empty or too long.
    CaseSize,
    // The count of parts is out of range, or the directory does not fit.
    Directory,
    // A part, by its number, that is empty or breaks the rule on starts and ends.
    PartPlace(u8),
    // The lattice part has a wrong length or a byte out of range.
    LatticeForm,
    NoPartialOrder,
    NoMeetOrJoin,
    NotDistributive,
    BadComplement,
    // A model part, by its number.
    BadModel(u8),
    // A formula part, by its number.
    BadFormula(u8),
    // The desk breaks one of its rules.
    SpoiledDesk,
    // An argument of the call is out of range.
    OutOfRange,
    // A buffer that is lent to write into is too short.
    ShortBuffer,
}

impl Refusal {
    // The number of a refusal: C's, written out, as `number_of` of specs/Number has them.
    pub fn number(self) -> u8
        ensures { result ≡ number_of self }
    {
        match self {
            Refusal::ShortDesk => 11,
            Refusal::CaseSize => 1,
            Refusal::Directory => 2,
            Refusal::PartPlace(_) => 3,
            Refusal::LatticeForm => 4,
            Refusal::NoPartialOrder => 5,
            Refusal::NoMeetOrJoin => 6,
            Refusal::NotDistributive => 7,
            Refusal::BadComplement => 8,
            Refusal::BadModel(_) => 9,
            Refusal::BadFormula(_) => 10,
            Refusal::SpoiledDesk => 12,
            Refusal::OutOfRange => 13,
            Refusal::ShortBuffer => 14,
        }
    }

    // The part that a refusal names; 255 where it names none, which is C's byte for it in `part_of` of specs/Number, so that this is no Option.
    pub fn part(self) -> u8
        ensures { result ≡ part_of self }
    {
        match self {
            Refusal::ShortDesk => 255,
            Refusal::CaseSize => 255,
            Refusal::Directory => 255,
            Refusal::PartPlace(p) => p,
            Refusal::LatticeForm => 0,
            Refusal::NoPartialOrder => 0,
            Refusal::NoMeetOrJoin => 0,
            Refusal::NotDistributive => 0,
            Refusal::BadComplement => 0,
            Refusal::BadModel(p) => p,
            Refusal::BadFormula(p) => p,
            Refusal::SpoiledDesk => 255,
            Refusal::OutOfRange => 255,
            Refusal::ShortBuffer => 255,
        }
    }
}
