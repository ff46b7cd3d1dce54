// What every call answers: a number and a place (document 01, "When the reader says no"). The place counts the bytes of the file up to and
// including the one that decides; a call that reads no file answers at 0.
#![tactic(auto)]

ghost use Rattle.std.specs.Prelude.{◌≡◌};
ghost use Rattle.answer.specs.Table.{answered, table};
ghost use Rattle.answer.specs.Refusals.{number_of};

// Stays a number (C interface): programs in C read it, and the memory that they lend to a reader may hold any.
#[repr(C)]
#[derive(Clone, Copy, Debug, PartialEq, Eq)]
pub struct Answer {
    pub number: u8,
    pub place: u32,
}

// The number of a reader that is open with no fault, and of a call that succeeds.
pub const OPEN: u8 = 0;

pub const ACCEPTED: u8 = 1;

// Why a call refuses: the table's numbers by name. `numbers`, whose contract pins each, keeps them from drifting from the table.
#[derive(Clone, Copy, Debug, PartialEq, Eq)]
pub enum Refusal {
    ParametersNotValid = 10,
    Closed = 11,
    JobTooShort = 12,
    MessageTooLong = 14,
    InverseOfZero = 15,
    NoSuchOpening = 16,
    CountDiffers = 20,
    ParametersDiffer = 21,
    NotBelowModulus = 22,
    PathMissesRoot = 23,
    NotTheFoldedValue = 24,
    MissesFinalPolynomial = 25,
    TooFewBytes = 26,
    ByteAfterTheEnd = 27,
    WrongCoefficientCount = 30,
    ScratchTooShort = 31,
    OutputTooShort = 32,
}

impl Refusal {
    // Stays a method (no plainer: `u8::from(refusal)` is longer at each call, and a number is what the name says).
    pub fn number(self) -> u8
        ensures { result ≡ number_of self }
    {
        self as u8
    }

    // The answer of a refusal at a place.
    pub fn at(self, place: u32) -> Answer
        ensures { result ≡ answered (number_of self) place }
    {
        Answer {
            number: self.number(),
            place,
        }
    }
}

// Every number, ascending.
pub fn numbers() -> [u8; 19]
    ensures { result ≡ table }
{
    [
        OPEN,
        ACCEPTED,
        Refusal::ParametersNotValid.number(),
        Refusal::Closed.number(),
        Refusal::JobTooShort.number(),
        Refusal::MessageTooLong.number(),
        Refusal::InverseOfZero.number(),
        Refusal::NoSuchOpening.number(),
        Refusal::CountDiffers.number(),
        Refusal::ParametersDiffer.number(),
        Refusal::NotBelowModulus.number(),
        Refusal::PathMissesRoot.number(),
        Refusal::NotTheFoldedValue.number(),
        Refusal::MissesFinalPolynomial.number(),
        Refusal::TooFewBytes.number(),
        Refusal::ByteAfterTheEnd.number(),
        Refusal::WrongCoefficientCount.number(),
        Refusal::ScratchTooShort.number(),
        Refusal::OutputTooShort.number(),
    ]
}
