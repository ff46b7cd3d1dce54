// The field's own kind of number (document 01, "The field"): its constants, the table of the subgroups' generators, and calls that refuse an argument
// that is not below p.
#![tactic(auto)]

ghost use Rattle.std.specs.Prelude.{◌≡◌};
ghost use Rattle.field.specs.Modular.{p, generator, subgroup_generator};
ghost use Rattle.felt.specs.Private.{judged, judged_both};
ghost use Rattle.felt.specs.Checked.{told, sum_answer, difference_answer, product_answer, negation_answer, power_answer, inverse_answer};

use answer::{Answer, Refusal};

// A field number. It is valid where its value is below the modulus.
#[repr(C)]
#[derive(Clone, Copy, Debug, PartialEq, Eq)]
pub struct Felt {
    pub value: u32,
}

// A checked call's answer, and its value beside it: 0 beside a refusal.
// Stays (C interface: `test_exports` hands it out; what may not change: the contracts of `Felt::sum` and the five calls like it).
#[repr(C)]
#[derive(Clone, Copy, Debug, PartialEq, Eq)]
pub struct FieldAnswer {
    pub answer: Answer,
    pub value: Felt,
}

// Entry t generates the subgroup of order 2^t: it is 5^(3·2^(30−t)), and the square of the entry after it.
const SUBGROUP_GENERATORS: [u32; 31] = [
    1, 3221225472, 1013946479, 1031213943, 2526611335, 66931328, 651814490, 1292405718, 1958494276,
    764652596, 1855261384, 1168849724, 211283056, 1734477367, 1445148504, 1405588668, 2519378301,
    1800384970, 1358427440, 511777184, 3009749949, 448192265, 3182672916, 140749519, 538601489,
    1838654099, 247425463, 229807484, 244140625, 15625, 125,
];

// The generator of the subgroup of order 2^t, for t up to 30; above that, of the largest one.
pub fn subgroup_generator(t: usize) -> u32
    ensures { result ≡ subgroup_generator t }
{
    SUBGROUP_GENERATORS[t.min(30)]
}

impl From<Result<u32, Refusal>> for FieldAnswer {
    ghost from_gives = { λ outcome. λ answer. answer ≡ told outcome };

    fn from(outcome: Result<u32, Refusal>) -> FieldAnswer {
        match outcome {
            Ok(value) => FieldAnswer {
                answer: Answer {
                    number: answer::OPEN,
                    place: 0,
                },
                value: Felt { value },
            },
            Err(refusal) => FieldAnswer {
                answer: refusal.at(0),
                value: Felt::ZERO,
            },
        }
    }
}

impl Felt {
    pub const MODULUS: u32 = field::MODULUS;

    pub const ZERO: Felt = Felt { value: 0 };

    pub const ONE: Felt = Felt { value: 1 };

    pub const GENERATOR: Felt = Felt { value: 5 };

    // The constants as functions, whose contracts state their values.
    pub fn zero() -> Felt
        ensures { result.value ≡ 0 }
    {
        Felt::ZERO
    }

    pub fn one() -> Felt
        ensures { result.value ≡ 1 }
    {
        Felt::ONE
    }

    pub fn modulus() -> u32
        ensures { result ≡ p }
    {
        Felt::MODULUS
    }

    pub fn generator() -> Felt
        ensures { result.value ≡ generator }
    {
        Felt::GENERATOR
    }

    // The number, where it is below p.
    fn checked(self) -> Result<u32, Refusal>
        ensures { result ≡ judged self.value }
    {
        if self.value < Felt::MODULUS {
            Ok(self.value)
        } else {
            Err(Refusal::NotBelowModulus)
        }
    }

    // Two numbers, where both are; the first is judged first.
    fn both(self, other: Felt) -> Result<(u32, u32), Refusal>
        ensures { result ≡ judged_both self.value other.value }
    {
        Ok((self.checked()?, other.checked()?))
    }

    // Stays beside the two below (what may not change: docs/PROMISES.md names the three calls); what they share is `both` and From.
    pub fn sum(self, other: Felt) -> FieldAnswer
        ensures { result ≡ sum_answer self.value other.value }
    {
        FieldAnswer::from(self.both(other).map(|(a, b)| field::add(a, b)))
    }

    pub fn difference(self, other: Felt) -> FieldAnswer
        ensures { result ≡ difference_answer self.value other.value }
    {
        FieldAnswer::from(self.both(other).map(|(a, b)| field::sub(a, b)))
    }

    pub fn product(self, other: Felt) -> FieldAnswer
        ensures { result ≡ product_answer self.value other.value }
    {
        FieldAnswer::from(self.both(other).map(|(a, b)| field::mul(a, b)))
    }

    pub fn negation(self) -> FieldAnswer
        ensures { result ≡ negation_answer self.value }
    {
        FieldAnswer::from(self.checked().map(field::neg))
    }

    pub fn power(self, e: u32) -> FieldAnswer
        ensures { result ≡ power_answer self.value e }
    {
        FieldAnswer::from(self.checked().map(|a| field::pow(a, e)))
    }

    pub fn inverse(self) -> FieldAnswer
        ensures { result ≡ inverse_answer self.value }
    {
        FieldAnswer::from(
            self.checked().and_then(|a| {
                if a == 0 {
                    Err(Refusal::InverseOfZero)
                } else {
                    Ok(field::inv(a))
                }
            }),
        )
    }
}
