// The hash and the field.
ghost use Rattle.std.specs.Prelude.{◌≡◌, ◌%◌};
ghost use Rattle.sha256.specs.Hash.{hashed};
ghost use Rattle.field.specs.Modular.{p, add_mod, sub_mod, mul_mod, neg_mod, pow_mod, inv_mod, generator, subgroup_generator};
ghost use Rattle.felt.specs.Checked.{sum_answer, difference_answer, product_answer, negation_answer, power_answer, inverse_answer};

use answer::Answer;
use felt::{Felt, FieldAnswer};
use sha256::Hashed;

// The digest goes to `out`.
#[unsafe(no_mangle)]
pub extern "C" fn test_hash(message: &[u8], out: &mut [u8; 32]) -> Answer
    ensures value { result ≡ (hashed message.now).answer }
    ensures out_after { out.new ≡ (hashed message.now).digest }
{
    let Hashed { answer, digest } = sha256::hash(message);
    *out = digest;
    answer
}

// Stays: the C interface; one name for each operation, here and below.
#[unsafe(no_mangle)]
pub extern "C" fn test_sum(a: u32, b: u32) -> FieldAnswer
    ensures { result ≡ sum_answer a b }
{
    Felt { value: a }.sum(Felt { value: b })
}

#[unsafe(no_mangle)]
pub extern "C" fn test_difference(a: u32, b: u32) -> FieldAnswer
    ensures { result ≡ difference_answer a b }
{
    Felt { value: a }.difference(Felt { value: b })
}

#[unsafe(no_mangle)]
pub extern "C" fn test_product(a: u32, b: u32) -> FieldAnswer
    ensures { result ≡ product_answer a b }
{
    Felt { value: a }.product(Felt { value: b })
}

#[unsafe(no_mangle)]
pub extern "C" fn test_negation(a: u32) -> FieldAnswer
    ensures { result ≡ negation_answer a }
{
    Felt { value: a }.negation()
}

#[unsafe(no_mangle)]
pub extern "C" fn test_power(a: u32, e: u32) -> FieldAnswer
    ensures { result ≡ power_answer a e }
{
    Felt { value: a }.power(e)
}

#[unsafe(no_mangle)]
pub extern "C" fn test_inverse(a: u32) -> FieldAnswer
    ensures { result ≡ inverse_answer a }
{
    Felt { value: a }.inverse()
}

#[unsafe(no_mangle)]
pub extern "C" fn test_reduce(a: u64) -> u32
    ensures { result ≡ a % p }
{
    field::reduce(a)
}

#[unsafe(no_mangle)]
pub extern "C" fn test_add(a: u32, b: u32) -> u32
    ensures { result ≡ add_mod a b }
{
    field::add(a, b)
}

#[unsafe(no_mangle)]
pub extern "C" fn test_sub(a: u32, b: u32) -> u32
    ensures { result ≡ sub_mod a b }
{
    field::sub(a, b)
}

#[unsafe(no_mangle)]
pub extern "C" fn test_mul(a: u32, b: u32) -> u32
    ensures { result ≡ mul_mod a b }
{
    field::mul(a, b)
}

#[unsafe(no_mangle)]
pub extern "C" fn test_mul_add(a: u32, b: u32, c: u32) -> u32
    ensures { result ≡ add_mod c (mul_mod a b) }
{
    field::mul_add(a, b, c)
}

#[unsafe(no_mangle)]
pub extern "C" fn test_neg(a: u32) -> u32
    ensures { result ≡ neg_mod a }
{
    field::neg(a)
}

#[unsafe(no_mangle)]
pub extern "C" fn test_pow(a: u32, e: u32) -> u32
    ensures { result ≡ pow_mod a e }
{
    field::pow(a, e)
}

#[unsafe(no_mangle)]
pub extern "C" fn test_inv(a: u32) -> u32
    ensures { result ≡ inv_mod a }
{
    field::inv(a)
}

#[unsafe(no_mangle)]
pub extern "C" fn test_modulus() -> u32
    ensures { result ≡ p }
{
    Felt::modulus()
}

#[unsafe(no_mangle)]
pub extern "C" fn test_zero() -> Felt
    ensures { result.value ≡ 0 }
{
    Felt::zero()
}

#[unsafe(no_mangle)]
pub extern "C" fn test_one() -> Felt
    ensures { result.value ≡ 1 }
{
    Felt::one()
}

#[unsafe(no_mangle)]
pub extern "C" fn test_generator() -> Felt
    ensures { result.value ≡ generator }
{
    Felt::generator()
}

#[unsafe(no_mangle)]
pub extern "C" fn test_subgroup_generator(t: usize) -> u32
    ensures { result ≡ subgroup_generator t }
{
    felt::subgroup_generator(t)
}
