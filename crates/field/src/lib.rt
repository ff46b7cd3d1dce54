// The prime field p = 3·2^30 + 1 (document 01, "The field"). The calls are total and reduce any argument; `felt` has those that refuse one.
#![tactic(auto)]

ghost use Rattle.std.specs.Prelude.{◌≡◌, ◌+◌, ◌*◌, ◌/◌, ◌%◌, ◌<◌};
ghost use Rattle.field.specs.Modular.{p, add_mod, sub_mod, mul_mod, neg_mod, pow_mod, inv_mod};

// p.
pub const MODULUS: u32 = 3221225473;

// 2^32, and 2^30: p is three of these units and 1.
const WORD: u64 = 4294967296;

const UNIT: u32 = 1073741824;

// The remainder of a 32-bit number, which is below 2p.
fn correct(a: u32) -> u32
    ensures { result ≡ a % p }
{
    if a < MODULUS { a } else { a - MODULUS }
}

// A third of 2^33 without its quarter, `times` over. A third is a quarter, a sixteenth, a sixty-fourth and so on: from the sixteenth on, fifteen parts, 2^29
// down to 2. Four sums make them, each of what was summed so far and the same in further places. Three are taken off for the 1 in p.
fn rest_of_third(times: u64) -> u64
    requires { times < 2147483648 }
    ensures { result ≡ 715827879 * times }
{
    let two = times + 4 * times;
    let four = two + 16 * two;
    let eight = four + 256 * four;
    let fifteen = eight + 16384 * (eight - times);
    2 * fifteen - 3 * times
}

// How often p goes into a, or once less, modulo 2^32. 2^32 is p and a third of p, so that is how often 2^32 goes into a and a third of a. The third's quarter
// is taken of a itself, the rest of it of how often 2^33 goes into a, which is rounded down.
fn quotient(a: u64) -> u32
    ensures { result ≡ (a + (a / 4 + 715827879 * (a / 8589934592))) / 4294967296 % 4294967296 }
{
    (a.wrapping_add(a / 4 + rest_of_third(a / 8589934592)) / WORD) as u32
}

// The remainder of any number, or p more: what is left after p has been taken away as often as the quotient says. It fits in 32 bits, so counting modulo 2^32
// is enough, and there taking three units away is adding one.
fn reduce_lazily(a: u64) -> u32
    ensures { result % p ≡ a % p }
{
    let q = quotient(a);
    let less = ((a % WORD) as u32).wrapping_sub(q);
    less.wrapping_add(UNIT * (q % 4))
}

// The remainder of any number, by shifts and small sums: no division but by powers of two.
pub fn reduce(a: u64) -> u32
    ensures { result ≡ a % p }
{
    correct(reduce_lazily(a))
}

#[tactic(auto, unfolding(crate::specs::Modular::add_mod))]
pub fn add(a: u32, b: u32) -> u32
    ensures { result ≡ add_mod a b }
{
    let x = correct(a);
    let y = correct(b);
    let room = MODULUS - y;
    if x < room { x + y } else { x - room }
}

#[tactic(auto, unfolding(crate::specs::Modular::sub_mod))]
pub fn sub(a: u32, b: u32) -> u32
    ensures { result ≡ sub_mod a b }
{
    let x = correct(a);
    let y = correct(b);
    if y <= x { x - y } else { x + (MODULUS - y) }
}

#[tactic(auto, unfolding(crate::specs::Modular::mul_mod))]
pub fn mul(a: u32, b: u32) -> u32
    ensures { result ≡ mul_mod a b }
{
    reduce(a as u64 * b as u64)
}

// A product and a number, reduced together.
#[tactic(auto, using(crate::proofs::Reduction::product_and_number))]
pub fn mul_add(a: u32, b: u32, c: u32) -> u32
    ensures { result ≡ add_mod c (mul_mod a b) }
{
    reduce(a as u64 * b as u64 + c as u64)
}

// A product, not reduced to the end: what products that follow each other pass on.
#[tactic(auto, unfolding(crate::specs::Modular::mul_mod))]
fn mul_lazily(a: u32, b: u32) -> u32
    ensures { result % p ≡ mul_mod a b }
{
    reduce_lazily(a as u64 * b as u64)
}

#[tactic(auto, unfolding(crate::specs::Modular::neg_mod, crate::specs::Modular::sub_mod))]
pub fn neg(a: u32) -> u32
    ensures { result ≡ neg_mod a }
{
    sub(0, a)
}

// Powers by two rules that call each other. An odd exponent multiplies once and passes the rest to the even rule, which halves the exponent, squares the
// base and passes back: to the odd rule where the half is odd, else to itself. The exponent falls at each call. What was multiplied so far goes along, so
// that every call is the last thing its caller does. No product is reduced to the end.
#[cycle(power_even_power_odd)]
#[tactic(auto, using(crate::proofs::Laws::power_once))]
fn power_odd(product: u32, a: u32, e: u32) -> u32
    requires { e % 2 ≡ 1 }
    ensures { result % p ≡ mul_mod product (pow_mod a e) }
{
    power_even(mul_lazily(product, a), a, e - 1)
}

#[cycle(power_even_power_odd)]
#[tactic(auto, using(crate::proofs::Laws::power_done, crate::proofs::Laws::power_halved))]
fn power_even(product: u32, a: u32, e: u32) -> u32
    requires { e % 2 ≡ 0 }
    ensures { result % p ≡ mul_mod product (pow_mod a e) }
{
    if e == 0 {
        return product;
    }
    let half = e / 2;
    let square = mul_lazily(a, a);
    if half % 2 == 1 {
        power_odd(product, square, half)
    } else {
        power_even(product, square, half)
    }
}

#[tactic(auto, using(crate::proofs::Laws::power_from_one))]
pub fn pow(a: u32, e: u32) -> u32
    ensures { result ≡ pow_mod a e }
{
    if e % 2 == 1 {
        correct(power_odd(1, a, e))
    } else {
        correct(power_even(1, a, e))
    }
}

// The inverse of any number that p does not divide, and 0 of a multiple of p.
#[tactic(auto, unfolding(crate::specs::Modular::inv_mod))]
pub fn inv(a: u32) -> u32
    ensures { result ≡ inv_mod a }
{
    pow(a, MODULUS - 2)
}
