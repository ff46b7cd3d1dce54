// SHA-256 (FIPS 180-4) of a message of at most 4,096 bytes. The definitions that the contracts cite are in specs/.
// The hash value, of eight words, and the message schedule, sixteen words of it at a time, go in and come back by value.
#![tactic(auto)]

ghost use Rattle.std.specs.Prelude.{◌≡◌, ℕ, ◌+◌, ◌*◌, ◌/◌, ◌%◌, ◌^◌, ◌<◌, ◌≤◌, [], ◌∷◌, ◌++◌, length, slice_index};
ghost use Rattle.std.specs.Int.Bits.{bit_xor};
ghost use Rattle.sha256.specs.Words.{rotr, ch, maj, big_sigma0, big_sigma1, small_sigma0, small_sigma1};
ghost use Rattle.sha256.specs.Constants.{round_constants};
ghost use Rattle.sha256.specs.Sha256 as spec;
ghost use Rattle.sha256.specs.Hash.{hashed};
ghost use Rattle.sha256.specs.Private.{Turns, LastRounds};

use answer::{Answer, Refusal};
use std::array::from_fn;

// The longest message that is hashed, in bytes.
pub const LONGEST: usize = 4096;

// The answer to a message, and beside it the digest, or zeros beside a refusal.
// Stays a flag with a value beside it (what may not change: `hashed`, the contract of `hash`, has zeros beside 14).
#[repr(C)]
#[derive(Clone, Copy)]
pub struct Hashed {
    pub answer: Answer,
    pub digest: [u8; 32],
}

// The round constants, 4.2.2.
const K: [u32; 64] = [
    0x428a2f98, 0x71374491, 0xb5c0fbcf, 0xe9b5dba5, 0x3956c25b, 0x59f111f1, 0x923f82a4, 0xab1c5ed5,
    0xd807aa98, 0x12835b01, 0x243185be, 0x550c7dc3, 0x72be5d74, 0x80deb1fe, 0x9bdc06a7, 0xc19bf174,
    0xe49b69c1, 0xefbe4786, 0x0fc19dc6, 0x240ca1cc, 0x2de92c6f, 0x4a7484aa, 0x5cb0a9dc, 0x76f988da,
    0x983e5152, 0xa831c66d, 0xb00327c8, 0xbf597fc7, 0xc6e00bf3, 0xd5a79147, 0x06ca6351, 0x14292967,
    0x27b70a85, 0x2e1b2138, 0x4d2c6dfc, 0x53380d13, 0x650a7354, 0x766a0abb, 0x81c2c92e, 0x92722c85,
    0xa2bfe8a1, 0xa81a664b, 0xc24b8b70, 0xc76c51a3, 0xd192e819, 0xd6990624, 0xf40e3585, 0x106aa070,
    0x19a4c116, 0x1e376c08, 0x2748774c, 0x34b0bcb5, 0x391c0cb3, 0x4ed8aa4a, 0x5b9cca4f, 0x682e6ff3,
    0x748f82ee, 0x78a5636f, 0x84c87814, 0x8cc70208, 0x90befffa, 0xa4506ceb, 0xbef9a3f7, 0xc67178f2,
];

// Ch, (4.2), by fewer operations than its definition has: z, changed to y where x is set.
fn choose(x: u32, y: u32, z: u32) -> u32
    ensures { result ≡ ch x y z }
{
    z ^ (x & (y ^ z))
}

// Maj, (4.3), by fewer operations than its definition has: where x and y agree it is y, else z. The next round has this round's x ^ y again,
// as its y ^ z.
fn majority(x: u32, y: u32, z: u32) -> u32
    ensures { result ≡ maj x y z }
{
    y ^ ((x ^ y) & (y ^ z))
}

// Two rotations of x, by p and by p + q, of which one is saved: x and its rotation by q are turned by p together.
fn turned_twice(x: u32, p: u32, q: u32) -> u32
    requires { (0 < p) × (0 < q) × (p + q < 32) }
    ensures { result ≡ bit_xor (rotr p x) (rotr (p + q) x) }
{
    (x ^ x.rotate_right(q)).rotate_right(p)
}

// The functions (4.4) to (4.7). A rotation saved makes it longer from x to the value, and a round waits longest for the value of big_sigma1,
// which is left as it is defined.
fn big_sigma0(x: u32) -> u32
    ensures { result ≡ big_sigma0 x }
{
    turned_twice(x, 2, 11) ^ x.rotate_right(22)
}

fn big_sigma1(x: u32) -> u32
    ensures { result ≡ big_sigma1 x }
{
    x.rotate_right(6) ^ x.rotate_right(11) ^ x.rotate_right(25)
}

// Stays beside small_sigma1 (no plainer: each is a function of the standard; one for both would name three numbers at every call).
fn small_sigma0(x: u32) -> u32
    ensures { result ≡ small_sigma0 x }
{
    turned_twice(x, 7, 11) ^ (x >> 3)
}

fn small_sigma1(x: u32) -> u32
    ensures { result ≡ small_sigma1 x }
{
    turned_twice(x, 17, 2) ^ (x >> 10)
}

// Round t, 6.2.2 step 3, with its word of the schedule.
fn round(s: [u32; 8], t: usize, w: u32) -> [u32; 8]
    requires { t < 64 }
    ensures { result ≡ spec.round s (slice_index round_constants t) w }
{
    let [a, b, c, d, e, f, g, h] = s;
    let t1 = h
        .wrapping_add(big_sigma1(e))
        .wrapping_add(choose(e, f, g))
        .wrapping_add(K[t])
        .wrapping_add(w);
    let t2 = big_sigma0(a).wrapping_add(majority(a, b, c));
    let x = t1.wrapping_add(t2);
    let y = d.wrapping_add(t1);
    [x, a, b, c, y, e, f, g]
}

// A word of the schedule, 6.2.2 step 1, from the words 16, 15, 7 and 2 places before it.
fn next_word(w0: u32, w1: u32, w9: u32, w14: u32) -> u32
    ensures { result ≡ (small_sigma1 w14 + w9 + small_sigma0 w1 + w0) % 2 ^ 32 }
{
    small_sigma1(w14)
        .wrapping_add(w9)
        .wrapping_add(small_sigma0(w1))
        .wrapping_add(w0)
}

// What a turn leaves: the working variables eight rounds on, and the sixteen words of the schedule from there.
#[derive(Clone, Copy)]
struct Later {
    state: [u32; 8],
    words: [u32; 16],
}

// Eight rounds from round t, on the working variables and on the sixteen words of the schedule from word t. Beside each round stands a word that
// is needed two turns on: a round waits for the round before it, and the processor fills the wait with the word. Every place in the sixteen
// words is a number here, so that no array is left in the compiled code.
fn turn(s: [u32; 8], w: [u32; 16], t: usize) -> Later
    requires { t ≤ 40 }
    ensures { Turns t s w result.state result.words }
{
    let s0 = round(s, t, w[0]);
    let x0 = next_word(w[0], w[1], w[9], w[14]);
    let s1 = round(s0, t + 1, w[1]);
    let x1 = next_word(w[1], w[2], w[10], w[15]);
    let s2 = round(s1, t + 2, w[2]);
    let x2 = next_word(w[2], w[3], w[11], x0);
    let s3 = round(s2, t + 3, w[3]);
    let x3 = next_word(w[3], w[4], w[12], x1);
    let s4 = round(s3, t + 4, w[4]);
    let x4 = next_word(w[4], w[5], w[13], x2);
    let s5 = round(s4, t + 5, w[5]);
    let x5 = next_word(w[5], w[6], w[14], x3);
    let s6 = round(s5, t + 6, w[6]);
    let x6 = next_word(w[6], w[7], w[15], x4);
    let s7 = round(s6, t + 7, w[7]);
    let x7 = next_word(w[7], w[8], x0, x5);
    let words = [
        w[8], w[9], w[10], w[11], w[12], w[13], w[14], w[15], x0, x1, x2, x3, x4, x5, x6, x7,
    ];
    Later { state: s7, words }
}

// The last sixteen rounds: the words that they need are all there.
// Stays eight to a turn (tried one by one: 10.9 % more instructions at 4,096 bytes).
fn last_rounds(start: [u32; 8], w: [u32; 16]) -> [u32; 8]
    ensures { LastRounds w start result }
{
    let mut s = start;
    for n in (0..16).step_by(8) {
        let s0 = round(s, n + 48, w[n]);
        let s1 = round(s0, n + 49, w[n + 1]);
        let s2 = round(s1, n + 50, w[n + 2]);
        let s3 = round(s2, n + 51, w[n + 3]);
        let s4 = round(s3, n + 52, w[n + 4]);
        let s5 = round(s4, n + 53, w[n + 5]);
        let s6 = round(s5, n + 54, w[n + 6]);
        let s7 = round(s6, n + 55, w[n + 7]);
        s = s7;
    }
    s
}

// The 64 rounds on a block, 6.2.2 steps 1 to 3, eight to a turn, so that the working variables stay in registers. The block's words are the first
// sixteen of the schedule.
fn rounds(h: [u32; 8], m: [u32; 16]) -> [u32; 8]
    ensures { result ≡ spec.rounds (spec.schedule m 48) h 64 }
{
    let mut s = h;
    let mut w = m;
    for n in (0..48).step_by(8) {
        let Later { state, words } = turn(s, w, n);
        s = state;
        w = words;
    }
    last_rounds(s, w)
}

// The sums of the words of two hash values, 6.2.2 step 4.
fn add_words(a: [u32; 8], b: [u32; 8]) -> [u32; 8]
    ensures { result ≡ spec.add_words a b }
{
    from_fn(
        |i|
            requires { i < 8 }
        { a[i].wrapping_add(b[i]) },
    )
}

// The next hash value, 6.2.2.
fn compress(h: [u32; 8], m: [u32; 16]) -> [u32; 8]
    ensures { result ≡ spec.compress h m }
{
    add_words(h, rounds(h, m))
}

// The sixteen words of a block, 5.2.1.
fn words_of(block: &[u8; 64]) -> [u32; 16]
    ensures { result ≡ spec.block block.now 0 }
{
    from_fn(
        |j|
            requires { j < 16 }
        {
            let at = j * 4;
            u32::from_be_bytes([block[at], block[at + 1], block[at + 2], block[at + 3]])
        },
    )
}

// What a block that begins at `start` has of the message and of the one bit after it, 5.1.1: zeros from there.
fn end_of(m: &[u8], start: usize) -> [u8; 64]
    requires { length m.now < start + 64 }
    ensures { (j : ℕ) → j < 64 → slice_index result j ≡ slice_index (m.now ++ 0x80 ∷ []) (start + j) }
{
    let mut block = [0u8; 64];
    if start <= m.len() {
        let rest = &m[start..];
        block[..rest.len()].copy_from_slice(rest);
        block[rest.len()] = 0x80;
    }
    block
}

// Block i of the padded message, 5.1.1, one of its last two. The last one has the message's length, in bits.
fn last_block(m: &[u8], i: usize) -> [u8; 64]
    requires count { i < (length m.now + 72) / 64 }
    requires end { length m.now < i * 64 + 64 }
    ensures { (j : ℕ) → j < 64 → slice_index result j ≡ slice_index (spec.pad m.now) (i * 64 + j) }
{
    let mut block = end_of(m, i * 64);
    if i == (m.len() + 8) / 64 {
        let bits = (m.len() as u64).wrapping_mul(8);
        block[56..].copy_from_slice(&bits.to_be_bytes());
    }
    block
}

// The sixteen words of block i of the padded message. A block that lies in the message is read there.
fn load(m: &[u8], i: usize) -> [u32; 16]
    requires { i < (length m.now + 72) / 64 }
    ensures { result ≡ spec.block (spec.pad m.now) i }
{
    let (whole, _) = m.as_chunks::<64>();
    match whole.get(i) {
        Some(block) => words_of(block),
        None => words_of(&last_block(m, i)),
    }
}

// The eight words as bytes, the highest byte of each first.
fn bytes_of(h: [u32; 8]) -> [u8; 32]
    ensures { result ≡ spec.bytes_of h }
{
    from_fn(
        |i|
            requires { i < 32 }
        { h[i / 4].to_be_bytes()[i % 4] },
    )
}

// The hash value after the blocks of the padded message, 6.2.2.
fn absorb(m: &[u8]) -> [u32; 8]
    ensures { result ≡ spec.absorb (spec.pad m.now) ((length m.now + 72) / 64) }
{
    let mut h: [u32; 8] = [
        0x6a09e667, 0xbb67ae85, 0x3c6ef372, 0xa54ff53a, 0x510e527f, 0x9b05688c, 0x1f83d9ab,
        0x5be0cd19,
    ];
    for i in 0..(m.len() + 72) / 64 {
        let next = compress(h, load(m, i));
        h = next;
    }
    h
}

// The digest of a message of at most 4,096 bytes; of a longer one, number 14 and zeros.
pub fn hash(message: &[u8]) -> Hashed
    ensures { result ≡ hashed message.now }
{
    if message.len() > LONGEST {
        return Hashed {
            answer: Refusal::MessageTooLong.at(0),
            digest: [0; 32],
        };
    }
    Hashed {
        answer: Answer {
            number: answer::OPEN,
            place: 0,
        },
        digest: bytes_of(absorb(message)),
    }
}
