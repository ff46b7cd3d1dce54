// The reader as a caller holds it from call to call: arrays of numbers, lent to each call and changed in place. A piece that ends inside an item touches
// the item alone; for any other the small part is taken out of its arrays, goes through the reader by value, and is put back, and the tables change where
// they lie. Whatever numbers a caller hands in are a state, and no call has a `requires`.
#![tactic(auto)]

mod parts;

ghost use Rattle.std.specs.Prelude.{◌≡◌};
ghost use Rattle.sha256.specs.Sha256.{sha256};
ghost use Rattle.reader_model.specs.Model.{opened, pieced, ended};
ghost use Rattle.lent_reader.specs.Held.{held, reader_of, outcome, outcome_of};

use answer::Answer;
use params::Terms;
use reader_model::{CHALLENGES, COEFFICIENTS, ROOTS, Reader, Reply, Tables};

// The sizes of the arrays that hold the small part's single numbers: six of one byte and the parameter bytes; six of four bytes and the leaf's values;
// and two of eight bytes.
pub const U8S: usize = 6 + params::HEADER_SIZE;

pub const U32S: usize = 6 + reader_model::VALUES;

pub const SIZES: usize = 2;

// Leaves a reply's state in the arrays, whatever they held, and gives its answer.
// Stays: the C interface; the nine arrays travel apart, as C lends them, in every function of this file.
fn hand_over(
    reply: Reply,
    u8s: &mut [u8; U8S],
    u32s: &mut [u32; U32S],
    sizes: &mut [usize; SIZES],
    item: &mut [u8; 32],
    node: &mut [u8; 32],
    transcript: &mut [u8; 32],
    roots: &mut [u8; ROOTS],
    challenges: &mut [u32; CHALLENGES],
    coefficients: &mut [u32; COEFFICIENTS],
) -> Answer
    ensures { outcome result u8s.new u32s.new sizes.new item.new node.new transcript.new roots.new challenges.new coefficients.new ≡ outcome_of reply }
{
    parts::keep(reply.state.core, u8s, u32s, sizes, item, node, transcript);
    let Tables {
        roots: r,
        challenges: h,
        coefficients: k,
    } = reply.state.tables;
    *roots = r;
    *challenges = h;
    *coefficients = k;
    reply.answer
}

// The opening. All arrays are written, whatever they held.
pub fn open(
    a: Terms,
    u8s: &mut [u8; U8S],
    u32s: &mut [u32; U32S],
    sizes: &mut [usize; SIZES],
    item: &mut [u8; 32],
    node: &mut [u8; 32],
    transcript: &mut [u8; 32],
    roots: &mut [u8; ROOTS],
    challenges: &mut [u32; CHALLENGES],
    coefficients: &mut [u32; COEFFICIENTS],
) -> Answer
    ensures { outcome result u8s.new u32s.new sizes.new item.new node.new transcript.new roots.new challenges.new coefficients.new ≡ outcome_of (opened sha256 a) }
{
    let first = reader::open(a);
    hand_over(
        first,
        u8s,
        u32s,
        sizes,
        item,
        node,
        transcript,
        roots,
        challenges,
        coefficients,
    )
}

// A piece that is read at once: the state is taken out of the arrays and put back. Apart from `piece`, whose short way needs few registers.
#[inline(never)]
pub fn read(
    u8s: &mut [u8; U8S],
    u32s: &mut [u32; U32S],
    sizes: &mut [usize; SIZES],
    item: &mut [u8; 32],
    bytes: &[u8],
    node: &mut [u8; 32],
    transcript: &mut [u8; 32],
    roots: &mut [u8; ROOTS],
    challenges: &mut [u32; CHALLENGES],
    coefficients: &mut [u32; COEFFICIENTS],
) -> Answer
    ensures { outcome result u8s.new u32s.new sizes.new item.new node.new transcript.new roots.new challenges.new coefficients.new ≡ outcome_of (pieced sha256 (reader_of (held u8s.old u32s.old sizes.old item.old node.old transcript.old roots.old challenges.old coefficients.old)) bytes.now) }
{
    let core = parts::core_of(*u8s, *u32s, *sizes, *item, *node, *transcript);
    let progress = reader::piece_in_place(core, roots, challenges, coefficients, bytes);
    parts::keep(progress.core, u8s, u32s, sizes, item, node, transcript);
    progress.answer
}

// A piece, of any number of bytes. What a short piece touches comes first, so that all of it goes in registers.
// Stays (C interface): the nine arrays travel apart.
pub fn piece(
    u8s: &mut [u8; U8S],
    u32s: &mut [u32; U32S],
    sizes: &mut [usize; SIZES],
    item: &mut [u8; 32],
    bytes: &[u8],
    node: &mut [u8; 32],
    transcript: &mut [u8; 32],
    roots: &mut [u8; ROOTS],
    challenges: &mut [u32; CHALLENGES],
    coefficients: &mut [u32; COEFFICIENTS],
) -> Answer
    ensures { outcome result u8s.new u32s.new sizes.new item.new node.new transcript.new roots.new challenges.new coefficients.new ≡ outcome_of (pieced sha256 (reader_of (held u8s.old u32s.old sizes.old item.old node.old transcript.old roots.old challenges.old coefficients.old)) bytes.now) }
{
    let front = parts::front_of(*u8s, *u32s, *sizes);
    if reader::fill_item(front.stage, front.fill, item, bytes) {
        let filled = front.fill + bytes.len();
        sizes[0] = filled;
        reader::open_answer(front.start, filled)
    } else {
        read(
            u8s,
            u32s,
            sizes,
            item,
            bytes,
            node,
            transcript,
            roots,
            challenges,
            coefficients,
        )
    }
}

// The end call. It leaves the closed state.
pub fn end(
    u8s: &mut [u8; U8S],
    u32s: &mut [u32; U32S],
    sizes: &mut [usize; SIZES],
    item: &mut [u8; 32],
    node: &mut [u8; 32],
    transcript: &mut [u8; 32],
    roots: &mut [u8; ROOTS],
    challenges: &mut [u32; CHALLENGES],
    coefficients: &mut [u32; COEFFICIENTS],
) -> Answer
    ensures { outcome result u8s.new u32s.new sizes.new item.new node.new transcript.new roots.new challenges.new coefficients.new ≡ outcome_of (ended (reader_of (held u8s.old u32s.old sizes.old item.old node.old transcript.old roots.old challenges.old coefficients.old))) }
{
    let state = Reader {
        core: parts::core_of(*u8s, *u32s, *sizes, *item, *node, *transcript),
        tables: Tables {
            roots: *roots,
            challenges: *challenges,
            coefficients: *coefficients,
        },
    };
    let last = reader::end(state);
    hand_over(
        last,
        u8s,
        u32s,
        sizes,
        item,
        node,
        transcript,
        roots,
        challenges,
        coefficients,
    )
}
