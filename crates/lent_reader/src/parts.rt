// The small part of the state as arrays, by the width of its numbers. u8s: the stage's number, the cursor's query, layer, value and height, the answer's
// number, the parameter bytes. u32s: the cursor's start, the walk's index, position, scale and folded sum, the answer's place, the leaf's values. sizes:
// the fill, and the cursor's coefficient.
ghost use Rattle.std.specs.Prelude.{◌++◌, ◌≡◌, ◌+◌, length};
ghost use Rattle.params.specs.Parameters.{header_size};
ghost use Rattle.lent_reader.specs.Held.{number_of, stage_of, core_of, small, small_of};
ghost use Rattle.lent_reader.specs.Private.{front_of};

use crate::{SIZES, U8S, U32S};
use answer::Answer;
use reader_model::{Core, Cursor, Stage, VALUES, Walk};

// Stays a function: to a proof the cast is a match of eleven arms, which stands here once; no plainer.
fn number_of(stage: Stage) -> u8
    ensures { result ≡ number_of stage }
{
    stage as u8
}

// Every number is a stage: one that names none is a stopped reader's.
// Stays: no plainer; `From<u8>` would stand in `reader_model`, which has no functions, away from the arrays whose numbers these are.
#[tactic(auto, unfolding(crate::specs::Held::stage_of))]
fn stage_of(number: u8) -> Stage
    ensures { result ≡ stage_of number }
{
    match number {
        1 => Stage::ParameterCount,
        2 => Stage::Parameters,
        3 => Stage::RootCount,
        4 => Stage::Root,
        5 => Stage::CoefficientCount,
        6 => Stage::Coefficient,
        7 => Stage::QueryCount,
        8 => Stage::Value,
        9 => Stage::Sibling,
        10 => Stage::Tail,
        _ => Stage::Stopped,
    }
}

// What a piece that ends inside the current item needs to know.
// Stays: the C interface; the fill is a number that the caller holds apart from the item.
#[derive(Clone, Copy)]
pub struct Front {
    pub stage: Stage,
    pub start: u32,
    pub fill: usize,
}

// The contract tells the arrays' lengths too: a caller to whom they are lent has these from nowhere else.
pub fn front_of(u8s: [u8; U8S], u32s: [u32; U32S], sizes: [usize; SIZES]) -> Front
    ensures { (result ≡ front_of u8s u32s sizes) × ((length u8s ≡ 6 + header_size) × ((length u32s ≡ 10) × (length sizes ≡ 2))) }
{
    Front {
        stage: stage_of(u8s[0]),
        start: u32s[0],
        fill: sizes[0],
    }
}

// The small part, out of the arrays.
// Stays: no plainer; `From` would need a struct of the six arrays, which C lends apart, put together and taken apart at each call. So also `keep`.
pub fn core_of(
    u8s: [u8; U8S],
    u32s: [u32; U32S],
    sizes: [usize; SIZES],
    item: [u8; 32],
    node: [u8; 32],
    transcript: [u8; 32],
) -> Core
    ensures { result ≡ core_of (small u8s u32s sizes item node transcript) }
{
    Core {
        stage: stage_of(u8s[0]),
        answer: Answer {
            number: u8s[5],
            place: u32s[5],
        },
        fill: sizes[0],
        item,
        params: params::from_header(&u8s[6..]),
        cursor: Cursor {
            start: u32s[0],
            coefficient: sizes[1],
            query: u8s[1],
            layer: u8s[2],
            value: u8s[3],
            height: u8s[4],
        },
        walk: Walk {
            index: u32s[1],
            position: u32s[2],
            values: [u32s[6], u32s[7], u32s[8], u32s[9]],
            scale: u32s[3],
            folded: u32s[4],
            node,
        },
        transcript,
    }
}

// Puts the small part into the arrays, whatever they held.
pub fn keep(
    c: Core,
    u8s: &mut [u8; U8S],
    u32s: &mut [u32; U32S],
    sizes: &mut [usize; SIZES],
    item: &mut [u8; 32],
    node: &mut [u8; 32],
    transcript: &mut [u8; 32],
)
    ensures { small u8s.new u32s.new sizes.new item.new node.new transcript.new ≡ small_of c }
{
    let mut all = [0u8; U8S];
    all[0] = number_of(c.stage);
    all[1] = c.cursor.query;
    all[2] = c.cursor.layer;
    all[3] = c.cursor.value;
    all[4] = c.cursor.height;
    all[5] = c.answer.number;
    all[6..].copy_from_slice(&params::header(c.params));
    *u8s = all;
    let [first, second, third, fourth] = c.walk.values;
    *u32s = [
        c.cursor.start,
        c.walk.index,
        c.walk.position,
        c.walk.scale,
        c.walk.folded,
        c.answer.place,
        first,
        second,
        third,
        fourth,
    ];
    *sizes = [c.fill, c.cursor.coefficient];
    *item = c.item;
    *node = c.walk.node;
    *transcript = c.transcript;
}
