// The reader's state. The crate has no functions of its own: its definitions are the model of the reader, its theorem the claim about the model. The
// code that equals the model is in the crates above. Structs with C's layout are parts of the state that callers in C and Rust hold.
#![tactic(auto)]

use answer::Answer;
use params::Params;

// What the current item is. Tail: the file is whole, and one byte more would be too many. Stopped: refused or closed, no item is read any more.
#[derive(Clone, Copy, Debug, PartialEq, Eq)]
pub enum Stage {
    ParameterCount = 1,
    Parameters = 2,
    RootCount = 3,
    Root = 4,
    CoefficientCount = 5,
    Coefficient = 6,
    QueryCount = 7,
    Value = 8,
    Sibling = 9,
    Tail = 10,
    Stopped = 0,
}

// The sizes of the state's arrays: for 16 layers of one root each, 64 final coefficients, and leaves of 4 values.
pub const CHALLENGES: usize = 16;

pub const ROOTS: usize = 32 * CHALLENGES;

pub const COEFFICIENTS: usize = 64;

pub const VALUES: usize = 4;

// Where the current item stands: the bytes before it, and its coefficient, query, layer, value and height.
#[repr(C)]
#[derive(Clone, Copy, Default)]
pub struct Cursor {
    pub start: u32,
    pub coefficient: usize,
    pub query: u8,
    pub layer: u8,
    pub value: u8,
    pub height: u8,
}

// A query's walk: its index in the layer, the number of the node at its height, the leaf's values, what the next layer's value must meet (scale times
// it is folded), and the node.
#[repr(C)]
#[derive(Clone, Copy, Default)]
pub struct Walk {
    pub index: u32,
    pub position: u32,
    pub values: [u32; VALUES],
    pub scale: u32,
    pub folded: u32,
    pub node: [u8; 32],
}

// What changes from item to item. The answer is that of a stopped reader.
// Stays an answer beside the stage, and an item beside its fill (C interface: they are what a caller's memory holds).
#[derive(Clone, Copy)]
pub struct Core {
    pub stage: Stage,
    pub answer: Answer,
    pub fill: usize,
    pub item: [u8; 32],
    pub params: Params,
    pub cursor: Cursor,
    pub walk: Walk,
    pub transcript: [u8; 32],
}

// What sections 2 and 3 leave: the roots joined, the challenges, and the final coefficients.
#[repr(C)]
#[derive(Clone, Copy, Default)]
pub struct Tables {
    pub roots: [u8; ROOTS],
    pub challenges: [u32; CHALLENGES],
    pub coefficients: [u32; COEFFICIENTS],
}

// The reader's state: the small part, which goes from call to call by value, and the large one, which stays where it is.
#[derive(Clone, Copy)]
pub struct Reader {
    pub core: Core,
    pub tables: Tables,
}

// What a call gives: its answer, and the state that it leaves.
// Stays an answer beside a state (what may not change: `pieced` and `ended` of the model give a state beside a refusal too).
#[derive(Clone, Copy)]
pub struct Reply {
    pub answer: Answer,
    pub state: Reader,
}

// What a call on a state whose tables are lent gives: its answer, and the small part that it leaves.
// Stays an answer beside a state (what may not change: the contract of `reader::piece_in_place` names the fields).
#[derive(Clone, Copy)]
pub struct Progress {
    pub answer: Answer,
    pub core: Core,
}
