// The streaming reader of FRI proofs. The file is a run of items of at most 32 bytes; bytes are gathered in a buffer, and whatever is decided is decided
// at an item's last byte. Every function equals its definition in the crate below, with SHA-256 for the hash.
#![tactic(auto)]

ghost use Rattle.std.specs.Prelude.{◌≡◌, ◌+◌, ltb};
ghost use Rattle.sha256.specs.Sha256.{sha256};
ghost use Rattle.reader_model.specs.State.{item_length, closed_state, whole};
ghost use Rattle.answer.specs.Table.{open_so_far};
ghost use Rattle.reader_model.specs.Model.{is_stopped, open_answer, started, replied, pieced, ends_inside, filled_item, ended, opened};

use answer::{Answer, Refusal};
use params::{Params, Terms};
use reader_model::{
    CHALLENGES, COEFFICIENTS, Core, Cursor, Progress, ROOTS, Reader, Reply, Stage, Tables, Walk,
};
use transcript::Transcript;

// A piece: its answer, and the small part of the state after it; the tables are lent and changed in place.
// Stays three arrays (C interface: `lent_reader` passes C's on; what may not change: the contract of `piece_in_place`).
#[tactic(auto, unfolding(reader_model::specs::Model::pieced))]
pub fn piece_in_place(
    core: Core,
    roots: &mut [u8; ROOTS],
    challenges: &mut [u32; CHALLENGES],
    coefficients: &mut [u32; COEFFICIENTS],
    bytes: &[u8],
) -> Progress
    ensures { replied result.answer result.core roots.new challenges.new coefficients.new ≡ pieced sha256 (whole core roots.old challenges.old coefficients.old) bytes.now }
{
    let next = reader_pieces::feed(core, roots, challenges, coefficients, bytes);
    let answer = reader_items::state::answer_of(next, answer::OPEN);
    Progress { answer, core: next }
}

// Whether a piece of n bytes ends inside the current item, so that nothing is decided.
fn ends_inside(stage: Stage, fill: usize, n: usize) -> bool
    ensures { result ≡ ltb (fill + n) (item_length stage) }
{
    let need = reader_items::state::item_length(stage);
    n < need && fill < need - n
}

// A piece that ends inside the current item touches nothing but the item's buffer, which is lent: whether this is such a piece. Any other is left to be
// read. Small pieces are common where bytes come off the wire.
#[tactic(auto, unfolding(reader_model::specs::Model::filled_item))]
pub fn fill_item(stage: Stage, fill: usize, item: &mut [u8; 32], bytes: &[u8]) -> bool
    ensures inside { result ≡ ends_inside stage fill bytes.now }
    ensures item { item.new ≡ filled_item stage fill item.old bytes.now }
{
    let inside = ends_inside(stage, fill, bytes.len());
    if inside {
        reader_pieces::gather(item, fill, bytes);
    }
    inside
}

// The answer of an open reader, of its item's start and fill.
pub fn open_answer(start: u32, fill: usize) -> Answer
    ensures { result ≡ open_answer open_so_far start fill }
{
    reader_items::state::open_answer(answer::OPEN, start, fill)
}

// Whether a reader at this stage is refused or closed, so that no byte changes it any more.
pub fn is_stopped(stage: Stage) -> bool
    ensures { result ≡ is_stopped stage }
{
    reader_items::state::is_stopped(stage)
}

// The closed state.
pub fn closed() -> Reader
    ensures { result ≡ closed_state }
{
    reader_items::state::closed_state()
}

// A piece by value: its answer, and the state after it.
pub fn piece(state: Reader, bytes: &[u8]) -> Reply
    ensures { result ≡ pieced sha256 state bytes.now }
{
    let mut tables = state.tables;
    let progress = piece_in_place(
        state.core,
        &mut tables.roots,
        &mut tables.challenges,
        &mut tables.coefficients,
        bytes,
    );
    let next = progress.core;
    Reply {
        answer: progress.answer,
        state: Reader { core: next, tables },
    }
}

// The end call: it leaves the closed state.
#[tactic(auto, unfolding(reader_model::specs::Model::ended))]
pub fn end(state: Reader) -> Reply
    ensures { result ≡ ended state }
{
    let number = if reader_items::state::is_tail(state.core.stage) {
        answer::ACCEPTED
    } else {
        Refusal::TooFewBytes.number()
    };
    Reply {
        answer: reader_items::state::answer_of(state.core, number),
        state: reader_items::state::closed_state(),
    }
}

// The state before any byte, from the transcript's first state.
#[tactic(auto, unfolding(reader_model::specs::Model::started))]
fn start(p: Params, transcript: [u8; 32]) -> Reader
    ensures { result ≡ started p transcript }
{
    let core = Core {
        stage: Stage::ParameterCount,
        answer: Answer {
            number: answer::OPEN,
            place: 0,
        },
        fill: 0,
        item: [0; 32],
        params: p,
        cursor: Cursor::default(),
        walk: Walk::default(),
        transcript,
    };
    Reader {
        core,
        tables: Tables::default(),
    }
}

// The opening.
#[tactic(auto, unfolding(reader_model::specs::Model::opened))]
pub fn open(a: Terms) -> Reply
    ensures { result ≡ opened sha256 a }
{
    match params::admitted(a.params) {
        Ok(_) => Reply {
            answer: Answer {
                number: answer::OPEN,
                place: 0,
            },
            state: start(a.params, Transcript::start(a.params, a.context).state),
        },
        Err(refusal) => Reply {
            answer: refusal.at(0),
            state: reader_items::state::closed_state(),
        },
    }
}
