// The reader's state: the lengths of items, the stopped states, and the answers.
ghost use Rattle.std.specs.Prelude.{◌≡◌};
ghost use Rattle.answer.specs.Table.{answered, is_fault};
ghost use Rattle.answer.specs.Refusals.{number_of};
ghost use Rattle.reader_model.specs.State.{item_length, stopped, closed_state};
ghost use Rattle.reader_model.specs.Model.{is_stopped, is_tail, open_answer, told, answer_of};

use answer::{Answer, Refusal};
use reader_model::{Core, Cursor, Reader, Stage, Tables, Walk};

// The number of bytes of a stage's item.
pub fn item_length(stage: Stage) -> usize
    ensures { result ≡ item_length stage }
{
    // Stays a match (no plainer: the lengths are the format's, so no derive gives them).
    match stage {
        Stage::ParameterCount | Stage::RootCount | Stage::CoefficientCount | Stage::QueryCount => 2,
        Stage::Parameters => params::HEADER_SIZE,
        Stage::Coefficient | Stage::Value => 4,
        Stage::Root | Stage::Sibling => 32,
        Stage::Tail => 1,
        Stage::Stopped => 0,
    }
}

pub fn is_stopped(stage: Stage) -> bool
    ensures { result ≡ is_stopped stage }
{
    stage == Stage::Stopped
}

// Whether the file is whole.
pub fn is_tail(stage: Stage) -> bool
    ensures { result ≡ is_tail stage }
{
    stage == Stage::Tail
}

// Stopped with this refusal: nothing else is kept.
pub fn halt(refusal: Refusal, place: u32) -> Core
    ensures { result ≡ stopped (answered (number_of refusal) place) }
{
    Core {
        stage: Stage::Stopped,
        answer: refusal.at(place),
        fill: 0,
        item: [0; 32],
        params: params::from_header(&[]),
        cursor: Cursor::default(),
        walk: Walk::default(),
        transcript: [0; 32],
    }
}

pub fn closed_state() -> Reader
    ensures { result ≡ closed_state }
{
    Reader {
        core: halt(Refusal::Closed, 0),
        tables: Tables::default(),
    }
}

// The answer of a reader that is not stopped, of its item's start and fill.
// Stays a number (no plainer: it is 0, 1 or 26, and only the last is a refusal's).
#[tactic(auto, unfolding(reader_model::specs::Model::open_answer))]
pub fn open_answer(number: u8, start: u32, fill: usize) -> Answer
    ensures { result ≡ open_answer number start fill }
{
    if (fill <= 32) & (start < 2147483648) {
        let place = start + fill as u32;
        Answer { number, place }
    } else {
        Refusal::Closed.at(0)
    }
}

// What a byte of a file can get.
// Stays a number (C interface: it is what a caller's memory holds, whatever that is).
fn is_fault(number: u8) -> bool
    ensures { result ≡ is_fault number }
{
    (number == Refusal::CountDiffers.number())
        | (number == Refusal::ParametersDiffer.number())
        | (number == Refusal::NotBelowModulus.number())
        | (number == Refusal::PathMissesRoot.number())
        | (number == Refusal::NotTheFoldedValue.number())
        | (number == Refusal::MissesFinalPolynomial.number())
        | (number == Refusal::ByteAfterTheEnd.number())
}

// What a stopped reader tells of the answer that it keeps.
#[tactic(auto, unfolding(reader_model::specs::Model::told))]
fn tell(kept: Answer) -> Answer
    ensures { result ≡ told kept }
{
    if is_fault(kept.number) {
        kept
    } else {
        Refusal::Closed.at(0)
    }
}

// The answer of a reader in this state, where an open one answers with this number.
// Stays a number (no plainer), as in `open_answer`.
#[tactic(auto, unfolding(reader_model::specs::Model::answer_of))]
pub fn answer_of(c: Core, number: u8) -> Answer
    ensures { result ≡ answer_of c number }
{
    if is_stopped(c.stage) {
        tell(c.answer)
    } else {
        open_answer(number, c.cursor.start, c.fill)
    }
}
