// Jobs: the parameter bytes, 32 context bytes, then the proof. A job is fed in chunks, with fixed memory, and judged at its end. Nothing here reads or
// writes: a program moves the bytes, and decides nothing.
#![tactic(auto)]

ghost use Rattle.std.specs.Prelude.{◌≡◌, ◌-◌, ◌≤◌, length};
ghost use Rattle.job.specs.Job.{head_size, terms_in};
ghost use Rattle.job.specs.Chunks.{opened_by, begun, fed_chunk, finished, is_settled};

use answer::{Answer, Refusal};
use params::Terms;
use reader_model::{Reader, Reply};

// The bytes of a job's head, parameters and context.
const HEAD_SIZE: usize = params::HEADER_SIZE + 32;

// A job so far: how many bytes of its head came, the head, zeros where none came yet, and the reader that the proof goes to, closed until the head is
// whole.
// Stays a buffer with a count beside it: fixed memory, and the definitions of `specs/Chunks`, as `taken`, name the fields.
#[derive(Clone, Copy)]
pub struct Job {
    pub got: usize,
    pub head: [u8; HEAD_SIZE],
    pub reader: Reader,
}

// What a head asks for.
fn terms_in(head: [u8; HEAD_SIZE]) -> Terms
    ensures { result ≡ terms_in head }
{
    let mut context = [0u8; 32];
    context.copy_from_slice(&head[params::HEADER_SIZE..]);
    let params = params::from_header(&head);
    Terms { params, context }
}

// The reader that a whole head opens.
fn open_reader(head: [u8; HEAD_SIZE]) -> Reader
    ensures { result ≡ opened_by head }
{
    reader::open(terms_in(head)).state
}

// Bytes of the head: the one that makes it whole opens the reader.
fn head_bytes(state: Job, bytes: &[u8]) -> Job
    requires { length bytes.now ≤ head_size - state.got }
    ensures { result ≡ fed_chunk state bytes.now }
{
    if bytes.is_empty() {
        return state;
    }
    let got = state.got + bytes.len();
    let mut head = state.head;
    buffer::put(&mut head, state.got, bytes);
    let reader = if got == HEAD_SIZE {
        open_reader(head)
    } else {
        state.reader
    };
    Job { got, head, reader }
}

// Bytes of the proof, after a whole head.
fn proof_bytes(state: Job, bytes: &[u8]) -> Job
    requires { head_size ≤ state.got }
    ensures { result ≡ fed_chunk state bytes.now }
{
    let Reply { state: reader, .. } = reader::piece(state.reader, bytes);
    Job { reader, ..state }
}

// A job of which no byte came yet.
pub fn begin() -> Job
    ensures { result ≡ begun }
{
    let reader = reader::closed();
    Job {
        got: 0,
        head: [0u8; HEAD_SIZE],
        reader,
    }
}

// The job with a chunk more, of any bytes or none.
pub fn feed(state: Job, chunk: &[u8]) -> Job
    ensures { result ≡ fed_chunk state chunk.now }
{
    let missing = HEAD_SIZE.saturating_sub(state.got);
    match chunk.split_at_checked(missing) {
        Some((head, proof)) => proof_bytes(head_bytes(state, head), proof),
        None => head_bytes(state, chunk),
    }
}

// The answer to the job, if it ends here.
pub fn finish(state: Job) -> Answer
    ensures { result ≡ finished state }
{
    if state.got < HEAD_SIZE {
        return Refusal::JobTooShort.at(state.got as u32);
    }
    match params::admitted(params::from_header(&state.head)) {
        Ok(_) => reader::end(state.reader).answer,
        Err(refusal) => refusal.at(0),
    }
}

// Whether no byte more can change the job's answer, so that the rest need not be read.
pub fn settled(state: Job) -> bool
    ensures { result ≡ is_settled state }
{
    HEAD_SIZE <= state.got && reader::is_stopped(state.reader.core.stage)
}
