// Runs lists of calls, for the comparison with an independent program. Standard input is a run of scripts: n, b, k, q, 32 context bytes, the
// number of calls in 2 bytes, then the calls. A call is 2 bytes: ffff is the end call, any other number a piece of that many bytes, which follow.
// Numbers stand low byte first. Output: for each script `open NUMBER PLACE`, then a line `NUMBER PLACE` for each call.
#![tactic(auto)]

ghost use Rattle.std.specs.Prelude.{◌≡◌, ◌<◌, IfOk, OnOk, IfSome, IsTrue};
ghost use Rattle.std.specs.Io.KnownBytes.{Appends};
ghost use Rattle.reader_model.specs.Model.{ended};
ghost use Rattle.call_lists.specs.Lists.{answer_line, RunsPiece, RunsCall, RunsCalls, RunsOpened, RunsScript};

use answer::Answer;
use params::Terms;
use reader_model::Reader;
use std::io;
use std::io::{Read, Write};

// What stands for a piece's length in an end call.
const END: u16 = u16::MAX;

fn print_answer<W: Write>(out: &mut W, a: Answer) -> io::Result<()>
    ensures { OnOk result (Appends (W.contents out.old) (W.contents out.new) (answer_line a)) }
{
    let Answer { number, place } = a;
    writeln!(out, "{number} {place}")
}

// The end call; the state that it left.
fn run_end<W: Write>(out: &mut W, state: Reader) -> io::Result<Reader>
    ensures left { IfOk result (λ next. next ≡ (ended state).state) }
    ensures told { OnOk result (Appends (W.contents out.old) (W.contents out.new) (answer_line (ended state).answer)) }
{
    let reply = reader::end(state);
    print_answer(out, reply.answer)?;
    Ok(reply.state)
}

// A piece of len bytes, and the state that it left; none where the input ends before. Every length in 2 bytes fits the buffer.
// Stays with input, output and state apart, here and in the calls below: a struct would hold two lent ends only to be taken apart in each contract.
fn run_piece<R: Read, W: Write>(
    input: &mut R,
    out: &mut W,
    state: Reader,
    len: usize,
) -> io::Result<Option<Reader>>
    requires { len < 65536 }
    ensures { IfOk result (λ left. IfSome left (RunsPiece (R.remaining input.old) (R.remaining input.new) (W.contents out.old) (W.contents out.new) state len)) }
{
    let mut buf = [0u8; 65536];
    let Some(bytes) = streams::read_front(input, &mut buf, len)? else {
        return Ok(None);
    };
    let reply = reader::piece(state, bytes);
    print_answer(out, reply.answer)?;
    Ok(Some(reply.state))
}

// One call, and the state that it left; none where the input ends before.
fn run_call<R: Read, W: Write>(
    input: &mut R,
    out: &mut W,
    state: Reader,
) -> io::Result<Option<Reader>>
    ensures { IfOk result (λ left. IfSome left (RunsCall (R.remaining input.old) (R.remaining input.new) (W.contents out.old) (W.contents out.new) state)) }
{
    let Some(size) = streams::read_array(input)? else {
        return Ok(None);
    };
    let len = u16::from_le_bytes(size);
    if len == END {
        let next = run_end(out, state)?;
        return Ok(Some(next));
    }
    run_piece(input, out, state, len as usize)
}

// The calls of a script, each on the state that the call before it left; false where the input ends among them.
fn run_calls<R: Read, W: Write>(
    input: &mut R,
    out: &mut W,
    state: Reader,
    count: usize,
) -> io::Result<bool>
    ensures { IfOk result (λ whole. IsTrue whole → RunsCalls (R.remaining input.old) (R.remaining input.new) (W.contents out.old) (W.contents out.new) state count) }
{
    let mut s = state;
    for _ in 0..count {
        let Some(next) = run_call(input, out, s)? else {
            return Ok(false);
        };
        s = next;
    }
    Ok(true)
}

// The opening, also one that is refused, and the calls.
fn run_opened<R: Read, W: Write>(
    input: &mut R,
    out: &mut W,
    a: Terms,
    count: usize,
) -> io::Result<bool>
    ensures { IfOk result (λ whole. IsTrue whole → RunsOpened (R.remaining input.old) (R.remaining input.new) (W.contents out.old) (W.contents out.new) a count) }
{
    let opened = reader::open(a);
    out.write_all(b"open ")?;
    print_answer(out, opened.answer)?;
    run_calls(input, out, opened.state, count)
}

// One script; false at the end of the input.
fn run_script<R: Read, W: Write>(input: &mut R, out: &mut W) -> io::Result<bool>
    ensures { IfOk result (λ whole. IsTrue whole → RunsScript (R.remaining input.old) (R.remaining input.new) (W.contents out.old) (W.contents out.new)) }
{
    let Some(header) = streams::read_array::<{ params::HEADER_SIZE }, R>(input)? else {
        return Ok(false);
    };
    let Some(context) = streams::read_array(input)? else {
        return Ok(false);
    };
    let Some(count) = streams::read_array(input)? else {
        return Ok(false);
    };
    let params = params::from_header(&header);
    let count = u16::from_le_bytes(count) as usize;
    run_opened(input, out, Terms { params, context }, count)
}

fn main(rt: HostRuntime) -> io::Result<()> {
    // A bound far above the number of scripts, so that the loop ends whatever the input holds.
    for _ in 0..u32::MAX {
        if !run_script(&mut rt.stdin(), &mut rt.stdout())? {
            break;
        }
    }
    Ok(())
}
