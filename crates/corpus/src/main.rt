// Judges the jobs of the file `jobs` and writes the line of each. A job stands after its length, 4 bytes, low byte first.
#![tactic(auto)]

ghost use Rattle.std.specs.Prelude.{IfOk, IfSome, IsTrue, IsFalse};
ghost use Rattle.std.specs.Io.KnownBytes.{Keeps};
ghost use Rattle.corpus.specs.Jobs.{TakesJob, TellsJob};

use answer::Answer;
use std::io::{Read, Write};
use std::{fs, io};

// How much of a job one read asks for.
const CHUNK: usize = 4096;

// Reads a job of so many bytes, and finds its answer; none where the file ends before.
fn read_job<R: Read>(input: &mut R, count: u32) -> io::Result<Option<Answer>>
    ensures { IfOk result (λ found. IfSome found (TakesJob (R.remaining input.old) (R.remaining input.new) count)) }
{
    let mut state = job::begin();
    let mut rest = count as usize;
    // Stays a `while` (no plainer: it counts no index, and a `for` over the parts would keep `rest` beside it).
    while rest > 0 {
        let mut buf = [0u8; CHUNK];
        let want = rest.min(CHUNK);
        let Some(bytes) = streams::read_front(input, &mut buf, want)? else {
            return Ok(None);
        };
        state = job::feed(state, bytes);
        rest -= want;
    }
    Ok(Some(job::finish(state)))
}

// One job; false where the file ends.
fn run_job<R: Read, W: Write>(input: &mut R, out: &mut W) -> io::Result<bool>
    ensures told { IfOk result (λ more. IsTrue more → TellsJob (R.remaining input.old) (R.remaining input.new) (W.contents out.old) (W.contents out.new)) }
    ensures ended { IfOk result (λ more. IsFalse more → Keeps (W.contents out.old) (W.contents out.new)) }
{
    let Some(size) = streams::read_array(input)? else {
        return Ok(false);
    };
    let Some(answer) = read_job(input, u32::from_le_bytes(size))? else {
        return Ok(false);
    };
    streams::write_line(out, answer)?;
    Ok(true)
}

fn main(rt: HostRuntime) -> io::Result<()> {
    let mut file = match fs::open(&rt, "jobs") {
        Ok(file) => file,
        Err(e) => return eprintln!(rt; "jobs: {e}"),
    };
    // A bound well above the number of jobs, so that the loop ends whatever the file holds.
    for _ in 0..100000u32 {
        if !run_job(&mut file, &mut rt.stdout())? {
            break;
        }
    }
    Ok(())
}
