// Judges the job on standard input and writes its line. Whatever is decided is decided by `job`, of slices; here bytes are moved. A read that fails
// leaves the job without a line.
#![tactic(auto)]

ghost use Rattle.std.specs.Prelude.{◌≡◌, ◌↔◌, ◌⊎◌, IfOk, IfSome, IsTrue};
ghost use Rattle.std.specs.IoError.{error_kind};
ghost use Rattle.std.specs.Io.{ReadsAtMost};
ghost use Rattle.std.specs.Io.KnownBytes.{ReadConsumes};
ghost use Rattle.job.specs.Job.{job_answer};

use answer::Answer;
use std::io::{ErrorKind, Read};
use std::{io, thread};

// How many bytes a read asks for.
const CHUNK: usize = 4096;

// More reads than any job needs: each brings a byte, and a job is settled after 36 bytes, L more and one.
const READS: u32 = 1000000;

// How often in a row a read is tried that was interrupted or would have to wait: there is no call that waits for a descriptor, so that these are some
// seconds in which the processor is offered to others. After them the read has failed.
const TRIES: u32 = 10000000;

// Whether a read that failed with this error may succeed later: no byte is lost by trying it again.
fn is_passing(error: &io::Error) -> bool
    ensures { IsTrue result ↔ ((error_kind error.now ≡ ErrorKind.Interrupted) ⊎ (error_kind error.now ≡ ErrorKind.WouldBlock)) }
{
    matches!(error.kind(), ErrorKind::Interrupted | ErrorKind::WouldBlock)
}

// Reads until a read succeeds, or fails for good.
fn read_again<R: Read>(input: &mut R, buf: &mut [u8]) -> io::Result<usize>
    ensures bound { ReadsAtMost result buf.new }
    ensures bytes { ReadConsumes (R.remaining input.old) (R.remaining input.new) result buf.new }
{
    for _ in 0..TRIES {
        match input.read(buf) {
            Ok(n) => return Ok(n),
            Err(e) if !is_passing(&e) => return Err(e),
            Err(_) => {}
        }
        thread::yield_now();
    }
    input.read(buf)
}

// The answer to the job that is read. Nothing is read any more once no byte could change it.
fn judge<R: Read>(input: &mut R) -> io::Result<Answer>
    ensures { IfOk result (λ a. IfSome (R.remaining input.old) (λ bytes. a ≡ job_answer bytes)) }
{
    let mut state = job::begin();
    for _ in 0..READS {
        let mut buf = [0u8; CHUNK];
        let n = read_again(input, &mut buf)?;
        state = job::feed(state, &buf[..n]);
        if n == 0 || job::settled(state) {
            return Ok(job::finish(state));
        }
    }
    Err(io::Error::other("no end"))
}

fn main(rt: HostRuntime) -> io::Result<()> {
    match judge(&mut rt.stdin()) {
        Ok(answer) => streams::write_line(&mut rt.stdout(), answer),
        Err(e) => eprintln!(rt; "standard input: {e}"),
    }
}
