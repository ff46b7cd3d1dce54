// Writes the SHA-256 digests of NIST's vectors, a line each: those of the messages in the file `messages`, then the checkpoints of the
// Monte test. In the file a message is its length, 2 bytes, low byte first, then its bytes. The length ffff ends the messages, and the
// Monte test's seed follows.
#![tactic(auto)]

ghost use Rattle.std.specs.Prelude.{◌≡◌, ◌++◌, ◌+◌, ◌*◌, ◌<◌, IfOk, OnOk, IsTrue, get_or};
ghost use Rattle.std.specs.Io.KnownBytes.{Consumes, Appends};
ghost use Rattle.vectors.specs.Lines.{digest_line, hashed_line, TellsMessage, TellsMonte};
ghost use Rattle.vectors.specs.Monte as spec;

use sha256::Hashed;
use std::io::{Read, Write};
use std::{fs, io};

// What stands for a length after the last message.
const END: u16 = u16::MAX;

// How many digests the Monte test makes for a checkpoint.
const TURNS: usize = 1000;

const CHECKPOINTS: usize = 100;

// A digest's line.
fn print_digest<W: Write>(out: &mut W, digest: [u8; 32]) -> io::Result<()>
    ensures { OnOk result (Appends (W.contents out.old) (W.contents out.new) (digest_line digest)) }
{
    let mut line = [b'\n'; 65];
    let written = hex::encode_to_slice(&digest, &mut line[..64]);
    prove!(written.is_ok());
    out.write_all(&line)
}

// The line of a hash's answer: the digest, or the number of a refusal.
fn print_hashed<W: Write>(out: &mut W, h: Hashed) -> io::Result<()>
    ensures { OnOk result (Appends (W.contents out.old) (W.contents out.new) (hashed_line h)) }
{
    match h.answer.number {
        answer::OPEN => print_digest(out, h.digest),
        number => writeln!(out, "refused {number}"),
    }
}

// The next message's line; false where the messages, or the file, end. Every length in 2 bytes fits the buffer, so that it is the hash that
// refuses a message too long.
fn run_message<R: Read, W: Write>(input: &mut R, out: &mut W) -> io::Result<bool>
    ensures { IfOk result (λ more. IsTrue more → TellsMessage (R.remaining input.old) (R.remaining input.new) (W.contents out.old) (W.contents out.new)) }
{
    let Some(size) = streams::read_array(input)? else {
        return Ok(false);
    };
    let len = u16::from_le_bytes(size);
    if len == END {
        return Ok(false);
    }
    let mut buf = [0u8; 65536];
    let Some(message) = streams::read_front(input, &mut buf, len as usize)? else {
        return Ok(false);
    };
    print_hashed(out, sha256::hash(message))?;
    Ok(true)
}

// The digest after a thousand turns of the Monte test. The answer's number is not read: 96 bytes are never refused, as the proof shows.
fn checkpoint(seed: [u8; 32]) -> [u8; 32]
    ensures { result ≡ spec.checkpoint seed }
{
    let mut last = [seed; 3];
    for _ in 0..TURNS {
        let Hashed { digest, .. } = sha256::hash(last.as_flattened());
        let [_, middle, newest] = last;
        last = [middle, newest, digest];
    }
    last[2]
}

// The checkpoints' lines, each checkpoint the seed of the next; false where the file ends in the first seed.
fn run_monte<R: Read, W: Write>(input: &mut R, out: &mut W) -> io::Result<bool>
    ensures { IfOk result (λ whole. IsTrue whole → TellsMonte (R.remaining input.old) (R.remaining input.new) (W.contents out.old) (W.contents out.new)) }
{
    let Some(mut seed) = streams::read_array(input)? else {
        return Ok(false);
    };
    for _ in 0..CHECKPOINTS {
        let next = checkpoint(seed);
        print_digest(out, next)?;
        seed = next;
    }
    Ok(true)
}

fn main(rt: HostRuntime) -> io::Result<()> {
    let mut file = match fs::open(&rt, "messages") {
        Ok(file) => file,
        Err(e) => return eprintln!(rt; "messages: {e}"),
    };
    // A bound well above the number of messages, so that the loop ends whatever the file holds.
    for _ in 0..1000u32 {
        if !run_message(&mut file, &mut rt.stdout())? {
            break;
        }
    }
    run_monte(&mut file, &mut rt.stdout())?;
    Ok(())
}
