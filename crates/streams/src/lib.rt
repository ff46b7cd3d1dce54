// What the programs share: bytes taken from any reader, and an answer's line given to any writer.
#![tactic(auto)]

ghost use Rattle.std.specs.Prelude.{◌≡◌, ◌≤◌, length, IfOk, OnOk, IfSome, IsOk};
ghost use Rattle.std.specs.Io.KnownBytes.{Consumes, Appends};
ghost use Rattle.line.specs.Line.{line_of};

use answer::Answer;
use line::Text;
use std::io;
use std::io::{ErrorKind, Read, Write};

// That a read to the end of its buffer succeeded; none where the input ended before.
fn unless_ended(read: io::Result<()>) -> io::Result<Option<()>>
    ensures { IfOk result (λ full. IfSome full (λ _. IsOk read)) }
{
    match read {
        Ok(()) => Ok(Some(())),
        Err(e) if e.kind() == ErrorKind::UnexpectedEof => Ok(None),
        Err(e) => Err(e),
    }
}

// The next bytes, so many, in the front of a buffer; none where the input ends before.
pub fn read_front<'a, R: Read>(
    input: &mut R,
    buf: &'a mut [u8],
    count: usize,
) -> io::Result<Option<&'a [u8]>>
    requires { count ≤ length buf.old }
    ensures { IfOk result (λ found. IfSome found (λ bytes. (length bytes.now ≡ count) × Consumes (R.remaining input.old) (R.remaining input.new) bytes.now)) }
{
    let front = &mut buf[..count];
    let Some(()) = unless_ended(input.read_exact(front))? else {
        return Ok(None);
    };
    Ok(Some(front))
}

// The next N bytes; none where the input ends before.
pub fn read_array<const N: usize, R: Read>(input: &mut R) -> io::Result<Option<[u8; N]>>
    ensures { IfOk result (λ found. IfSome found (λ bytes. Consumes (R.remaining input.old) (R.remaining input.new) bytes)) }
{
    let mut bytes = [0u8; N];
    let Some(()) = unless_ended(input.read_exact(&mut bytes))? else {
        return Ok(None);
    };
    Ok(Some(bytes))
}

// Writes the line of an answer, as a whole.
pub fn write_line<W: Write>(out: &mut W, answer: Answer) -> io::Result<()>
    ensures { OnOk result (Appends (W.contents out.old) (W.contents out.new) (line_of answer)) }
{
    let Text { bytes, length } = line::line(answer);
    out.write_all(&bytes[..length])
}
