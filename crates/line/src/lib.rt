// The line that tells an answer: `accepted L` or `refused NUMBER at PLACE`, and a newline.
#![tactic(auto)]

ghost use Rattle.std.specs.Prelude.{◌≡◌, ◌+◌, ◌≤◌, length};
ghost use Rattle.line.specs.Line.{line_of, stored, decimal};
ghost use Rattle.line.specs.Private.{longer, lead_of};

use answer::Answer;

// A line: its characters, then zeros; and how many characters there are.
// Stays: fixed memory, and `line::line` gives it as `specs/Line: stored` says. It is put together by hand, since `line` cannot fail and no clause of
// `write!` rules out an `Err`.
#[derive(Clone, Copy)]
pub struct Text {
    pub bytes: [u8; 32],
    pub length: usize,
}

impl Text {
    // Stores more characters.
    fn put(&mut self, part: &[u8])
        requires { self.old.length + length part.now ≤ 32 }
        ensures { self.new ≡ longer self.old part.now }
    {
        buffer::put(&mut self.bytes, self.length, part);
        self.length += part.len();
    }

    // Stores a number in decimal.
    fn put_decimal(&mut self, n: u32)
        requires { self.old.length + length (decimal n) ≤ 32 }
        ensures { self.new ≡ longer self.old (decimal n) }
    {
        let mut digits = [0u8; 20];
        let count = io::decimal(n as u64, &mut digits);
        self.put(&digits[..count]);
    }
}

// An answer's line up to its place.
fn lead(a: Answer) -> Text
    ensures { result ≡ stored (lead_of a) }
{
    let mut text = Text {
        bytes: [0u8; 32],
        length: 0,
    };
    if a.number == answer::ACCEPTED {
        text.put(b"accepted ");
    } else {
        text.put(b"refused ");
        text.put_decimal(a.number as u32);
        text.put(b" at ");
    }
    text
}

// The line of an answer.
pub fn line(a: Answer) -> Text
    ensures { result ≡ stored (line_of a) }
{
    let mut text = lead(a);
    text.put_decimal(a.place);
    text.put(b"\n");
    text
}
