// Lent buffers: a part put at a place, and a buffer cleared. What does not fit is not put, not even in part.
#![tactic(auto)]

ghost use Rattle.std.specs.Prelude.{◌≡◌};
ghost use Rattle.buffer.specs.Buffer as spec;

// Stays a buffer and a place in it, here and in the crates above (what may not change: `specs/Buffer: put` is at a place, and total).
pub fn put<T: Copy>(buffer: &mut [T], at: usize, part: &[T])
    ensures { buffer.new ≡ spec.put buffer.old at part.now }
{
    if at <= buffer.len() && part.len() <= buffer.len() - at {
        // Stays a loop (the C interface: the library's copy is a call of `memmove` wherever the compiler cannot see that the two lie apart, and what the
        // libraries for C need from outside is `memcpy` and `memset`).
        for i in 0..part.len() {
            buffer[at + i] = part[i];
        }
    }
}

// A number that a buffer can be cleared to.
pub trait Zero: Copy {
    ghost ZERO: { Self };

    const ZERO: Self;
}

impl Zero for u8 {
    ghost ZERO = { 0 };

    const ZERO: u8 = 0;
}

impl Zero for u32 {
    ghost ZERO = { 0 };

    const ZERO: u32 = 0;
}

// Stays a loop (no plainer: `fill` asks that a clone cannot fail, which `Copy` doesn't say, so that `Zero` would need a law for it).
pub fn clear<T: Zero>(buffer: &mut [T])
    ensures { buffer.new ≡ spec.cleared_to T.ZERO buffer.old }
{
    for element in buffer.iter_mut() {
        *element = T::ZERO;
    }
}
