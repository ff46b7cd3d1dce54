// The transcript lent by `&mut` and changed in place: a thin layer over the transcript by value (document 01, "Transcript").
#![tactic(auto)]

ghost use Rattle.std.specs.Prelude.{◌≡◌, take};
ghost use Rattle.sha256.specs.Sha256.{sha256};
ghost use Rattle.transcript.specs.Transcript as spec;

use transcript::Transcript;

// Absorbs a root in place.
pub fn absorb_root(t: &mut Transcript, root: [u8; 32])
    ensures { t.new.state ≡ spec.absorb sha256 t.old.state root }
{
    *t = t.absorb_root(root);
}

// Lends the transcript on to absorb a layer's root, then draws that layer's challenge.
pub fn absorb_layer(t: &mut Transcript, root: [u8; 32]) -> u32
    ensures { (t.new.state ≡ spec.absorb sha256 t.old.state root) × (result ≡ spec.challenge sha256 (spec.absorb sha256 t.old.state root)) }
{
    absorb_root(t, root);
    t.challenge()
}

// Absorbs the first count of the final coefficients in place.
// Stays an array with a count (what may not change: docs/PROMISES.md names `lent_transcript::absorb_final` and `finish`).
pub fn absorb_final(t: &mut Transcript, coefficients: [u32; 64], count: usize)
    ensures { t.new.state ≡ spec.absorb_final sha256 t.old.state (take count coefficients) }
{
    *t = t.absorb_final(coefficients, count);
}

// What a layer's root leaves: the state, and the challenge drawn from it.
#[repr(C)]
#[derive(Clone, Copy)]
pub struct Absorbed {
    pub state: [u8; 32],
    pub challenge: u32,
}

// The plain forms: the transcript is lent here, so that whoever calls these passes values alone.
pub fn layer(t: Transcript, root: [u8; 32]) -> Absorbed
    ensures { (result.state ≡ spec.absorb sha256 t.state root) × (result.challenge ≡ spec.challenge sha256 (spec.absorb sha256 t.state root)) }
{
    let mut lent = t;
    let challenge = absorb_layer(&mut lent, root);
    Absorbed {
        state: lent.state,
        challenge,
    }
}

// Stays an array with a count, as `absorb_final`.
pub fn finish(t: Transcript, coefficients: [u32; 64], count: usize) -> [u8; 32]
    ensures { result ≡ spec.absorb_final sha256 t.state (take count coefficients) }
{
    let mut lent = t;
    absorb_final(&mut lent, coefficients, count);
    lent.state
}
