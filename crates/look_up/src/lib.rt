// The look-up of one opening in a whole proof (document 01, "When the reader says no"): the caller's own bytes are handed back, not copied. It doesn't judge.
#![tactic(auto)]

ghost use Rattle.std.specs.Prelude.{◌≡◌, MatchResult};
ghost use Rattle.answer.specs.Table.{open_so_far};
ghost use Rattle.answer.specs.Refusals.{number_of};
ghost use Rattle.look_up.specs.LookUp as spec;

use answer::{Answer, Refusal};
use params::Params;

// The answer, and the part of the proof as numbers: an exported call cannot return a reference, so its caller takes the part.
// Stays: the C interface; `exports::phieulakhon_look_up` returns it.
#[repr(C)]
#[derive(Clone, Copy)]
pub struct Span {
    pub number: u8,
    pub place: u32,
    pub start: usize,
    pub length: usize,
}

// Where an opening stands in a proof, and how many bytes it has.
#[derive(Clone, Copy)]
struct Opening {
    start: usize,
    length: usize,
}

// The opening of a query in a layer, in a proof of a length.
// Stays with its four numbers apart, as the calls below (C interface; what may not change: the contracts of `look_up_span` and `look_up`).
fn opening_of(p: Params, length: usize, query: usize, layer: usize) -> Result<Opening, Refusal>
    ensures { MatchResult result (λ o. spec.span_of open_so_far o.start o.length ≡ spec.look_up_span p length query layer) (λ r. spec.span_of (number_of r) 0 0 ≡ spec.look_up_span p length query layer) }
{
    let p = params::admitted(p)?.params;
    if length != params::file_length(p) || query >= p.q as usize || layer >= p.k as usize {
        return Err(Refusal::NoSuchOpening);
    }
    let i = query as u8;
    let j = layer as u8;
    Ok(Opening {
        start: params::opening_offset(p, i, j),
        length: params::opening_length(p, j),
    })
}

// The look-up in a proof of a length.
pub fn look_up_span(p: Params, length: usize, query: usize, layer: usize) -> Span
    ensures { result ≡ spec.look_up_span p length query layer }
{
    match opening_of(p, length, query, layer) {
        Ok(opening) => Span {
            number: answer::OPEN,
            place: 0,
            start: opening.start,
            length: opening.length,
        },
        Err(refusal) => Span {
            number: refusal.number(),
            place: 0,
            start: 0,
            length: 0,
        },
    }
}

// The answer, and the opening's bytes where they stand in the proof.
// Stays: a clause of `look_up` says that a refusal's part is empty, and where it stands.
#[derive(Clone, Copy)]
pub struct Found<'a> {
    pub answer: Answer,
    pub part: &'a [u8],
}

pub fn look_up<'a>(p: Params, proof: &'a [u8], query: usize, layer: usize) -> Found<'a>
    ensures { (result.answer ≡ spec.look_up_answer p proof.now query layer) × (result.part.now ≡ spec.look_up_part p proof.now query layer) × (result.part.ref_ptr ≡ spec.look_up_place p proof.entry.ref_ptr proof.now query layer) }
{
    let span = look_up_span(p, proof.len(), query, layer);
    Found {
        answer: Answer {
            number: span.number,
            place: span.place,
        },
        part: &proof[span.start..span.start + span.length],
    }
}
