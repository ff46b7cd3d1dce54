// The calls for programs in C and Rust, under C names. No call has a `requires`: each is safe and ends for all arguments, a state that no call
// made among them.
#![tactic(auto)]

ghost use Rattle.std.specs.Prelude.{◌≡◌};
ghost use Rattle.sha256.specs.Sha256.{sha256};
ghost use Rattle.params.specs.Parameters as parameters;
ghost use Rattle.params.specs.Admission.{terms_of};
ghost use Rattle.fri.specs.Judge as judge;
ghost use Rattle.reader_model.specs.Model.{opened, pieced, ended};
ghost use Rattle.look_up.specs.LookUp.{look_up_span};
ghost use Rattle.writer.specs.Writer as writer;
ghost use Rattle.lent_reader.specs.Held.{held, reader_of, outcome, outcome_of};

use answer::Answer;
use lent_reader::{SIZES, U8S, U32S};
use look_up::Span;
use params::{Params, Terms};
use reader_model::{CHALLENGES, COEFFICIENTS, ROOTS};

// The verdict on a whole proof.
// Stays: the C interface; `test_exports` has this call, the look-up and the writer under names of its own, in a library of its own.
#[unsafe(no_mangle)]
pub extern "C" fn phieulakhon_verdict(p: Params, context: &[u8; 32], proof: &[u8]) -> Answer
    ensures { result ≡ judge.verdict sha256 (terms_of p context.now) proof.now }
{
    let a = Terms {
        params: p,
        context: *context,
    };
    verdict::whole(a, proof)
}

// The length of a file with these parameters; 0 where they are not valid.
#[unsafe(no_mangle)]
pub extern "C" fn phieulakhon_file_length(p: Params) -> usize
    ensures { result ≡ parameters.if_valid p (parameters.file_length p) }
{
    params::file_length(p)
}

// The opening. What the caller holds of a reader is nine arrays (lent_reader says what each has); all are written, whatever they held.
// Stays: the C interface; the nine travel apart here, in `phieulakhon_piece` and in `phieulakhon_end`.
#[unsafe(no_mangle)]
pub extern "C" fn phieulakhon_open(
    p: Params,
    context: &[u8; 32],
    u8s: &mut [u8; U8S],
    u32s: &mut [u32; U32S],
    sizes: &mut [usize; SIZES],
    item: &mut [u8; 32],
    node: &mut [u8; 32],
    transcript: &mut [u8; 32],
    roots: &mut [u8; ROOTS],
    challenges: &mut [u32; CHALLENGES],
    coefficients: &mut [u32; COEFFICIENTS],
) -> Answer
    ensures { outcome result u8s.new u32s.new sizes.new item.new node.new transcript.new roots.new challenges.new coefficients.new ≡ outcome_of (opened sha256 (terms_of p context.now)) }
{
    let a = Terms {
        params: p,
        context: *context,
    };
    lent_reader::open(
        a,
        u8s,
        u32s,
        sizes,
        item,
        node,
        transcript,
        roots,
        challenges,
        coefficients,
    )
}

// A piece, of any number of bytes.
// Stays: the C interface; the nine arrays, and the bytes between them.
#[unsafe(no_mangle)]
pub extern "C" fn phieulakhon_piece(
    u8s: &mut [u8; U8S],
    u32s: &mut [u32; U32S],
    sizes: &mut [usize; SIZES],
    item: &mut [u8; 32],
    bytes: &[u8],
    node: &mut [u8; 32],
    transcript: &mut [u8; 32],
    roots: &mut [u8; ROOTS],
    challenges: &mut [u32; CHALLENGES],
    coefficients: &mut [u32; COEFFICIENTS],
) -> Answer
    ensures { outcome result u8s.new u32s.new sizes.new item.new node.new transcript.new roots.new challenges.new coefficients.new ≡ outcome_of (pieced sha256 (reader_of (held u8s.old u32s.old sizes.old item.old node.old transcript.old roots.old challenges.old coefficients.old)) bytes.now) }
{
    lent_reader::piece(
        u8s,
        u32s,
        sizes,
        item,
        bytes,
        node,
        transcript,
        roots,
        challenges,
        coefficients,
    )
}

// The end call. It leaves the closed state.
#[unsafe(no_mangle)]
pub extern "C" fn phieulakhon_end(
    u8s: &mut [u8; U8S],
    u32s: &mut [u32; U32S],
    sizes: &mut [usize; SIZES],
    item: &mut [u8; 32],
    node: &mut [u8; 32],
    transcript: &mut [u8; 32],
    roots: &mut [u8; ROOTS],
    challenges: &mut [u32; CHALLENGES],
    coefficients: &mut [u32; COEFFICIENTS],
) -> Answer
    ensures { outcome result u8s.new u32s.new sizes.new item.new node.new transcript.new roots.new challenges.new coefficients.new ≡ outcome_of (ended (reader_of (held u8s.old u32s.old sizes.old item.old node.old transcript.old roots.old challenges.old coefficients.old))) }
{
    lent_reader::end(
        u8s,
        u32s,
        sizes,
        item,
        node,
        transcript,
        roots,
        challenges,
        coefficients,
    )
}

// Where the opening of a query in a layer stands in a proof of that length.
// Stays: the C interface; a twin of `test_look_up`, and its four numbers travel apart.
#[unsafe(no_mangle)]
pub extern "C" fn phieulakhon_look_up(p: Params, length: usize, query: usize, layer: usize) -> Span
    ensures { result ≡ look_up_span p length query layer }
{
    look_up::look_up_span(p, length, query, layer)
}

// Writes the proof of a polynomial to the front of the output, worked out in the lent numbers and bytes.
// Stays: the C interface; a twin of `test_write`, and its buffers travel apart.
#[unsafe(no_mangle)]
pub extern "C" fn phieulakhon_write(
    p: Params,
    context: &[u8; 32],
    coefficients: &[u32],
    numbers: &mut [u32],
    bytes: &mut [u8],
    output: &mut [u8],
) -> Answer
    ensures value { result ≡ (writer.written sha256 p context.now coefficients.now numbers.old bytes.old output.old).answer }
    ensures output_after { output.new ≡ (writer.written sha256 p context.now coefficients.now numbers.old bytes.old output.old).output }
    ensures numbers_after { numbers.new ≡ (writer.written sha256 p context.now coefficients.now numbers.old bytes.old output.old).numbers }
    ensures bytes_after { bytes.new ≡ (writer.written sha256 p context.now coefficients.now numbers.old bytes.old output.old).bytes }
{
    writer::write(p, *context, coefficients, numbers, bytes, output)
}
