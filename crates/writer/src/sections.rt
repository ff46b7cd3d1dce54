// The file: its four sections, one after the other.
ghost use Rattle.std.specs.Prelude.{◌≡◌, ◌+◌, ◌*◌, ◌^◌, ◌-◌, ◌≤◌, length, take};
ghost use Rattle.std.proofs.lemmas.List.Edits.{sets};
ghost use Rattle.sha256.specs.Sha256.{sha256};
ghost use Rattle.message.specs.Bytes.{le, words};
ghost use Rattle.params.specs.Parameters.{final_count, root_offset, final_count_offset, coefficient_offset, query_count_offset, queries_offset, file_length};
ghost use Rattle.transcript.specs.Transcript as transcript;
ghost use Rattle.built.specs.Built.{built_file};
ghost use Rattle.writer_model.specs.Buffers as spec;

use params::{Params, ValidParams};
use transcript::Transcript;
use writer_layers::scratch::Scratch;

// Numbers, at most 64 of them, as the front of an array.
fn final_of(numbers: &[u32]) -> [u32; 64]
    requires { length numbers.now ≤ 64 }
    ensures { take (length numbers.now) result ≡ numbers.now }
{
    let mut r = [0u32; 64];
    buffer::put(&mut r, 0, numbers);
    r
}

// Section 1, and section 2's count.
fn head(p: Params, file: &mut [u8])
    requires { root_offset 0 ≤ length file.old }
    ensures { file.new ≡ spec.head_in p file.old }
{
    let bytes = params::header(p);
    message::put_count(file, 0, params::HEADER_SIZE);
    buffer::put(file, 2, &bytes);
    message::put_count(file, params::ROOT_COUNT_OFFSET, p.k as usize);
}

// Section 3: the final coefficients, and the transcript that has absorbed them.
fn finish(scratch: &Scratch, s: Transcript, file: &mut [u8]) -> Transcript
    requires { queries_offset scratch.now.valid.params ≤ length file.old }
    ensures state_value { result.state ≡ transcript.absorb_final sha256 s.state (take (final_count scratch.now.valid.params) scratch.now.numbers.now) }
    ensures file_after { file.new ≡ sets (sets file.old (final_count_offset scratch.now.valid.params) (le 2 (final_count scratch.now.valid.params))) (coefficient_offset scratch.now.valid.params 0) (words (take (final_count scratch.now.valid.params) scratch.now.numbers.now)) }
{
    let p = scratch.valid.params;
    let count = params::final_count(p);
    let last = &scratch.numbers[..count];
    let at = params::root_offset(p.k);
    message::put_count(file, at, count);
    message::put_words(file, at + 2, last);
    s.absorb_final(final_of(last), count)
}

// Section 4: the openings of the queries that the transcript draws.
fn openings(scratch: &Scratch, s: Transcript, file: &mut [u8])
    requires { file_length scratch.now.valid.params ≤ length file.old }
    ensures { file.new ≡ sets (sets file.old (query_count_offset scratch.now.valid.params) (le 2 scratch.now.valid.params.q)) (queries_offset scratch.now.valid.params) (spec.queries_in scratch.now.valid.params sha256 s.state scratch.now.numbers.now scratch.now.bytes.now) }
{
    let p = scratch.valid.params;
    message::put_count(file, params::query_count_offset(p), p.q as usize);
    scratch.queries(s, file, params::queries_offset(p));
}

// The file of a polynomial.
pub fn file(
    valid: ValidParams,
    context: [u8; 32],
    coefficients: &[u32],
    numbers: &mut [u32],
    bytes: &mut [u8],
    file: &mut [u8],
)
    requires { (length coefficients.now ≡ 2 ^ (valid.params.n - valid.params.b)) × ((2 * 2 ^ valid.params.n ≤ length numbers.old) × ((64 * 2 ^ valid.params.n ≤ length bytes.old) × (length file.old ≡ file_length valid.params))) }
    ensures { file.new ≡ built_file sha256 valid.params context coefficients.now }
{
    let p = valid.params;
    buffer::put(numbers, 0, coefficients);
    head(p, file);
    let mut scratch = Scratch {
        valid,
        numbers,
        bytes,
    };
    let layered = scratch.layers(Transcript::start(p, context), file);
    let finished = finish(&scratch, layered, file);
    openings(&scratch, finished, file);
}
