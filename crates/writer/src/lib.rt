// The writer of proofs (request 2026-02): parameters, context and coefficients in, the file that document 01 builds out, worked out in lent scratch.
#![tactic(auto)]

ghost use Rattle.std.specs.Prelude.{◌≡◌};
ghost use Rattle.sha256.specs.Sha256.{sha256};
ghost use Rattle.writer.specs.Writer as spec;

use answer::Answer;
use params::Params;

mod checks;
mod sections;

// Writes the proof of the polynomial to the front of the output. The scratch is 2·2^n numbers and 64·2^n bytes, or more.
// Stays with its buffers and terms apart (C interface; what may not change: the contract of `write`).
pub fn write(
    p: Params,
    context: [u8; 32],
    coefficients: &[u32],
    numbers: &mut [u32],
    bytes: &mut [u8],
    output: &mut [u8],
) -> Answer
    ensures value { result ≡ (spec.written sha256 p context coefficients.now numbers.old bytes.old output.old).answer }
    ensures output_after { output.new ≡ (spec.written sha256 p context coefficients.now numbers.old bytes.old output.old).output }
    ensures numbers_after { numbers.new ≡ (spec.written sha256 p context coefficients.now numbers.old bytes.old output.old).numbers }
    ensures bytes_after { bytes.new ≡ (spec.written sha256 p context coefficients.now numbers.old bytes.old output.old).bytes }
{
    match checks::tested(p, coefficients, numbers.len(), bytes.len(), output.len()) {
        Ok(valid) => {
            let length = params::file_length(p);
            sections::file(
                valid,
                context,
                coefficients,
                numbers,
                bytes,
                &mut output[..length],
            );
            buffer::clear(numbers);
            buffer::clear(bytes);
            Answer {
                number: answer::OPEN,
                place: length as u32,
            }
        }
        Err(refusal) => refusal.at(0),
    }
}
