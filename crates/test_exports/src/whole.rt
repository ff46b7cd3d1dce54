// The verdict on a whole proof, and the writer of one.
// Stays (C interface): each call has the arguments of the call that it names, and is a twin of one of `exports`.
ghost use Rattle.std.specs.Prelude.{◌≡◌};
ghost use Rattle.sha256.specs.Sha256.{sha256};
ghost use Rattle.params.specs.Admission.{terms_of};
ghost use Rattle.fri.specs.Judge as judge;
ghost use Rattle.writer.specs.Writer as writer;

use answer::Answer;
use params::{Params, Terms};

#[unsafe(no_mangle)]
pub extern "C" fn test_verdict(p: Params, context: &[u8; 32], proof: &[u8]) -> Answer
    ensures { result ≡ judge.verdict sha256 (terms_of p context.now) proof.now }
{
    let a = Terms {
        params: p,
        context: *context,
    };
    verdict::whole(a, proof)
}

#[unsafe(no_mangle)]
pub extern "C" fn test_verdict_in_pieces(
    p: Params,
    context: &[u8; 32],
    proof: &[u8],
    size: usize,
) -> Answer
    ensures { result ≡ judge.verdict sha256 (terms_of p context.now) proof.now }
{
    let a = Terms {
        params: p,
        context: *context,
    };
    verdict::in_pieces(a, proof, size)
}

#[unsafe(no_mangle)]
pub extern "C" fn test_write(
    p: Params,
    context: &[u8; 32],
    coefficients: &[u32],
    numbers: &mut [u32],
    bytes: &mut [u8],
    output: &mut [u8],
) -> Answer
    ensures value { result ≡ (writer.written sha256 p context.now coefficients.now numbers.old bytes.old output.old).answer }
    ensures output_after { output.new ≡ (writer.written sha256 p context.now coefficients.now numbers.old bytes.old output.old).output }
    ensures numbers_after { numbers.new ≡ (writer.written sha256 p context.now coefficients.now numbers.old bytes.old output.old).numbers }
    ensures bytes_after { bytes.new ≡ (writer.written sha256 p context.now coefficients.now numbers.old bytes.old output.old).bytes }
{
    writer::write(p, *context, coefficients, numbers, bytes, output)
}
