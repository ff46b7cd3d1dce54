// The writer's tests, in their order.
ghost use Rattle.std.specs.Prelude.{◌≡◌, IfOk};
ghost use Rattle.answer.specs.Refusals.{number_in};
ghost use Rattle.writer.specs.Writer as spec;

use answer::Refusal;
use felt::Felt;
use params::{Params, ValidParams};
use writer_layers::scratch::Layer;

// Whether every coefficient is below the modulus.
fn all_below(coefficients: &[u32]) -> bool
    ensures { result ≡ spec.all_below coefficients.now }
{
    coefficients.iter().all(|c| *c < Felt::MODULUS)
}

#[tactic(auto, using(crate::proofs::WriterLaws::first_count, crate::proofs::WriterLaws::first_size, params::proofs::ParameterLaws::from_valid), unfolding(crate::specs::Writer::tested))]
pub fn tested(
    p: Params,
    coefficients: &[u32],
    numbers: usize,
    bytes: usize,
    output: usize,
) -> Result<ValidParams, Refusal>
    ensures number { number_in result ≡ spec.tested p coefficients.now numbers bytes output }
    ensures ok { IfOk result (λ v. v.params ≡ p) }
{
    let valid = params::admitted(p)?;
    let first = Layer { valid, index: 0 };
    if coefficients.len() != first.count() {
        return Err(Refusal::WrongCoefficientCount);
    }
    if !all_below(coefficients) {
        return Err(Refusal::NotBelowModulus);
    }
    let size = first.size();
    let length = params::file_length(p);
    let numbers_needed = 2 * size;
    let bytes_needed = 64 * size;
    if numbers < numbers_needed || bytes < bytes_needed {
        return Err(Refusal::ScratchTooShort);
    }
    if output < length {
        return Err(Refusal::OutputTooShort);
    }
    Ok(valid)
}
