// What the items before the queries do: counts, parameters, roots, final coefficients.
ghost use Rattle.std.specs.Prelude.{◌≡◌};
ghost use Rattle.sha256.specs.Sha256.{sha256};
ghost use Rattle.reader_model.specs.Items.{at_layer, after_count, after_parameters, after_root, roots_after, challenges_after, after_coefficient, coefficients_after, at_query, after_query_count};

use crate::sane::SaneCore;
use answer::Refusal;
use felt::Felt;
use reader_model::{CHALLENGES, COEFFICIENTS, Core, Cursor, ROOTS, Stage, Walk};
use transcript::Transcript;

// The wanted count comes from the parameters, never from the file.
#[tactic(auto, unfolding(reader_model::specs::Items::after_count))]
pub fn after_count(c: SaneCore, want: usize, stage: Stage) -> Core
    ensures { result ≡ after_count c.core want stage }
{
    let count = message::first_count(c.core.item);
    if count as usize == want {
        c.moved(stage)
    } else {
        c.refused(Refusal::CountDiffers)
    }
}

// The item's first bytes must be the caller's parameters.
#[tactic(auto, using(crate::proofs::Bytes::begins_with_header), unfolding(reader_model::specs::Items::after_parameters))]
pub fn after_parameters(c: SaneCore) -> Core
    ensures { result ≡ after_parameters c.core }
{
    if c.core.item.starts_with(&params::header(c.core.params)) {
        c.moved(Stage::RootCount)
    } else {
        c.refused(Refusal::ParametersDiffer)
    }
}

// At a layer's first value and height.
pub fn at_layer(c: Core, layer: u8) -> Core
    ensures { result ≡ at_layer c layer }
{
    Core {
        cursor: Cursor {
            layer,
            value: 0,
            height: 0,
            ..c.cursor
        },
        ..c
    }
}

// A root is absorbed before its challenge is drawn; both are kept.
#[tactic(auto, using(crate::proofs::Laws::root_fits), unfolding(reader_model::specs::Items::after_root, reader_model::specs::Items::roots_after, reader_model::specs::Items::challenges_after, reader_model::specs::Items::root_state))]
pub fn after_root(c: SaneCore, roots: &mut [u8; ROOTS], challenges: &mut [u32; CHALLENGES]) -> Core
    ensures core { result ≡ after_root sha256 c.core }
    ensures roots { roots.new ≡ roots_after sha256 c.core roots.old }
    ensures challenges { challenges.new ≡ challenges_after sha256 c.core challenges.old }
{
    let root = c.core.item;
    let before = c.core.transcript;
    let absorbed = lent_transcript::layer(Transcript { state: before }, root);
    let layer = c.core.cursor.layer as usize;
    buffer::put(roots, 32 * layer, &root);
    challenges[layer] = absorbed.challenge;
    let transcript = absorbed.state;
    let mut next = c;
    next.core.transcript = transcript;
    let above = c.core.cursor.layer + 1;
    if above < c.core.params.k {
        at_layer(next.moved(Stage::Root), above)
    } else {
        at_layer(next.moved(Stage::CoefficientCount), 0)
    }
}

// A final coefficient is kept; after the last one all are absorbed, and the queries can be drawn.
#[tactic(auto, unfolding(reader_model::specs::Items::after_coefficient, reader_model::specs::Items::coefficients_after))]
pub fn after_coefficient(c: SaneCore, coefficients: &mut [u32; COEFFICIENTS]) -> Core
    ensures core { result ≡ after_coefficient sha256 c.core coefficients.old }
    ensures coefficients { coefficients.new ≡ coefficients_after sha256 c.core coefficients.old }
{
    let value = message::first_number(c.core.item);
    if Felt::MODULUS <= value {
        return c.refused(Refusal::NotBelowModulus);
    }
    let at = c.core.cursor.coefficient;
    coefficients[at] = value;
    let count = params::final_count(c.core.params);
    let after = at + 1;
    if after < count {
        let mut next = c.moved(Stage::Coefficient);
        next.cursor.coefficient = after;
        next
    } else {
        let before = c.core.transcript;
        let transcript = lent_transcript::finish(
            Transcript { state: before },
            *coefficients,
            count,
        );
        let mut next = c.moved(Stage::QueryCount);
        next.transcript = transcript;
        next.cursor.coefficient = 0;
        next
    }
}

// The walk of a query begins at its drawn index.
#[tactic(auto, unfolding(reader_model::specs::Items::at_query))]
pub fn at_query(c: Core, query: u8) -> Core
    ensures { result ≡ at_query sha256 c query }
{
    let state = c.transcript;
    let index = Transcript { state }.draw(c.params, query);
    Core {
        cursor: Cursor {
            query,
            layer: 0,
            value: 0,
            height: 0,
            ..c.cursor
        },
        walk: Walk {
            index,
            position: 0,
            scale: 0,
            folded: 0,
            ..c.walk
        },
        ..c
    }
}

// The walk of the first query begins here.
#[tactic(auto, unfolding(reader_model::specs::Items::after_query_count, reader_model::specs::Items::at_query))]
pub fn after_query_count(c: SaneCore) -> Core
    ensures { result ≡ after_query_count sha256 c.core }
{
    let count = message::first_count(c.core.item);
    if count == c.core.params.q as u32 {
        at_query(c.moved(Stage::Value), 0)
    } else {
        c.refused(Refusal::CountDiffers)
    }
}
