// The loop over a piece: bytes are gathered in the item's buffer, and whatever is decided is decided at an item's last byte. For the crate `reader`
// alone: `gather` requires what its callers have tested.
#![tactic(auto)]

ghost use Rattle.std.specs.Prelude.{◌≡◌, ◌+◌, ◌≤◌, length};
ghost use Rattle.std.proofs.lemmas.List.Edits.{sets};
ghost use Rattle.sha256.specs.Sha256.{sha256};
ghost use Rattle.reader_model.specs.State.{tables, whole};
ghost use Rattle.reader_model.specs.Items.{after_item, advanced};
ghost use Rattle.reader_model.specs.Model.{fed};

use answer::Refusal;
use reader_items::sane::SaneCore;
use reader_items::{sections, state};
use reader_model::{CHALLENGES, COEFFICIENTS, Core, ROOTS, Stage};

// What a whole item does, by its stage.
// Stays three arrays, here and below (C interface: `reader::piece_in_place` is lent them one by one).
fn dispatch(
    c: SaneCore,
    roots: &mut [u8; ROOTS],
    challenges: &mut [u32; CHALLENGES],
    coefficients: &mut [u32; COEFFICIENTS],
) -> Core
    ensures { whole result roots.new challenges.new coefficients.new ≡ after_item sha256 c.core.stage c.core (tables roots.old challenges.old coefficients.old) }
{
    let params = c.core.params;
    // Stays a match (C interface): which item comes next lies in C's arrays from call to call, where no closure can.
    match c.core.stage {
        Stage::ParameterCount => sections::after_count(c, params::HEADER_SIZE, Stage::Parameters),
        Stage::Parameters => sections::after_parameters(c),
        Stage::RootCount => sections::after_count(c, params.k as usize, Stage::Root),
        Stage::Root => sections::after_root(c, roots, challenges),
        Stage::CoefficientCount => {
            sections::after_count(c, params::final_count(params), Stage::Coefficient)
        }
        Stage::Coefficient => sections::after_coefficient(c, coefficients),
        Stage::QueryCount => sections::after_query_count(c),
        Stage::Value => reader_queries::after_value(c, challenges),
        Stage::Sibling => reader_queries::after_sibling(c, roots, coefficients),
        Stage::Tail => c.refused(Refusal::ByteAfterTheEnd),
        Stage::Stopped => c.core,
    }
}

// The state after a whole item.
fn advance(
    c: Core,
    roots: &mut [u8; ROOTS],
    challenges: &mut [u32; CHALLENGES],
    coefficients: &mut [u32; COEFFICIENTS],
) -> Core
    ensures { whole result roots.new challenges.new coefficients.new ≡ advanced sha256 (whole c roots.old challenges.old coefficients.old) }
{
    match SaneCore::of(c) {
        Some(sane) => dispatch(sane, roots, challenges, coefficients),
        None => state::halt(Refusal::Closed, 0),
    }
}

// A run of bytes goes into the item's buffer, from index `at` on.
// Stays with a way of its own for one byte (tried without: fed byte by byte, a proof takes 4.9 % more instructions).
pub fn gather(item: &mut [u8; 32], at: usize, run: &[u8])
    requires { at + length run.now ≤ 32 }
    ensures { item.new ≡ sets item.old at run.now }
{
    if let [byte] = run {
        item[at] = *byte;
    } else {
        // Stays a loop, as in `buffer::put` (the C interface).
        for i in 0..run.len() {
            item[at + i] = run[i];
        }
    }
}

// The state after a piece, item by item. Only the small part goes by value.
pub fn feed(
    core: Core,
    roots: &mut [u8; ROOTS],
    challenges: &mut [u32; CHALLENGES],
    coefficients: &mut [u32; COEFFICIENTS],
    bytes: &[u8],
) -> Core
    ensures { whole result roots.new challenges.new coefficients.new ≡ fed sha256 (whole core roots.old challenges.old coefficients.old) bytes.now }
{
    let mut c = core;
    let mut rest = bytes;
    // Stays a `while` (no plainer: items differ in length, so no iterator gives the runs).
    while !rest.is_empty() {
        let need = state::item_length(c.stage);
        if need <= c.fill {
            break;
        }
        let room = need - c.fill;
        let (run, after) = rest.split_at(room.min(rest.len()));
        gather(&mut c.item, c.fill, run);
        c.fill += run.len();
        rest = after;
        if run.len() == room {
            if reader_queries::goes_on(c) {
                c = reader_queries::up(SaneCore { core: c });
            } else {
                c = advance(c, roots, challenges, coefficients);
            }
        }
    }
    c
}
