// What the items of the queries do: the values of an opening, and its siblings up to the root. For the crate `reader` alone, as `reader_items`.
#![tactic(auto)]

ghost use Rattle.std.specs.Prelude.{◌≡◌, ◌%◌, ◌/◌};
ghost use Rattle.sha256.specs.Sha256.{sha256};
ghost use Rattle.merkle.specs.Merkle.{parent};
ghost use Rattle.params.specs.Parameters.{leaf_count};
ghost use Rattle.fri.specs.Judge.{value_at};
ghost use Rattle.reader_model.specs.Items.{leaf_of, linked, rooted, finished, at_leaf, after_leaf, after_value, climbed, next_query, next_layer, after_path, after_sibling};
ghost use Rattle.reader_items.specs.Private.{goes_on, risen};

use answer::Refusal;
use felt::Felt;
use params::Params;
use reader_items::sane::{SaneCore, is_sane};
use reader_items::sections::{at_layer, at_query};
use reader_model::{CHALLENGES, COEFFICIENTS, Core, ROOTS, Stage, VALUES, Walk};

// Which of a leaf's values an index names.
fn entry_of(p: Params, layer: u8, index: u32) -> u32
    ensures { result ≡ index / leaf_count p layer }
{
    binary::high_bits(index, params::height(p, layer) as u8)
}

// Of the leaf's values, the one that the index names.
#[tactic(auto, using(reader_items::proofs::Bytes::names_value, reader_items::proofs::Bytes::names_none))]
fn named_value(c: Core, values: [u32; VALUES]) -> u32
    ensures { result ≡ value_at c.params c.cursor.layer c.walk.index (leaf_of c values) }
{
    let entry = entry_of(c.params, c.cursor.layer, c.walk.index) as usize;
    if entry < params::values_per_leaf(c.params) {
        values[entry]
    } else {
        0
    }
}

// Whether the value that the index names is the folded one.
#[tactic(auto, unfolding(reader_model::specs::Items::linked))]
fn is_linked(c: Core, values: [u32; VALUES]) -> bool
    ensures { result ≡ linked c values }
{
    fold::agrees(c.walk.scale, c.walk.folded, named_value(c, values))
}

// The walk at its leaf.
#[tactic(auto, using(reader_items::proofs::Bytes::first_of, reader_items::proofs::Bytes::second_of), unfolding(reader_model::specs::Items::at_leaf, domain::specs::Domain::half))]
fn at_leaf(c: Core, challenge: u32, values: [u32; VALUES]) -> Walk
    ensures { result ≡ at_leaf sha256 c challenge values }
{
    let layer = c.cursor.layer;
    let leaf = domain::leaf_of(c.params.n, layer, c.walk.index);
    let x = domain::point(c.params.n, layer, leaf);
    Walk {
        index: leaf,
        position: leaf,
        values,
        scale: fold::scale(x),
        folded: fold::folded(x, challenge, values[0], values[1]),
        node: merkle::leaf_digest(layer, values, params::values_per_leaf(c.params)),
    }
}

// All values of the leaf are there: the one that the index names must be the folded one, and the leaf is hashed.
#[tactic(auto, unfolding(reader_model::specs::Items::after_leaf))]
fn after_leaf(c: SaneCore, challenges: &[u32; CHALLENGES], values: [u32; VALUES]) -> Core
    ensures { result ≡ after_leaf sha256 c.core challenges.now values }
{
    if is_linked(c.core, values) {
        let challenge = challenges[c.core.cursor.layer as usize];
        let mut next = c.moved(Stage::Sibling);
        next.walk = at_leaf(c.core, challenge, values);
        next
    } else {
        c.refused(Refusal::NotTheFoldedValue)
    }
}

// A value is kept until the leaf's last one is there.
#[tactic(auto, unfolding(reader_model::specs::Items::after_value))]
pub fn after_value(c: SaneCore, challenges: &[u32; CHALLENGES]) -> Core
    ensures { result ≡ after_value sha256 c.core challenges.now }
{
    let value = message::first_number(c.core.item);
    if Felt::MODULUS <= value {
        return c.refused(Refusal::NotBelowModulus);
    }
    let mut values = c.core.walk.values;
    let at = c.core.cursor.value as usize;
    values[at] = value;
    let after = c.core.cursor.value + 1;
    if (after as usize) < params::values_per_leaf(c.core.params) {
        let mut next = c.moved(Stage::Value);
        next.walk.values = values;
        next.cursor.value = after;
        next
    } else {
        after_leaf(c, challenges, values)
    }
}

// One node up.
#[tactic(auto, unfolding(reader_model::specs::Items::climbed))]
fn climb(c: Core) -> Walk
    ensures { result ≡ climbed sha256 c }
{
    Walk {
        position: c.walk.position / 2,
        node: merkle::parent(c.walk.node, c.walk.position as usize, c.item),
        ..c.walk
    }
}

// Whether the node is the root of its layer.
#[tactic(auto, using(reader_items::proofs::Bytes::same_by_eq), unfolding(reader_model::specs::Items::rooted))]
fn is_root(c: SaneCore, roots: &[u8; ROOTS]) -> bool
    ensures { result ≡ rooted c.core roots.now }
{
    let at = 32 * c.core.cursor.layer as usize;
    c.core.walk.node[..] == roots[at..at + 32]
}

// Whether the chain ends on the final polynomial.
#[tactic(auto, unfolding(reader_model::specs::Items::finished))]
fn is_final(c: Core, coefficients: &[u32; COEFFICIENTS]) -> bool
    ensures { result ≡ finished c coefficients.now }
{
    let count = params::final_count(c.params);
    let x = domain::point(c.params.n, c.params.k, c.walk.index);
    let value = fold::eval_lent(coefficients, count, x);
    fold::agrees(c.walk.scale, c.walk.folded, value)
}

// A query has ended: the next one, or the end of the file.
#[tactic(auto, unfolding(reader_model::specs::Items::next_query, reader_model::specs::Items::at_query))]
fn next_query(c: SaneCore) -> Core
    ensures { result ≡ next_query sha256 c.core }
{
    let after = c.core.cursor.query + 1;
    if after < c.core.params.q {
        at_query(c.moved(Stage::Value), after)
    } else {
        c.moved(Stage::Tail)
    }
}

// A layer has ended: the next one, or the final polynomial.
#[tactic(auto, unfolding(reader_model::specs::Items::next_layer))]
fn next_layer(c: SaneCore, coefficients: &[u32; COEFFICIENTS]) -> Core
    ensures { result ≡ next_layer sha256 c.core coefficients.now }
{
    let above = c.core.cursor.layer + 1;
    if above < c.core.params.k {
        at_layer(c.moved(Stage::Value), above)
    } else if is_final(c.core, coefficients) {
        next_query(c)
    } else {
        c.refused(Refusal::MissesFinalPolynomial)
    }
}

// A path has ended.
#[tactic(auto, unfolding(reader_model::specs::Items::after_path))]
fn after_path(c: SaneCore, roots: &[u8; ROOTS], coefficients: &[u32; COEFFICIENTS]) -> Core
    ensures { result ≡ after_path sha256 c.core roots.now coefficients.now }
{
    if is_root(c, roots) {
        next_layer(c, coefficients)
    } else {
        c.refused(Refusal::PathMissesRoot)
    }
}

// Each sibling is an item of its own, so that no handler loops over a path.
#[tactic(auto, unfolding(reader_model::specs::Items::after_sibling))]
pub fn after_sibling(c: SaneCore, roots: &[u8; ROOTS], coefficients: &[u32; COEFFICIENTS]) -> Core
    ensures { result ≡ after_sibling sha256 c.core roots.now coefficients.now }
{
    let walk = climb(c.core);
    let above = c.core.cursor.height + 1;
    if (above as usize) < params::height(c.core.params, c.core.cursor.layer) {
        let mut next = c.moved(Stage::Sibling);
        next.walk = walk;
        next.cursor.height = above;
        next
    } else {
        let mut top = c;
        top.core.walk = walk;
        after_path(top, roots, coefficients)
    }
}

// Whether the item of a sane state is a sibling, and not the last one of its path.
pub fn goes_on(c: Core) -> bool
    ensures { result ≡ goes_on c }
{
    let above = c.cursor.height as usize + 1;
    let height = params::height(c.params, c.cursor.layer);
    is_sane(c) & ((c.stage == Stage::Sibling) & (above < height))
}

// A sibling that is not the last of its path: only what changes is stored.
// Stays a way of its own beside `after_sibling` (tried without: a proof of 107,788 bytes takes 3 % more instructions).
pub fn up(c: SaneCore) -> Core
    ensures { result ≡ risen c.core }
{
    let walk = climb(c.core);
    let mut next = c.moved(c.core.stage);
    next.walk = walk;
    next.cursor.height += 1;
    next
}
