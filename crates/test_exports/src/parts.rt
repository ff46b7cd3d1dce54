// The protocol's parts.
// Stays (C interface): each call has the arguments of the call that it names.
ghost use Rattle.std.specs.Prelude.{◌≡◌, ◌%◌, ◌/◌, [], ◌∷◌, length, take};
ghost use Rattle.sha256.specs.Sha256.{sha256};
ghost use Rattle.params.specs.Parameters as parameters;
ghost use Rattle.domain.specs.Domain as domain;
ghost use Rattle.merkle.specs.Merkle as merkle;
ghost use Rattle.transcript.specs.Transcript as transcript;
ghost use Rattle.fold.specs.Poly as poly;
ghost use Rattle.fold.specs.Fold as fold;
ghost use Rattle.polynomial.specs.Polynomial as polynomial;
ghost use Rattle.look_up.specs.LookUp.{look_up_span};

use look_up::Span;
use params::Params;
use transcript::Transcript;

#[unsafe(no_mangle)]
pub extern "C" fn test_is_valid(p: Params) -> bool
    ensures { result ≡ parameters.valid p }
{
    params::is_valid(p)
}

#[unsafe(no_mangle)]
pub extern "C" fn test_final_count(p: Params) -> usize
    ensures { result ≡ parameters.if_valid p (parameters.final_count p) }
{
    params::final_count(p)
}

#[unsafe(no_mangle)]
pub extern "C" fn test_file_length(p: Params) -> usize
    ensures { result ≡ parameters.if_valid p (parameters.file_length p) }
{
    params::file_length(p)
}

#[unsafe(no_mangle)]
pub extern "C" fn test_height(p: Params, layer: u8) -> usize
    ensures { result ≡ parameters.height p layer }
{
    params::height(p, layer)
}

#[unsafe(no_mangle)]
pub extern "C" fn test_opening_offset(p: Params, query: u8, layer: u8) -> usize
    ensures { result ≡ parameters.if_valid p (parameters.opening_offset p query layer) }
{
    params::opening_offset(p, query, layer)
}

#[unsafe(no_mangle)]
pub extern "C" fn test_point(n: u8, layer: u8, index: u32) -> u32
    ensures { result ≡ domain.point n layer index }
{
    domain::point(n, layer, index)
}

#[unsafe(no_mangle)]
pub extern "C" fn test_leaf(a: u32, c: u32, out: &mut [u8; 32])
    ensures { out.new ≡ merkle.leaf_digest sha256 0 (a ∷ c ∷ []) }
{
    *out = merkle::leaf_digest(0, [a, c, 0, 0], 2);
}

#[unsafe(no_mangle)]
pub extern "C" fn test_node(left: &[u8; 32], right: &[u8; 32], out: &mut [u8; 32])
    ensures { out.new ≡ merkle.node sha256 left.now right.now }
{
    *out = merkle::node(*left, *right);
}

#[unsafe(no_mangle)]
pub extern "C" fn test_parent(
    child: &[u8; 32],
    index: usize,
    sibling: &[u8; 32],
    out: &mut [u8; 32],
)
    ensures { out.new ≡ merkle.parent sha256 (index % 2) child.now sibling.now }
{
    *out = merkle::parent(*child, index, *sibling);
}

#[unsafe(no_mangle)]
pub extern "C" fn test_climb(leaf: &[u8; 32], index: usize, siblings: &[u8], out: &mut [u8; 32])
    ensures { out.new ≡ merkle.climb sha256 leaf.now index (merkle.digests (length siblings.now / 32) siblings.now) }
{
    *out = merkle::climb(*leaf, index, siblings);
}

#[unsafe(no_mangle)]
pub extern "C" fn test_start(p: Params, context: &[u8; 32], out: &mut [u8; 32])
    ensures { out.new ≡ transcript.start sha256 (parameters.header p) context.now }
{
    let Transcript { state } = Transcript::start(p, *context);
    *out = state;
}

#[unsafe(no_mangle)]
pub extern "C" fn test_absorb_root(state: &[u8; 32], root: &[u8; 32], out: &mut [u8; 32])
    ensures { out.new ≡ transcript.absorb sha256 state.now root.now }
{
    let Transcript { state: after } = Transcript { state: *state }.absorb_root(*root);
    *out = after;
}

#[unsafe(no_mangle)]
pub extern "C" fn test_challenge(state: &[u8; 32]) -> u32
    ensures { result ≡ transcript.challenge sha256 state.now }
{
    Transcript { state: *state }.challenge()
}

// Stays: the C interface; an array with a count.
#[unsafe(no_mangle)]
pub extern "C" fn test_absorb_final(
    state: &[u8; 32],
    coefficients: &[u32; 64],
    count: usize,
    out: &mut [u8; 32],
)
    ensures { out.new ≡ transcript.absorb_final sha256 state.now (take count coefficients.now) }
{
    let Transcript { state: after } = Transcript { state: *state }.absorb_final(
        *coefficients,
        count,
    );
    *out = after;
}

#[unsafe(no_mangle)]
pub extern "C" fn test_draw(state: &[u8; 32], p: Params, query: u8) -> u32
    ensures { result ≡ transcript.draw sha256 state.now (parameters.index_bits p) query }
{
    Transcript { state: *state }.draw(p, query)
}

#[unsafe(no_mangle)]
pub extern "C" fn test_agrees(x: u32, beta: u32, a: u32, c: u32, v: u32) -> bool
    ensures { result ≡ fold.agrees (fold.scale x) (fold.folded x beta a c) v }
{
    fold::agrees(fold::scale(x), fold::folded(x, beta, a, c), v)
}

#[unsafe(no_mangle)]
pub extern "C" fn test_next(x: u32, beta: u32, a: u32, c: u32) -> u32
    ensures { result ≡ fold.next x beta a c }
{
    fold::next(x, beta, a, c)
}

// Stays: the C interface; an array with a count.
#[unsafe(no_mangle)]
pub extern "C" fn test_eval(coefficients: &[u32; 64], count: usize, x: u32) -> u32
    ensures { result ≡ poly.eval (take count coefficients.now) x }
{
    fold::eval(*coefficients, count, x)
}

#[unsafe(no_mangle)]
pub extern "C" fn test_fold_in_place(poly: &mut [u32], beta: u32)
    ensures { poly.new ≡ polynomial.folded_in_place beta poly.old }
{
    polynomial::fold(poly, beta);
}

#[unsafe(no_mangle)]
pub extern "C" fn test_look_up(p: Params, length: usize, query: usize, layer: usize) -> Span
    ensures { result ≡ look_up_span p length query layer }
{
    look_up::look_up_span(p, length, query, layer)
}
