// A polynomial in lent numbers: its values in a layer, and its fold in place.
#![tactic(auto)]

ghost use Rattle.std.specs.Prelude.{◌≡◌, ◌+◌, ◌*◌, ◌≤◌, length};
ghost use Rattle.polynomial.specs.Polynomial as spec;

// A layer's values, point by point, each point the one before times the root.
fn evaluate(polynomial: &[u32], n: u8, layer: u8, values: &mut [u32])
    requires { ((layer ≤ n) × (n ≤ 30)) × (length values.old ≡ spec.layer_size n layer) }
    ensures { values.new ≡ spec.values n layer polynomial.now }
{
    let root = felt::subgroup_generator((n - layer) as usize);
    let mut x = domain::point(n, layer, 0);
    for value in values {
        *value = fold::eval_lent(polynomial, polynomial.len(), x);
        x = field::mul(x, root);
    }
}

// The engine: the values of the first count numbers of a layer's room, into its second half.
// Stays with a count beside the room (what may not change: docs/PROMISES.md names `polynomial::values`).
#[tactic(auto, using(crate::proofs::PolynomialLaws::size_made, crate::proofs::PolynomialLaws::front_of_half), unfolding(crate::specs::Polynomial::evaluated, crate::specs::Polynomial::is_room))]
pub fn values(room: &mut [u32], count: usize, n: u8, layer: u8)
    ensures { room.new ≡ spec.evaluated n layer count room.old }
{
    if layer <= n && n <= 30 {
        let size = binary::power_of_two(n - layer);
        if count <= size && room.len() == 2 * size {
            let (front, values) = room.split_at_mut(size);
            evaluate(&front[..count], n, layer, values);
        }
    }
}

// The fold of an even number of coefficients, written over their first half.
pub fn fold(poly: &mut [u32], beta: u32)
    ensures { poly.new ≡ spec.folded_in_place beta poly.old }
{
    if poly.len() % 2 == 0 {
        for i in 0..poly.len() / 2 {
            let even = poly[2 * i];
            let odd = poly[2 * i + 1];
            poly[i] = field::mul_add(beta, odd, even);
        }
    }
}
