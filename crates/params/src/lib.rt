// The parameters of a proof (document 01, "Parameters and domain"), by value. A later parameter byte is a field more here; no signature changes.
#![tactic(auto)]

ghost use Rattle.std.specs.Prelude.{◌≡◌, get_or, IfOk};
ghost use Rattle.answer.specs.Refusals.{number_in};
ghost use Rattle.params.specs.Parameters as spec;
ghost use Rattle.params.specs.Admission as admission;

use answer::Refusal;

#[repr(C)]
#[derive(Clone, Copy, Debug, PartialEq, Eq)]
pub struct Params {
    pub n: u8,
    pub b: u8,
    pub k: u8,
    pub q: u8,
}

// Parameters that are valid, which `admitted` has found.
#[derive(Clone, Copy)]
pub struct ValidParams {
    pub params: Params,
    pub ghost valid: { spec.Valid params },
}

// What an opening is asked for: a proof under these parameters, bound to this context. A later argument is a field more here.
#[derive(Clone, Copy, Debug, PartialEq, Eq)]
pub struct Terms {
    pub params: Params,
    pub context: [u8; 32],
}

// The number of parameter bytes.
pub const HEADER_SIZE: usize = 4;

// Where section 2's count stands.
pub const ROOT_COUNT_OFFSET: usize = 2 + HEADER_SIZE;

// The parameter bytes, as section 1, the first hash and a job have them.
// Stays, as does `from_header` (what may not change: docs/PROMISES.md names them; a From beside them would do the same twice).
pub fn header(p: Params) -> [u8; HEADER_SIZE]
    ensures { result ≡ spec.header p }
{
    [p.n, p.b, p.k, p.q]
}

// A byte of a slice; past its end 0.
fn byte_at(bytes: &[u8], i: usize) -> u8
    ensures { result ≡ get_or bytes.now i 0 }
{
    bytes.get(i).copied().unwrap_or(0)
}

// The parameters that the bytes at the front are; where there are fewer, zeros.
pub fn from_header(bytes: &[u8]) -> Params
    ensures { result ≡ spec.from_header bytes.now }
{
    let n = byte_at(bytes, 0);
    let b = byte_at(bytes, 1);
    let k = byte_at(bytes, 2);
    let q = byte_at(bytes, 3);
    Params { n, b, k, q }
}

fn in_range(low: u8, x: u8, high: u8) -> bool
    ensures { result ≡ spec.in_range low x high }
{
    (low..=high).contains(&x)
}

#[tactic(auto, unfolding(crate::specs::Parameters::valid))]
pub fn is_valid(p: Params) -> bool
    ensures { result ≡ spec.valid p }
{
    let used = p.b as u32 + p.k as u32;
    let n = p.n as u32;
    let fits = (used <= n) & (n <= used + 6);
    in_range(2, p.n, 20)
        & (in_range(1, p.b, 8) & (in_range(1, p.k, 12) & (in_range(1, p.q, 64) & fits)))
}

// A caller's parameters, where they are admitted.
pub fn admitted(p: Params) -> Result<ValidParams, Refusal>
    ensures number { number_in result ≡ admission.admission p }
    ensures ok { IfOk result (λ v. v.params ≡ p) }
{
    if is_valid(p) {
        Ok(ValidParams { params: p })
    } else {
        Err(Refusal::ParametersNotValid)
    }
}

// Whether a caller's arguments are admitted: the refusal's number, or 0.
// Stays beside `admitted`, which all crates ask (what may not change: docs/PROMISES.md names it, and it cannot fail).
pub fn admission(p: Params) -> u8
    ensures { result ≡ admission.admission p }
{
    match admitted(p) {
        Ok(_) => answer::OPEN,
        Err(refusal) => refusal.number(),
    }
}

// The number of bits of a leaf's index in layer 0.
pub fn index_bits(p: Params) -> u8
    ensures { result ≡ spec.index_bits p }
{
    p.n.saturating_sub(1)
}

// The number of values in a leaf.
pub fn values_per_leaf(p: Params) -> usize
    ensures { result ≡ spec.values_per_leaf p }
{
    2
}

// The height of a layer's tree: the number of siblings in an opening.
pub fn height(p: Params, layer: u8) -> usize
    ensures { result ≡ spec.height p layer }
{
    (p.n as usize).saturating_sub(layer as usize + 1)
}

// The bytes of a leaf's values.
pub fn leaf_length(p: Params) -> usize
    ensures { result ≡ spec.leaf_length p }
{
    4 * values_per_leaf(p)
}

// The bytes of an opening in a layer.
pub fn opening_length(p: Params, layer: u8) -> usize
    ensures { result ≡ spec.opening_length p layer }
{
    leaf_length(p) + 32 * height(p, layer)
}

// The bytes of a query's openings in the first layers.
#[tactic(auto, using(crate::proofs::ParameterLaws::lengths), unfolding(crate::specs::Parameters::query_length))]
pub fn query_length(p: Params, layers: u8) -> usize
    ensures { result ≡ spec.query_length p 0 layers }
{
    let mut sum = 0;
    for j in 0..layers {
        sum += opening_length(p, j);
    }
    sum
}

// The number F of final coefficients.
// Stays, as do the four like it (what may not change: docs/PROMISES.md names each); what they share is `admitted`.
pub fn final_count(p: Params) -> usize
    ensures { result ≡ spec.if_valid p (spec.final_count p) }
{
    admitted(p).map_or(0, |v| v.final_count())
}

// Where a layer's root stands; after the last one stands section 3's count.
pub fn root_offset(layer: u8) -> usize
    ensures { result ≡ spec.root_offset layer }
{
    ROOT_COUNT_OFFSET + 2 + 32 * layer as usize
}

// Where section 4's count stands.
pub fn query_count_offset(p: Params) -> usize
    ensures { result ≡ spec.if_valid p (spec.query_count_offset p) }
{
    admitted(p).map_or(0, |v| v.query_count_offset())
}

// Where section 4's first opening stands.
pub fn queries_offset(p: Params) -> usize
    ensures { result ≡ spec.if_valid p (spec.queries_offset p) }
{
    admitted(p).map_or(0, |v| v.queries_offset())
}

// Where the opening of a query in a layer stands.
pub fn opening_offset(p: Params, query: u8, layer: u8) -> usize
    ensures { result ≡ spec.if_valid p (spec.opening_offset p query layer) }
{
    admitted(p).map_or(0, |v| v.opening_offset(query, layer))
}

// The length L of a file.
pub fn file_length(p: Params) -> usize
    ensures { result ≡ spec.if_valid p (spec.file_length p) }
{
    admitted(p).map_or(0, |v| v.file_length())
}

// The same numbers of parameters that are valid.
impl ValidParams {
    #[tactic(auto, using(crate::proofs::ParameterLaws::final_made))]
    fn final_count(self) -> usize
        ensures { result ≡ spec.final_count self.params }
    {
        let p = self.params;
        let bits = p.n - p.b - p.k;
        binary::power_of_two(bits)
    }

    #[tactic(auto, using(crate::proofs::ParameterLaws::lengths))]
    fn query_count_offset(self) -> usize
        ensures { result ≡ spec.query_count_offset self.params }
    {
        root_offset(self.params.k) + 2 + 4 * self.final_count()
    }

    #[tactic(auto, using(crate::proofs::ParameterLaws::lengths), unfolding(crate::specs::Parameters::queries_offset))]
    fn queries_offset(self) -> usize
        ensures { result ≡ spec.queries_offset self.params }
    {
        self.query_count_offset() + 2
    }

    #[tactic(auto, using(crate::proofs::ParameterLaws::lengths), unfolding(crate::specs::Parameters::opening_offset))]
    fn opening_offset(self, query: u8, layer: u8) -> usize
        ensures { result ≡ spec.opening_offset self.params query layer }
    {
        let p = self.params;
        self.queries_offset() + query as usize * query_length(p, p.k) + query_length(p, layer)
    }

    #[tactic(auto, using(crate::proofs::ParameterLaws::lengths), unfolding(crate::specs::Parameters::file_length))]
    fn file_length(self) -> usize
        ensures { result ≡ spec.file_length self.params }
    {
        let p = self.params;
        self.queries_offset() + p.q as usize * query_length(p, p.k)
    }
}
