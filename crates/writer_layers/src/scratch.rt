// The scratch that is lent to the writer, and a layer of the proof that stands there.
ghost use Rattle.std.specs.Prelude.{◌≡◌, ◌*◌, ◌^◌, ◌-◌, ◌≤◌, ◌<◌, length};
ghost use Rattle.params.specs.Parameters.{height, leaf_count};
ghost use Rattle.polynomial.specs.Polynomial.{layer_size};

use params::ValidParams;

// Room for each layer of a proof under the parameters: its values among the numbers, and its tree among the bytes.
#[derive(Drop)]
pub struct Scratch<'a> {
    pub valid: ValidParams,
    pub numbers: &'a mut [u32],
    pub bytes: &'a mut [u8],
    pub ghost numbers_fit: { 2 * 2 ^ valid.params.n ≤ length numbers.now },
    pub ghost bytes_fit: { 64 * 2 ^ valid.params.n ≤ length bytes.now },
}

#[derive(Clone, Copy)]
pub struct Layer {
    pub valid: ValidParams,
    pub index: u8,
    pub ghost within: { index < valid.params.k },
}

impl Layer {
    // The number of points.
    pub fn size(self) -> usize
        ensures { (result ≡ layer_size self.valid.params.n self.index) × (result ≤ 1073741824) }
    {
        let p = self.valid.params;
        binary::power_of_two(p.n - self.index)
    }

    // The number of coefficients of its polynomial.
    pub fn count(self) -> usize
        ensures { (result ≡ 2 ^ (self.valid.params.n - self.valid.params.b - self.index)) × (result ≤ 1073741824) }
    {
        let p = self.valid.params;
        binary::power_of_two(p.n - p.b - self.index)
    }

    // The height of its tree, and the number of leaves.
    pub fn height(self) -> u8
        ensures { (result ≡ height self.valid.params self.index) × (result ≤ 30) }
    {
        params::height(self.valid.params, self.index) as u8
    }

    pub fn leaves(self) -> usize
        ensures { (result ≡ leaf_count self.valid.params self.index) × ((1 ≤ result) × (result ≤ 1073741824)) }
    {
        binary::power_of_two(self.height())
    }
}
