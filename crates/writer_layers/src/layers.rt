// The layers: each is evaluated, committed and folded.
ghost use Rattle.std.specs.Prelude.{◌≡◌, ◌≤◌, ◌<◌, length};
ghost use Rattle.sha256.specs.Sha256.{sha256};
ghost use Rattle.params.specs.Parameters.{values_per_leaf, height, final_count_offset};
ghost use Rattle.merkle.specs.Merkle.{root_of};
ghost use Rattle.polynomial.specs.Polynomial.{layer_size};
ghost use Rattle.tree.specs.Tree.{tree_size, leaf_row, rows};
ghost use Rattle.writer_model.specs.Buffers as spec;

use crate::scratch::{Layer, Scratch};
use transcript::Transcript;

// The leaves over a layer's values, and the tree over them. Answers the root.
fn commit(layer: Layer, values: &[u32], space: &mut [u8]) -> [u8; 32]
    requires { (length values.now ≡ layer_size layer.valid.params.n layer.index) × (length space.old ≡ tree_size (height layer.valid.params layer.index)) }
    ensures value { result ≡ root_of sha256 (height layer.valid.params layer.index) (leaf_row sha256 layer.index (values_per_leaf layer.valid.params) (height layer.valid.params layer.index) values.now) }
    ensures space_after { space.new ≡ rows sha256 (height layer.valid.params layer.index) (leaf_row sha256 layer.index (values_per_leaf layer.valid.params) (height layer.valid.params layer.index) values.now) }
{
    let height = layer.height();
    let per = params::values_per_leaf(layer.valid.params);
    tree::hash_leaves(layer.index, per, height, values, space);
    tree::build(height, space)
}

impl Scratch<'_> {
    // One layer.
    fn layer(&mut self, index: u8, s: Transcript, file: &mut [u8]) -> Transcript
        requires layer_in { index < self.old.valid.params.k }
        requires room { final_count_offset self.old.valid.params ≤ length file.old }
        ensures state_value { result.state ≡ (spec.layered self.old.valid.params sha256 index (spec.buffers self.old.numbers.now self.old.bytes.now file.old s.state)).state }
        ensures numbers_after { self.new.numbers.now ≡ (spec.layered self.old.valid.params sha256 index (spec.buffers self.old.numbers.now self.old.bytes.now file.old s.state)).numbers }
        ensures bytes_after { self.new.bytes.now ≡ (spec.layered self.old.valid.params sha256 index (spec.buffers self.old.numbers.now self.old.bytes.now file.old s.state)).bytes }
        ensures file_after { file.new ≡ (spec.layered self.old.valid.params sha256 index (spec.buffers self.old.numbers.now self.old.bytes.now file.old s.state)).file }
        ensures valid_kept { self.new.valid ≡ self.old.valid }
    {
        let layer = Layer {
            valid: self.valid,
            index,
        };
        let size = layer.size();
        let count = layer.count();
        let from = 32 * size;
        let to = from + 64 * layer.leaves() - 32;
        let numbers = &mut *self.numbers;
        let bytes = &mut *self.bytes;
        polynomial::values(&mut numbers[..2 * size], count, layer.valid.params.n, index);
        let root = commit(layer, &numbers[size..2 * size], &mut bytes[from..to]);
        buffer::put(file, params::root_offset(index), &root);
        let next = s.absorb_root(root);
        let beta = next.challenge();
        polynomial::fold(&mut numbers[..count], beta);
        next
    }

    // All layers.
    pub fn layers(&mut self, s: Transcript, file: &mut [u8]) -> Transcript
        requires { final_count_offset self.old.valid.params ≤ length file.old }
        ensures state_value { result.state ≡ (spec.all_layered self.old.valid.params sha256 self.old.valid.params.k (spec.buffers self.old.numbers.now self.old.bytes.now file.old s.state)).state }
        ensures numbers_after { self.new.numbers.now ≡ (spec.all_layered self.old.valid.params sha256 self.old.valid.params.k (spec.buffers self.old.numbers.now self.old.bytes.now file.old s.state)).numbers }
        ensures bytes_after { self.new.bytes.now ≡ (spec.all_layered self.old.valid.params sha256 self.old.valid.params.k (spec.buffers self.old.numbers.now self.old.bytes.now file.old s.state)).bytes }
        ensures file_after { file.new ≡ (spec.all_layered self.old.valid.params sha256 self.old.valid.params.k (spec.buffers self.old.numbers.now self.old.bytes.now file.old s.state)).file }
        ensures valid_kept { self.new.valid ≡ self.old.valid }
    {
        let mut t = s;
        for index in 0..self.valid.params.k {
            t = self.layer(index, t, file);
        }
        t
    }
}
