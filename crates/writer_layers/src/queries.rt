// Section 4: the openings of each query, read from the layers' values and trees.
ghost use Rattle.std.specs.Prelude.{◌≡◌, ◌+◌, ◌*◌, ◌^◌, ◌≤◌, ◌<◌, length};
ghost use Rattle.std.proofs.lemmas.List.Edits.{sets};
ghost use Rattle.sha256.specs.Sha256.{sha256};
ghost use Rattle.message.specs.Bytes.{words};
ghost use Rattle.params.specs.Parameters.{leaf_count, opening_length, query_length};
ghost use Rattle.tree.specs.Tree.{values_of};
ghost use Rattle.writer_model.specs.Buffers as spec;

use crate::scratch::{Layer, Scratch};
use transcript::Transcript;

// The values of leaf m, where so many leaves have so many values each, in 4 bytes each.
// Stays (no plainer): the count is the step from one value of a leaf to the next, not the length of the values.
fn put_values(per: usize, count: usize, values: &[u32], m: usize, file: &mut [u8], at: usize)
    requires { ((m < count) × (count ≤ 1073741824)) × ((length values.now ≡ per * count) × (at + 4 * per ≤ length file.old)) }
    ensures { file.new ≡ sets file.old at (words (values_of per count values.now m)) }
{
    for r in 0..per {
        message::put_number(file, at + 4 * r, values[m + r * count]);
    }
}

impl Scratch<'_> {
    // The opening of a leaf of a layer.
    // Stays a file and a place in it (no plainer: the model's `Buffers` puts each part at a place, and `&mut file[at..]` would stand at each call).
    fn opening(&self, index: u8, m: u32, file: &mut [u8], at: usize)
        requires layer_in { index < self.now.valid.params.k }
        requires leaf_in { m < leaf_count self.now.valid.params index }
        requires room { at + opening_length self.now.valid.params index ≤ length file.old }
        ensures { file.new ≡ sets file.old at (spec.opening_in self.now.valid.params index m self.now.numbers.now self.now.bytes.now) }
    {
        let p = self.valid.params;
        let layer = Layer {
            valid: self.valid,
            index,
        };
        let size = layer.size();
        let count = layer.leaves();
        let leaf = m as usize;
        let from = 32 * size;
        let to = from + 64 * count - 32;
        put_values(
            params::values_per_leaf(p),
            count,
            &self.numbers[size..2 * size],
            leaf,
            file,
            at,
        );
        tree::put_path(
            &self.bytes[from..to],
            layer.height(),
            leaf,
            file,
            at + params::leaf_length(p),
        );
    }

    // The openings of the query whose leaf in layer 0 is m.
    fn query(&self, m: u32, file: &mut [u8], at: usize)
        requires { at + query_length self.now.valid.params 0 self.now.valid.params.k ≤ length file.old }
        ensures { file.new ≡ sets file.old at (spec.query_in self.now.valid.params m self.now.numbers.now self.now.bytes.now) }
    {
        let p = self.valid.params;
        let mut to = at;
        for index in 0..p.k {
            let leaf = domain::leaf_of(p.n, index, m);
            self.opening(index, leaf, file, to);
            to += params::opening_length(p, index);
        }
    }

    // All queries.
    pub fn queries(&self, s: Transcript, file: &mut [u8], at: usize)
        requires { at + self.now.valid.params.q * query_length self.now.valid.params 0 self.now.valid.params.k ≤ length file.old }
        ensures { file.new ≡ sets file.old at (spec.queries_in self.now.valid.params sha256 s.state self.now.numbers.now self.now.bytes.now) }
    {
        let p = self.valid.params;
        let size = params::query_length(p, p.k);
        let mut to = at;
        for i in 0..p.q {
            self.query(s.draw(p, i), file, to);
            to += size;
        }
    }
}
