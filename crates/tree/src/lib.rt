// A Merkle tree in lent bytes: the digests of a layer's leaves, the tree over digests, whose rows stand one after the other with the root last, and
// the path of a leaf read from there.
#![tactic(auto)]

ghost use Rattle.std.specs.Prelude.{◌≡◌, ◌+◌, ◌*◌, ◌/◌, ◌%◌, ◌^◌, ◌≤◌, ◌<◌, MatchOption, length, take};
ghost use Rattle.std.proofs.lemmas.List.Edits.{sets};
ghost use Rattle.sha256.specs.Sha256.{sha256};
ghost use Rattle.message.specs.Bytes.{joined, part};
ghost use Rattle.merkle.specs.Merkle as merkle;
ghost use Rattle.tree.specs.Tree as spec;

// The height of a tree whose bytes have indices.
#[derive(Clone, Copy)]
struct Height {
    levels: u8,
    ghost bounded: { levels ≤ 30 },
}

impl Height {
    fn new(levels: u8) -> Option<Height>
        ensures { MatchOption result (30 < levels) (λ h. h.levels ≡ levels) }
    {
        if levels <= 30 {
            Some(Height { levels })
        } else {
            None
        }
    }

    // How many leaves such a tree has.
    fn leaves(self) -> usize
        ensures { (result ≡ 2 ^ self.levels) × ((1 ≤ result) × (result ≤ 1073741824)) }
    {
        binary::power_of_two(self.levels)
    }

    // How many bytes it has.
    fn size(self) -> usize
        ensures { result ≡ spec.tree_size self.levels }
    {
        64 * self.leaves() - 32
    }
}

// The values of leaf m, where so many leaves have so many values each.
// Stays (no plainer): the count is the step from one value of a leaf to the next, not the length of the values.
fn values_of(per: usize, count: usize, values: &[u32], m: usize) -> [u32; 4]
    requires { ((per ≤ 4) × (count ≤ 1073741824)) × ((m < count) × (length values.now ≡ per * count)) }
    ensures { take per result ≡ spec.values_of per count values.now m }
{
    let mut leaf = [0u32; 4];
    for r in 0..per {
        leaf[r] = values[m + r * count];
    }
    leaf
}

// The digests of a layer's leaves, which fit, to the front.
fn put_leaves(layer: u8, per: usize, height: Height, values: &[u32], space: &mut [u8])
    requires { (per ≤ 4) × ((length values.now ≡ per * 2 ^ height.levels) × (32 * 2 ^ height.levels ≤ length space.old)) }
    ensures { space.new ≡ sets space.old 0 (joined (spec.leaf_row sha256 layer per height.levels values.now)) }
{
    let count = height.leaves();
    for m in 0..count {
        let leaf = values_of(per, count, values, m);
        let digest = merkle::leaf_digest(layer, leaf, per);
        buffer::put(space, 32 * m, &digest);
    }
}

// The digests of a layer's leaves over its values, to the front of a space.
#[tactic(auto, using(crate::proofs::Rows::leaves_fit, crate::proofs::Rows::leaves_stay), unfolding(crate::specs::Tree::leaves_put, crate::specs::Tree::is_layer))]
pub fn hash_leaves(layer: u8, per: usize, height: u8, values: &[u32], space: &mut [u8])
    ensures { space.new ≡ spec.leaves_put sha256 layer per height values.now space.old }
{
    if let Some(height) = Height::new(height) {
        let count = height.leaves();
        if per <= 4 && values.len() == per * count && 32 * count <= space.len() {
            put_leaves(layer, per, height, values, space);
        }
    }
}

// The node above two digests that stand one after the other.
fn node_above(space: &[u8], at: usize) -> [u8; 32]
    requires { at + 64 ≤ length space.now }
    ensures { result ≡ merkle.node sha256 (part at 32 space.now) (part (at + 32) 32 space.now) }
{
    let (left, right) = space[at..at + 64].split_at(32);
    message::tagged_hash(1, left, right)
}

// The nodes above the digests below, to the front of the space above.
fn row(below: &[u8], above: &mut [u8])
    requires { (length below.now % 64 ≡ 0) × (length below.now ≤ 2 * length above.old) }
    ensures { above.new ≡ sets above.old 0 (joined (merkle.above sha256 (merkle.digests (2 * (length below.now / 64)) below.now))) }
{
    for i in 0..below.len() / 64 {
        let node = node_above(below, 64 * i);
        buffer::put(above, 32 * i, &node);
    }
}

// All rows above the leaves.
fn hash_rows(space: &mut [u8], height: Height)
    requires { length space.old ≡ spec.tree_size height.levels }
    ensures { space.new ≡ spec.rows sha256 height.levels (merkle.digests (2 ^ height.levels) space.old) }
{
    let mut from = 0;
    let mut count = height.leaves();
    for _ in 0..height.levels {
        count /= 2;
        let (below, above) = space.split_at_mut(from + 64 * count);
        row(&below[from..], above);
        from += 64 * count;
    }
}

// The tree over the digests in the front of a space. Answers its root.
#[tactic(auto, unfolding(crate::specs::Tree::root_over, crate::specs::Tree::tree_over, crate::specs::Tree::is_tree_size))]
pub fn build(height: u8, space: &mut [u8]) -> [u8; 32]
    ensures value { result ≡ spec.root_over sha256 height space.old }
    ensures space_after { space.new ≡ spec.tree_over sha256 height space.old }
{
    let mut root = [0u8; 32];
    if let Some(height) = Height::new(height) {
        if space.len() == height.size() {
            hash_rows(space, height);
            root.copy_from_slice(&space[height.size() - 32..]);
        }
    }
    root
}

// The siblings of a leaf, from the leaf up.
fn walk(tree: &[u8], height: Height, m: usize, buffer: &mut [u8], at: usize)
    requires { (m < 2 ^ height.levels) × ((length tree.now ≡ spec.tree_size height.levels) × (at + 32 * height.levels ≤ length buffer.old)) }
    ensures { buffer.new ≡ sets buffer.old at (spec.siblings_in height.levels tree.now m) }
{
    let mut row = tree;
    let mut width = height.leaves();
    let mut index = m;
    for level in 0..height.levels {
        let sibling = 32 * (index ^ 1);
        let to = at + 32 * level as usize;
        buffer::put(buffer, to, &row[sibling..sibling + 32]);
        row = &row[32 * width..];
        width /= 2;
        index /= 2;
    }
}

#[tactic(auto, using(crate::proofs::Rows::path_within, crate::proofs::Rows::path_beyond), unfolding(crate::specs::Tree::path_put, crate::specs::Tree::is_path, crate::specs::Tree::is_tree_size))]
pub fn put_path(tree: &[u8], height: u8, m: usize, buffer: &mut [u8], at: usize)
    ensures { buffer.new ≡ spec.path_put height tree.now m buffer.old at }
{
    if let Some(height) = Height::new(height) {
        if tree.len() == height.size()
            && m < height.leaves()
            && at <= buffer.len()
            && 32 * height.levels as usize <= buffer.len() - at
        {
            walk(tree, height, m, buffer, at);
        }
    }
}
