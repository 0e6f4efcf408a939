//! The tree of taken blocks: a bit for each node.
//!
//! The functions take the bytes, and are no methods of `Tree`: that stands in `rules`, below this
//! crate, and goes to C by value inside a `Schedule`, so that no ghost can say that it is a tree.
//! Half-way through a class the bytes are no tree: `WritesBelow` and `MissingOver` speak of those.
#![tactic(auto)]

ghost use Rattle.std.specs.Prelude.{◌≡◌, ◌+◌, ◌*◌, ◌<◌, ◌≤◌, ◌^◌};
ghost use Rattle.rules.specs.Time.{list_blocks};
ghost use Rattle.rules.specs.Classes.{depth};
ghost use Rattle.blocks.specs.Taking.{nothing};
ghost use Rattle.rules.specs.Mirror.{mirrored};
ghost use Rattle.rules.specs.TreeBytes.{tree_of, bit_at};
ghost use Rattle.blocks.specs.Children.{Sized};
ghost use Rattle.tree.specs.Promises.{Mirrored, Writes, WritesBelow, Joins, MissingOver, JoinsAbove, FreeSays, IsTree, WritesClass, Takes, GivesBack};

use rules::{DEPTH, TREE_BYTES};

/// The tree of which no block is taken.
pub fn empty() -> [u8; TREE_BYTES]
    ensures { result ≡ tree_of nothing }
{
    [0u8; TREE_BYTES]
}

/// p with its k bits in mirrored order: of 16 bits the halves are exchanged, then the quarters, then twos, then ones, and
/// what the width does not need is shifted away.
pub fn mirror(k: u32, p: u32) -> u32
    requires { k ≤ depth }
    ensures { Mirrored k p result }
{
    let eights = ((p & 0x00ff) << 8) | ((p >> 8) & 0x00ff);
    let fours = ((eights & 0x0f0f) << 4) | ((eights >> 4) & 0x0f0f);
    let twos = ((fours & 0x3333) << 2) | ((fours >> 2) & 0x3333);
    let ones = ((twos & 0x5555) << 1) | ((twos >> 1) & 0x5555);
    ones >> (16 - k)
}

// The node that covers the class of r for the factor 2^k.
fn node(k: u32, r: u32) -> usize
    requires { k ≤ depth }
    ensures { result ≡ 2 ^ k + mirrored k r }
{
    // a u32 as a place, which `From` does not give
    ((1u32 << k) | mirror(k, r)) as usize
}

/// A node's bit.
pub fn is_set(tree: &[u8; TREE_BYTES], n: usize) -> bool
    requires { n < 2 * list_blocks }
    ensures { result ≡ bit_at tree.now n }
{
    (tree[n >> 3] >> (n & 7)) & 1 == 1
}

/// Whether the class of r for the factor 2^k is free.
pub fn is_free(tree: &[u8; TREE_BYTES], k: u32, r: u32) -> bool
    requires { (k ≤ depth) × (r < 2 ^ k) × IsTree tree.now }
    ensures { FreeSays k r tree.now result }
{
    !is_set(tree, node(k, r))
}

fn write_node(tree: &mut [u8; TREE_BYTES], n: usize, taken: bool)
    requires { n < 2 * list_blocks }
    ensures { Writes n taken tree.old tree.new }
{
    let at = n >> 3;
    let bit = 1u8 << (n & 7);
    // no branch: the compiler then sees through write_below that no pointer to the tree is kept, and copies a schedule less often
    let wanted = u8::from(taken) << (n & 7);
    tree[at] = (tree[at] & !bit) | wanted;
}

// Marking a node reaches every node beneath it, `left` levels down to the leaves.
fn write_below(tree: &mut [u8; TREE_BYTES], n: usize, left: u32, taken: bool)
    requires { (n + 1) * 2 ^ left ≤ 2 * list_blocks }
    ensures { WritesBelow left n taken tree.old tree.new }
{
    write_node(tree, n, taken);
    if 0 < left {
        write_below(tree, 2 * n, left - 1, taken);
        write_below(tree, 2 * n + 1, left - 1, taken);
    }
}

// Node n becomes the OR of its two children, and whether that changed it.
fn join(tree: &mut [u8; TREE_BYTES], n: usize) -> bool
    requires { (0 < n) × (n < list_blocks) }
    ensures { Joins n tree.old tree.new result }
{
    let either = is_set(tree, 2 * n) || is_set(tree, 2 * n + 1);
    if is_set(tree, n) == either {
        return false;
    }
    write_node(tree, n, either);
    true
}

// Each ancestor of n becomes the OR of its two children, from below; one that stays as it was leaves all above it as they were.
fn join_above(tree: &mut [u8; TREE_BYTES], n: usize)
    requires { (0 < n) × (n < 2 * list_blocks) × MissingOver n tree.old }
    ensures { JoinsAbove n tree.old tree.new }
{
    let mut v = n;
    while 1 < v {
        v >>= 1;
        if !join(tree, v) {
            return;
        }
    }
}

// The node of a class, with all nodes under it, gets one bit; then its ancestors follow.
fn write_class(tree: &mut [u8; TREE_BYTES], k: u32, r: u32, taken: bool)
    requires { (k ≤ depth) × (r < 2 ^ k) × IsTree tree.old }
    ensures { WritesClass k r taken tree.old tree.new }
{
    let n = node(k, r);
    write_below(tree, n, DEPTH - k, taken);
    join_above(tree, n);
}

/// Takes the class of r for the factor 2^k.
pub fn take_class(tree: &mut [u8; TREE_BYTES], k: u32, r: u32)
    requires { (k ≤ depth) × (r < 2 ^ k) × IsTree tree.old }
    ensures { Takes k r tree.old tree.new }
{
    write_class(tree, k, r, true);
}

/// Gives the class of r for the factor 2^k back.
pub fn give_back(tree: &mut [u8; TREE_BYTES], k: u32, r: u32)
    requires { (k ≤ depth) × (r < 2 ^ k) × IsTree tree.old }
    ensures { GivesBack k r tree.old tree.new }
{
    write_class(tree, k, r, false);
}
