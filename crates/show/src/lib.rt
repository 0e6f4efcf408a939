//! What the test programs print with.
#![tactic(auto)]

use rules::{LIST_BLOCKS, TREE_BYTES};

// Node 0, which is none, and the nodes of the tree.
const NODES: usize = 2 * LIST_BLOCKS;

/// Words as they are.
pub fn word(rt: &impl Print, w: &[u8]) {
    let _ = rt.write_all(w);
}

/// A space and a number.
pub fn number(rt: &impl Print, n: u64) {
    word(rt, b" ");
    let _ = rt.print(n);
}

/// The end of a line.
pub fn end(rt: &impl Print) {
    word(rt, b"\n");
}

/// How many bits of a tree are set.
pub fn bits(tree: &[u8; TREE_BYTES]) -> u64 {
    // a usize as a u64, which `From` does not give
    (0..NODES).filter(|&n| tree::is_set(tree, n)).count() as u64
}

/// Every byte of a tree, in hexadecimal.
pub fn bytes(rt: &impl Print, tree: &[u8; TREE_BYTES]) {
    for byte in tree {
        let _ = print!(rt; "{byte:02x}");
    }
}
