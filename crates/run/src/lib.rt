//! The run of a connection, the classes of (A + j) mod F, in the tree; and the schedule that has none.
#![tactic(auto)]

ghost use Rattle.std.specs.Prelude.{◌≡◌, ◌+◌, ◌<◌, ◌≤◌, ◌^◌};
ghost use Rattle.rules.specs.Classes.{depth};
ghost use Rattle.rules.specs.Ownership.{nobody as no_connection};
ghost use Rattle.tree.specs.Promises.{IsTree};
ghost use Rattle.run.specs.Promises.{Starts, Factor, ClassAt, MinusMod, RunFreeSays, SetsRun};

mod finding;

pub use finding::live_connection;
use rules::{Connection, HANDLES, Schedule, TREE_BYTES, Tree};

/// A free slot: no run, all zeros.
pub fn nobody() -> Connection
    ensures { result ≡ no_connection }
{
    Connection::default()
}

/// A fresh schedule.
pub fn fresh() -> Schedule
    ensures { Starts result }
{
    // not by a derived `Default`: that the tree's zeros are a tree is the promise of `empty`
    let connections = [nobody(); HANDLES];
    let bytes = tree::empty();
    let tree = Tree { bytes };
    Schedule { connections, tree }
}

/// F = 2^k.
pub fn factor(k: u32) -> u32
    requires { k ≤ depth }
    ensures { Factor k result }
{
    1u32 << k
}

/// The class of block j of a run: (A + j) mod F.
pub fn class_at(k: u32, anchor: u32, j: u32) -> u32
    requires { (k ≤ depth) × (anchor < 2 ^ k) × (j ≤ 2 ^ k) }
    ensures { ClassAt k anchor j result }
{
    (anchor + j) & (factor(k) - 1)
}

/// (a - b) mod F, for any two blocks.
pub fn minus_mod(k: u32, a: u32, b: u32) -> u32
    requires { k ≤ depth }
    ensures { MinusMod k a b result }
{
    let f = factor(k);
    let mask = f - 1;
    ((a & mask) + (f - (b & mask))) & mask
}

/// Whether every class of a run is free.
pub fn run_free(tree: &[u8; TREE_BYTES], k: u32, anchor: u32, length: u32) -> bool
    requires { (k ≤ depth) × (anchor < 2 ^ k) × (length ≤ 2 ^ k) × IsTree tree.now }
    ensures { RunFreeSays k anchor length tree.now result }
{
    (0..length).all(|j| tree::is_free(tree, k, class_at(k, anchor, j)))
}

/// Takes the classes of a run, from its block `from` to before its block `to`, or gives them back.
// `taken` is the word `bit` of the promise `SetsRun`: one loop and one invariant for both.
pub fn set_run(tree: &mut [u8; TREE_BYTES], k: u32, anchor: u32, from: u32, to: u32, taken: bool)
    requires { (k ≤ depth) × (anchor < 2 ^ k) × (from ≤ to) × (to ≤ 2 ^ k) × IsTree tree.old }
    ensures { SetsRun k anchor from to taken tree.old tree.new }
{
    for j in from..to {
        let r = class_at(k, anchor, j);
        if taken {
            tree::take_class(tree, k, r);
        } else {
            tree::give_back(tree, k, r);
        }
    }
}
