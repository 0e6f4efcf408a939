//! Where an admission goes: checks 2, 4, 15, 5, 20, 6, and the search for the first open anchor.
#![tactic(auto)]

ghost use Rattle.std.specs.Prelude.{◌≡◌, ◌<◌, ◌≤◌, ◌^◌, ℕ};
ghost use Rattle.rules.specs.Ownership.{largest_k};
ghost use Rattle.place.specs.Steps.{of_interval, of_smallest, of_range, of_share, of_half, interval_step, smallest_step, range_step, share_step, half_step};
ghost use Rattle.tree.specs.Promises.{IsTree};
ghost use Rattle.place.specs.Promises.{Anchors, StretchesBy, Measures, Lengthens, IsRoom};
ghost use Rattle.place.specs.Promises.{Searches, FindsFirst, Plans};

use rules::{BLOCK_SLOTS, LARGEST_K, LEAST_INTERVAL, Plan, Refusal, TREE_BYTES, Verdict};
use run::{class_at, factor};

/// A row of the search has a place for each class of the largest factor.
pub const ROW_CLASSES: usize = 1 << LARGEST_K;

// So many blocks of a run are looked for one by one in a row.
const SHORT_RUN: u32 = 16;

// The largest k, up to that of a connection, with 6 × 2^k not above the largest interval.
fn k_of(largest: u32) -> Option<u8>
    ensures { of_interval result ≡ interval_step largest }
{
    match largest {
        6..=11 => Some(0),
        12..=23 => Some(1),
        24..=47 => Some(2),
        48..=95 => Some(3),
        96..=191 => Some(4),
        192..=383 => Some(5),
        384..=767 => Some(6),
        768..=1535 => Some(7),
        1536..=3200 => Some(LARGEST_K),
        _ => None,
    }
}

// The smallest interval is from the least that there is to the largest.
#[tactic(auto, unfolding(crate::specs::Steps::smallest_step))]
fn smallest_of(smallest: u32, largest: u32) -> Verdict
    ensures { of_smallest result ≡ smallest_step smallest largest }
{
    if smallest < LEAST_INTERVAL {
        return Verdict::Refuses;
    }
    if largest < smallest {
        return Verdict::Refuses;
    }
    Verdict::Passes
}

// Where the longest interval up to the largest is below the smallest, none is in the range.
#[tactic(auto, unfolding(crate::specs::Steps::range_step))]
fn range_of(smallest: u32, f: u32) -> Verdict
    requires { f ≤ 2 ^ largest_k }
    ensures { of_range result ≡ range_step smallest f }
{
    if BLOCK_SLOTS * f < smallest {
        return Verdict::Refuses;
    }
    Verdict::Passes
}

#[tactic(auto, unfolding(crate::specs::Steps::share_step))]
fn share_of(floor: u32, ceiling: u32, f: u32) -> Verdict
    ensures { of_share result ≡ share_step floor ceiling f }
{
    if floor == 0 {
        return Verdict::Refuses;
    }
    if ceiling < floor {
        return Verdict::Refuses;
    }
    if f < ceiling {
        return Verdict::Refuses;
    }
    Verdict::Passes
}

// Twice the ceiling is above F exactly if the ceiling is above half of F, rounded down: so nothing is doubled, and any two numbers will do.
#[tactic(auto, unfolding(crate::specs::Steps::half_step))]
fn half_of(ceiling: u32, f: u32) -> Verdict
    ensures { of_half result ≡ half_step ceiling f }
{
    if f / 2 < ceiling {
        return Verdict::Refuses;
    }
    Verdict::Passes
}

/// The anchors of a depth in node order. Those of places 2p and 2p + 1 are that of p, moved down a bit, without the highest
/// bit and with it.
pub fn list_anchors(k: u32, anchors: &mut [u16; ROW_CLASSES])
    requires { k ≤ largest_k }
    ensures { Anchors k anchors.new }
{
    // a factor is at most 512: as a place here, and its half as an anchor below, nothing is lost
    let highest = factor(k) as usize >> 1;
    anchors[0] = 0;
    // by index: what is written at 2p and 2p + 1 is read again at a later p
    for p in 0..highest {
        let half = anchors[p] >> 1;
        anchors[2 * p] = half;
        anchors[2 * p + 1] = half + highest as u16;
    }
}

// How many classes are free from each one on, up to the last of the depth; none where it is taken,
// as `taken` says.
fn stretches<F: Fn(usize) -> bool>(taken: F, k: u32, room: &mut [u16; ROW_CLASSES])
    requires deep { k ≤ largest_k }
    requires asked { (c : ℕ) → c < 2 ^ k → F.pre taken c }
    ensures { StretchesBy k (F.post taken) room.new }
{
    let mut free: u16 = 0;
    // a factor is at most 512: as a place nothing is lost
    for c in (0..factor(k) as usize).rev() {
        free = if taken(c) { 0 } else { free + 1 };
        room[c] = free;
    }
}

// The stretches by the tree. Mirrored twice a number comes back, so that the place of class c is
// what the anchors have at c.
fn measure(
    tree: &[u8; TREE_BYTES],
    anchors: &[u16; ROW_CLASSES],
    k: u32,
    room: &mut [u16; ROW_CLASSES],
)
    requires { (k ≤ largest_k) × Anchors k anchors.now }
    ensures { Measures k tree.now room.new }
{
    // a factor is at most 512: as a place nothing is lost
    let f = factor(k) as usize;
    stretches(|c| tree::is_set(tree, f + usize::from(anchors[c])), k, room);
}

// The stretches by a row that says of each class no more than whether it is free.
fn lengthen(row: &[u16; ROW_CLASSES], k: u32, room: &mut [u16; ROW_CLASSES])
    requires { k ≤ largest_k }
    ensures { Lengthens k row.now room.new }
{
    stretches(|c| row[c] == 0, k, room);
}

// The first anchor in node order whose whole run is free; a run is passed by its stretches of free classes.
fn search(
    room: &[u16; ROW_CLASSES],
    anchors: &[u16; ROW_CLASSES],
    k: u32,
    floor: u32,
) -> Option<u16>
    requires { (k ≤ largest_k) × (1 ≤ floor) × (floor ≤ 2 ^ k) × Anchors k anchors.now × IsRoom k room.now }
    ensures { Searches k floor room.now result }
{
    // a factor is at most 512, and a class below it: as places nothing is lost
    let f = factor(k) as usize;
    'nodes: for &a in &anchors[..f] {
        let mut j = u32::from(room[usize::from(a)]);
        if j == 0 {
            continue 'nodes;
        }
        while j < floor {
            let free = u32::from(room[class_at(k, u32::from(a), j) as usize]);
            if free == 0 {
                continue 'nodes;
            }
            j += free;
        }
        return Some(a);
    }
    None
}

/// The first anchor in node order whose whole run is free, over a row that says of each class whether it is. For a longer run the stretches are measured
/// first, as its trials that fail late would take more than that (docs/BENCH.md).
pub fn search_row(
    row: &[u16; ROW_CLASSES],
    anchors: &[u16; ROW_CLASSES],
    k: u32,
    floor: u32,
) -> Option<u16>
    requires { (k ≤ largest_k) × (1 ≤ floor) × (floor ≤ 2 ^ k) × Anchors k anchors.now × IsRoom k row.now }
    ensures { Searches k floor row.now result }
{
    if floor <= SHORT_RUN {
        return search(row, anchors, k, floor);
    }
    let mut room = [0u16; ROW_CLASSES];
    lengthen(row, k, &mut room);
    search(&room, anchors, k, floor)
}

// The first open anchor, by the free stretches of the depth.
fn first_by_stretches(tree: &[u8; TREE_BYTES], k: u32, floor: u32) -> Option<u16>
    requires { (k ≤ largest_k) × (1 ≤ floor) × (floor ≤ 2 ^ k) × IsTree tree.now }
    ensures { FindsFirst k floor tree.now result }
{
    let mut anchors = [0u16; ROW_CLASSES];
    let mut room = [0u16; ROW_CLASSES];
    list_anchors(k, &mut anchors);
    measure(tree, &anchors, k, &mut room);
    search(&room, &anchors, k, floor)
}

// The first anchor in node order whose whole run is free, block by block. The node of its first block is its own place, so
// that a taken one is passed with no mirror.
fn first_by_blocks(tree: &[u8; TREE_BYTES], k: u32, floor: u32) -> Option<u16>
    requires { (k ≤ largest_k) × (1 ≤ floor) × (floor ≤ 2 ^ k) × IsTree tree.now }
    ensures { FindsFirst k floor tree.now result }
{
    let f = factor(k);
    // a node is below 1,024, as a place, and an anchor below 512, as a u16: nothing is lost
    'nodes: for p in 0..f {
        if tree::is_set(tree, (f + p) as usize) {
            continue 'nodes;
        }
        let a = tree::mirror(k, p);
        for j in 1..floor {
            if !tree::is_free(tree, k, class_at(k, a, j)) {
                continue 'nodes;
            }
        }
        return Some(a as u16);
    }
    None
}

// The first open anchor, or none. A run of one or two blocks needs no measuring; of a longer one the trials that fail late
// would take more than that (docs/BENCH.md has the counts).
fn first_open(tree: &[u8; TREE_BYTES], k: u32, floor: u32) -> Option<u16>
    requires { (k ≤ largest_k) × (1 ≤ floor) × (floor ≤ 2 ^ k) × IsTree tree.now }
    ensures { FindsFirst k floor tree.now result }
{
    match floor {
        1..=2 => first_by_blocks(tree, k, floor),
        _ => first_by_stretches(tree, k, floor),
    }
}

/// Where an admission goes, or the number of the first check from 2 on that refuses.
pub fn plan(
    tree: &[u8; TREE_BYTES],
    live: bool,
    smallest: u32,
    largest: u32,
    floor: u32,
    ceiling: u32,
) -> Result<Plan, Refusal>
    requires { IsTree tree.now }
    ensures { Plans live smallest largest floor ceiling tree.now result }
{
    if live {
        return Err(Refusal::HandleLive);
    }
    let Some(k) = k_of(largest) else {
        return Err(Refusal::IntervalOutside);
    };
    let Verdict::Passes = smallest_of(smallest, largest) else {
        return Err(Refusal::IntervalOutside);
    };
    let depth = u32::from(k);
    let f = factor(depth);
    let Verdict::Passes = range_of(smallest, f) else {
        return Err(Refusal::NoInterval);
    };
    let Verdict::Passes = share_of(floor, ceiling, f) else {
        return Err(Refusal::ShareWrong);
    };
    let Verdict::Passes = half_of(ceiling, f) else {
        return Err(Refusal::CeilingAboveHalf);
    };
    let Some(anchor) = first_open(tree, depth, floor) else {
        return Err(Refusal::NoOpenAnchor);
    };
    Ok(Plan { k, anchor })
}
