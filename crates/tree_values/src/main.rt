//! Runs the rule sheet's values of the tree that are not marked P, and the mirror beside a walk, and prints what it finds.
#![tactic(auto)]

ghost use Rattle.std.specs.Prelude.{◌<◌, ◌≤◌, ◌^◌, ℕ};
ghost use Rattle.rules.specs.Time.{list_blocks};
ghost use Rattle.rules.specs.Classes.{depth};

use image::load;
use rules::{DEPTH, LEAST_INTERVAL, Schedule, TREE_BYTES};
use schedule::{admit, drop, fresh};

// The tree of one connection of length 1.
fn single(k: u32, anchor: u32) -> [u8; TREE_BYTES]
    requires { (k ≤ depth) × (anchor < 2 ^ k) }
{
    let mut t = tree::empty();
    tree::take_class(&mut t, k, anchor);
    t
}

fn say_bits(rt: &impl Print, s: Schedule) {
    show::word(rt, b"bits set:");
    show::number(rt, show::bits(&s.tree.bytes));
    show::end(rt);
}

// Schedules: none live; F 8 admitted; F 1 refused; F 1 of an older image, and its drop.
fn scheduled(rt: &impl Print) {
    say_bits(rt, fresh());
    let eighth = admit(fresh(), 0, LEAST_INTERVAL, 48, 1, 1);
    say_bits(rt, eighth.schedule);
    let refused = admit(fresh(), 63, LEAST_INTERVAL, 6, 1, 1);
    say_bits(rt, refused.schedule);
    // an image: one connection, handle 63, of F 1 with length, floor and ceiling 1, at rest; and its tree
    let whole = load(
        fresh(),
        b"\x02\0\x01\0\x01\0\
        \x0e\0\x02\0\x3f\0\0\0\x01\0\x01\0\x01\0\x88\x13\0\0\
        \x80\0\x03\0\
        \xfe\xff\xff\xff\xff\xff\xff\xff\xff\xff\xff\xff\xff\xff\xff\xff\xff\xff\xff\xff\xff\xff\xff\xff\xff\xff\xff\xff\xff\xff\xff\xff\
        \xff\xff\xff\xff\xff\xff\xff\xff\xff\xff\xff\xff\xff\xff\xff\xff\xff\xff\xff\xff\xff\xff\xff\xff\xff\xff\xff\xff\xff\xff\xff\xff\
        \xff\xff\xff\xff\xff\xff\xff\xff\xff\xff\xff\xff\xff\xff\xff\xff\xff\xff\xff\xff\xff\xff\xff\xff\xff\xff\xff\xff\xff\xff\xff\xff\
        \xff\xff\xff\xff\xff\xff\xff\xff\xff\xff\xff\xff\xff\xff\xff\xff\xff\xff\xff\xff\xff\xff\xff\xff\xff\xff\xff\xff\xff\xff\xff\xff",
    );
    say_bits(rt, whole.schedule);
    show::bytes(rt, &whole.schedule.tree.bytes);
    show::end(rt);
    let dropped = drop(whole.schedule, 63);
    say_bits(rt, dropped.schedule);
}

// p with its k bits in mirrored order by a walk bit by bit, which stands in this program alone.
fn walked(k: u32, p: u32) -> u32 {
    let mut mirrored: u32 = 0;
    let mut left = p;
    for _ in 0..k {
        mirrored = (mirrored << 1) | (left & 1);
        left = left >> 1;
    }
    mirrored
}

// How many numbers of k bits agree.
fn agreeing<F: Fn(u32) -> bool>(k: u32, agrees: F) -> u64
    requires deep { k ≤ depth }
    requires asked { (p : ℕ) → F.pre agrees p }
    ensures { result ≤ list_blocks }
{
    // a usize as a u64, which `From` does not give
    (0..1u32 << k).filter(|&p| agrees(p)).count() as u64
}

// How many of every width of the tree are mirrored as the walk does it.
fn all_as_walked() -> u64 {
    let mut count: u64 = 0;
    for k in 0..=DEPTH {
        count += agreeing(k, |p| tree::mirror(k, p) == walked(k, p));
    }
    count
}

fn say_agreeing(rt: &impl Print) {
    show::word(rt, b"mirrored as bit by bit, k from 0 to 9:");
    show::number(rt, all_as_walked());
    show::word(rt, b" of 1023");
    show::end(rt);
    show::word(rt, b"back when mirrored twice, k 9:");
    show::number(
        rt,
        agreeing(9, |p| tree::mirror(9, tree::mirror(9, p)) == p),
    );
    show::word(rt, b" of 512");
    show::end(rt);
}

// Of p only the k lowest bits count.
fn say_mirrored(rt: &impl Print, p: u32) {
    show::word(rt, b"mirrored at k 0, 3 and 9,");
    show::number(rt, u64::from(p));
    show::word(rt, b":");
    show::number(rt, u64::from(tree::mirror(0, p)));
    show::number(rt, u64::from(tree::mirror(3, p)));
    show::number(rt, u64::from(tree::mirror(9, p)));
    show::end(rt);
}

fn main(rt: HostRuntime) {
    let eighth = single(3, 0);
    show::word(&rt, b"F 8, L 1, bits set:");
    show::number(&rt, show::bits(&eighth));
    show::end(&rt);
    let whole = single(0, 0);
    show::word(&rt, b"F 1, bits set:");
    show::number(&rt, show::bits(&whole));
    show::end(&rt);
    show::bytes(&rt, &whole);
    show::end(&rt);
    scheduled(&rt);
    say_agreeing(&rt);
    say_mirrored(&rt, 4294967295);
    say_mirrored(&rt, 65538);
    say_mirrored(&rt, 1006);
}
