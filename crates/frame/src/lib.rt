//! Check 9 of a load: the bytes are an image's records one after the other.
#![tactic(auto)]

ghost use Rattle.std.specs.Prelude.{◌≤◌, length};
ghost use Rattle.frame.specs.Promises.{Heads, PassesOne, PassesAll, of_frame, Frames};

use rules::{
    CONNECTION_KIND, CONNECTION_SIZE, COUNT_KIND, COUNT_SIZE, HANDLES, HEADER_SIZE, Refusal,
    TREE_KIND, TREE_SIZE,
};

// A record's kind, the size of its payload, and the cursor after it.
#[derive(Clone, Copy)]
struct Record {
    kind: u32,
    size: u32,
    next: usize,
}

// Reads a header, where the whole record is there.
fn read_header(bytes: &[u8], at: usize) -> Result<Record, Refusal>
    requires { at ≤ length bytes.now }
    ensures { Heads bytes.now at result }
{
    let left = bytes.len() - at;
    if left < HEADER_SIZE {
        return Err(Refusal::RecordsWrong);
    }
    let size = codec::number(bytes, at, 2);
    let kind = codec::number(bytes, at + 2, 2);
    // a u32 as a place, which `From` does not give
    let whole = size as usize + HEADER_SIZE;
    if left < whole {
        return Err(Refusal::RecordsWrong);
    }
    let next = at + whole;
    Ok(Record { kind, size, next })
}

// Past one record of a kind and a size.
fn pass(bytes: &[u8], at: usize, kind: u32, size: u32) -> Result<usize, Refusal>
    requires { at ≤ length bytes.now }
    ensures { PassesOne bytes.now at kind size result }
{
    let record = read_header(bytes, at)?;
    if record.kind != kind || record.size != size {
        return Err(Refusal::RecordsWrong);
    }
    Ok(record.next)
}

// Past n records of connections.
fn pass_connections(bytes: &[u8], at: usize, n: u32) -> Result<usize, Refusal>
    requires { at ≤ length bytes.now }
    ensures { PassesAll bytes.now at n result }
{
    let mut cursor = at;
    for _ in 0..n {
        cursor = pass(bytes, cursor, CONNECTION_KIND, CONNECTION_SIZE)?;
    }
    Ok(cursor)
}

/// Check 9: how many connections the bytes count, where they are an image's records one after the
/// other.
pub fn framed(bytes: &[u8]) -> Result<u8, Refusal>
    ensures { Frames bytes.now (of_frame result) }
{
    let start = pass(bytes, 0, COUNT_KIND, COUNT_SIZE)?;
    // COUNT_SIZE (2) and HANDLES (64) are constants: the compiler computes their casts
    let n = codec::number(bytes, HEADER_SIZE, COUNT_SIZE as usize);
    if n > HANDLES as u32 {
        return Err(Refusal::RecordsWrong);
    }
    let end = pass_connections(bytes, start, n)?;
    let over = pass(bytes, end, TREE_KIND, TREE_SIZE)?;
    if over != bytes.len() {
        return Err(Refusal::RecordsWrong);
    }
    // at most 64: nothing is lost
    Ok(n as u8)
}
