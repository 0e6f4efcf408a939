//! Save: check 8.
ghost use Rattle.std.specs.Prelude.{◌≡◌, ◌+◌, ◌≤◌, length};
ghost use Rattle.std.proofs.lemmas.List.Edits.{sets};
ghost use Rattle.rules.specs.Good.{Good};
ghost use Rattle.rules.specs.Records.{header_size, bytes_of, joined};
ghost use Rattle.rules.specs.Form.{tree_size};
ghost use Rattle.rules.specs.Image.{connection_pieces};
ghost use Rattle.image.specs.Promises.{Saves, PutsConnections, tree_record};

use crate::writing::{put_connection, put_header};
use codec::put_number;
use rules::{
    CONNECTION_RECORD, COUNT_KIND, COUNT_RECORD, COUNT_SIZE, Connection, HANDLES, HEADER_SIZE,
    Refusal, Schedule, TREE_BYTES, TREE_KIND, TREE_RECORD, TREE_SIZE,
};

// How many connections are live.
fn live(connections: &[Connection; HANDLES]) -> usize
    ensures { result ≡ length (connection_pieces 0 connections.now) }
{
    // a `for`: the compiler counts many at a time so, and by `filter` and `count` one by one
    let mut n: usize = 0;
    for c in connections {
        if c.live {
            n += 1;
        }
    }
    n
}

// A record for each live connection, handles rising; then comes the byte after them.
fn put_connections(buffer: &mut [u8], at: usize, connections: &[Connection; HANDLES]) -> usize
    requires { at + length (joined (connection_pieces 0 connections.now)) ≤ length buffer.old }
    ensures { PutsConnections at connections.now buffer.old buffer.new result }
{
    // only a live one has a record: its place is told by how many came before, not by its handle
    let mut next = at;
    for (h, c) in connections.iter().enumerate() {
        if c.live {
            put_connection(buffer, next, h, *c);
            next += CONNECTION_RECORD;
        }
    }
    next
}

fn put_tree(buffer: &mut [u8], at: usize, tree: &[u8; TREE_BYTES])
    requires { at + (header_size + tree_size) ≤ length buffer.old }
    ensures { buffer.new ≡ sets buffer.old at (bytes_of (tree_record tree.now)) }
{
    put_header(buffer, at, TREE_SIZE, TREE_KIND);
    let start = at + HEADER_SIZE;
    buffer[start..start + TREE_BYTES].copy_from_slice(tree);
}

/// Writes the image from the buffer's start, and answers its size.
pub fn save(s: Schedule, buffer: &mut [u8]) -> Result<usize, Refusal>
    requires { Good s }
    ensures { Saves s buffer.old buffer.new result }
{
    let n = live(&s.connections);
    let size = COUNT_RECORD + CONNECTION_RECORD * n + TREE_RECORD;
    if buffer.len() < size {
        return Err(Refusal::BufferShort);
    }
    put_header(buffer, 0, COUNT_SIZE, COUNT_KIND);
    // n is at most 64; `From` gives neither of a usize
    put_number(buffer, HEADER_SIZE, COUNT_SIZE as usize, n as u32);
    let next = put_connections(buffer, COUNT_RECORD, &s.connections);
    put_tree(buffer, next, &s.tree.bytes);
    Ok(size)
}
