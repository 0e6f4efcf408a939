//! A record, written at its place in the buffer.
ghost use Rattle.std.specs.Prelude.{◌≡◌, ◌++◌, ◌+◌, ◌<◌, ◌≤◌, length};
ghost use Rattle.std.proofs.lemmas.List.Edits.{sets};
ghost use Rattle.rules.specs.Ownership.{handles};
ghost use Rattle.rules.specs.Bytes.{little};
ghost use Rattle.rules.specs.Records.{header_size, bytes_of};
ghost use Rattle.rules.specs.Form.{connection_size};
ghost use Rattle.rules.specs.Image.{connection_piece};

use codec::put_number;
use rules::{CONNECTION_KIND, CONNECTION_SIZE, Connection, HEADER_SIZE};

// The share's numbers stand after the header and the run's six bytes.
const SHARE_PLACE: usize = HEADER_SIZE + 6;

// A record's length and kind.
pub fn put_header(buffer: &mut [u8], at: usize, size: u32, kind: u32)
    requires { at + header_size ≤ length buffer.old }
    ensures { buffer.new ≡ sets buffer.old at (little 2 size ++ little 2 kind) }
{
    put_number(buffer, at, 2, size);
    put_number(buffer, at + 2, 2, kind);
}

// Which blocks are whose: handle (1), k (1), A (2), L (2).
fn put_run(buffer: &mut [u8], at: usize, handle: usize, c: Connection)
    requires { (at + 6 ≤ length buffer.old) × (handle < handles) }
    ensures { buffer.new ≡ sets buffer.old at (little 1 handle ++ little 1 c.k ++ little 2 c.anchor ++ little 2 c.length) }
{
    // below 64: nothing is lost
    put_number(buffer, at, 1, handle as u32);
    put_number(buffer, at + 1, 1, u32::from(c.k));
    put_number(buffer, at + 2, 2, c.anchor);
    put_number(buffer, at + 4, 2, u32::from(c.length));
}

// What the length moves by: floor (2), ceiling (2), estimate (4).
fn put_share(buffer: &mut [u8], at: usize, c: Connection)
    requires { at + 8 ≤ length buffer.old }
    ensures { buffer.new ≡ sets buffer.old at (little 2 c.floor ++ little 2 c.ceiling ++ little 4 c.estimate) }
{
    put_number(buffer, at, 2, u32::from(c.floor));
    put_number(buffer, at + 2, 2, u32::from(c.ceiling));
    put_number(buffer, at + 4, 4, c.estimate);
}

// The record of a connection.
pub fn put_connection(buffer: &mut [u8], at: usize, handle: usize, c: Connection)
    requires { (at + (header_size + connection_size) ≤ length buffer.old) × (handle < handles) }
    ensures { buffer.new ≡ sets buffer.old at (bytes_of (connection_piece handle c)) }
{
    put_header(buffer, at, CONNECTION_SIZE, CONNECTION_KIND);
    put_run(buffer, at + HEADER_SIZE, handle, c);
    put_share(buffer, at + SHARE_PLACE, c);
}
