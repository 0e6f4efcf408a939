//! The connections of an image: checks 10, 18 and 11 of a load.
#![tactic(auto)]

ghost use Rattle.std.specs.Prelude.{◌≡◌, true, ◌+◌, ◌<◌, ◌≤◌, ◌^◌, length, map};
ghost use Rattle.rules.specs.Ownership.{largest_k};
ghost use Rattle.rules.specs.Sound.{numbers_within};
ghost use Rattle.rules.specs.Bytes.{number_at};
ghost use Rattle.rules.specs.Records.{bytes_of};
ghost use Rattle.rules.specs.Form.{connection_size};
ghost use Rattle.rules.specs.Framing.{Framed};
ghost use Rattle.rules.specs.Fields.{handle_in, connection_in};
ghost use Rattle.rules.specs.Load.{largest_record_k, records_within};
ghost use Rattle.restore.specs.LoadSteps.{of_soundness, records_step};
ghost use Rattle.restore.specs.Promises.{Reads, records, Restores};

use rules::{
    BLOCK_MICROS, CONNECTION_RECORD, CONNECTION_SIZE, COUNT_RECORD, Connection, Done, HANDLES,
    HEADER_SIZE, LARGEST_K, LARGEST_RECORD_K, Refusal,
};
use run::{factor, fresh, run_free, set_run};

// The records of the n connections, each with its header.
fn connection_records(bytes: &[u8], n: usize) -> &[[u8; CONNECTION_RECORD]]
    requires { Framed bytes.now n }
    ensures { result.now ≡ map bytes_of (records bytes.now) }
{
    let (records, _) = bytes[COUNT_RECORD..].as_chunks();
    &records[..n]
}

// The number in `width` bytes of a payload, from its byte `start` on.
fn field(payload: &[u8], start: usize, width: usize) -> u32
    requires { (width ≤ 4) × (start + width ≤ length payload.now) }
    ensures { (result ≡ number_at payload.now start width) × (result < 256 ^ width) }
{
    codec::number(payload, start, width)
}

// The handle that a connection's payload says.
fn handle_in(payload: &[u8]) -> u8
    requires { length payload.now ≡ connection_size }
    ensures { Reads handle_in payload.now result }
{
    // of one byte: nothing is lost
    field(payload, 0, 1) as u8
}

// The connection that it says.
fn connection_in(payload: &[u8]) -> Connection
    requires { length payload.now ≡ connection_size }
    ensures { Reads connection_in payload.now result }
{
    Connection {
        live: true,
        // of one or two bytes each: nothing is lost
        k: field(payload, 1, 1) as u8,
        length: field(payload, 4, 2) as u16,
        floor: field(payload, 6, 2) as u16,
        ceiling: field(payload, 8, 2) as u16,
        anchor: field(payload, 2, 2),
        estimate: field(payload, 10, 4),
    }
}

// k at most what a record may say, the anchor below F = 2^k, 1 ≤ floor ≤ L ≤ ceiling ≤ F, and the
// estimate at most L × 7,500.
fn numbers_within(c: Connection) -> bool
    ensures { result ≡ numbers_within largest_record_k c }
{
    c.k <= LARGEST_RECORD_K
        && c.anchor < factor(u32::from(c.k))
        && 1 <= c.floor
        && c.floor <= c.length
        && c.length <= c.ceiling
        && u32::from(c.ceiling) <= factor(u32::from(c.k))
        && c.estimate <= u32::from(c.length) * BLOCK_MICROS
}

/// Check 10: each record's numbers are sound, and the handles rise. Check 18: no k is above the
/// largest of a connection. An unsound record ends it, so that a k of 9 yields to a later 10.
pub fn check_records(bytes: &[u8], n: usize) -> Result<(), Refusal>
    requires { Framed bytes.now n }
    ensures { of_soundness result ≡ records_step (records bytes.now) }
{
    let mut least: u8 = 0;
    let mut answer = Ok(());
    for record in connection_records(bytes, n) {
        let payload = &record[HEADER_SIZE..];
        let h = handle_in(payload);
        let c = connection_in(payload);
        // HANDLES is a constant, 64: the compiler computes its cast
        if h >= HANDLES as u8 || h < least || !numbers_within(c) {
            return Err(Refusal::NumbersUnsound);
        }
        if c.k > LARGEST_K {
            answer = Err(Refusal::FactorIllegal);
        }
        least = h + 1;
    }
    answer
}

/// Check 11: the connections of the records with their tree, taken one after the other on an empty
/// tree. Answers where the record after them begins; or, as an error, where the first begins that
/// owns a block of those before it; and leaves the schedule of those that it took.
pub fn restore(bytes: &[u8], n: usize) -> Done<Result<usize, usize>>
    requires { Framed bytes.now n × (records_within largest_k (records bytes.now) ≡ true) }
    ensures { Restores bytes.now result.schedule result.answer }
{
    let mut new = fresh();
    for (i, record) in connection_records(bytes, n).iter().enumerate() {
        let payload = &record[HEADER_SIZE..];
        let c = connection_in(payload);
        let k = u32::from(c.k);
        let length = u32::from(c.length);
        if !run_free(&new.tree.bytes, k, c.anchor, length) {
            return Done {
                answer: Err(COUNT_RECORD + i * CONNECTION_RECORD),
                schedule: new,
            };
        }
        set_run(&mut new.tree.bytes, k, c.anchor, 0, length, true);
        let h = usize::from(handle_in(payload));
        new.connections[h] = c;
    }
    Done {
        answer: Ok(COUNT_RECORD + n * CONNECTION_RECORD),
        schedule: new,
    }
}
