//! Drop: checks 1, 3.
ghost use Rattle.rules.specs.Good.{Good};
ghost use Rattle.schedule.specs.Promises.{Drops};

use crate::done;
use crate::reporting::settle;
use rules::{Done, Refusal, Schedule};
use run::{live_connection, nobody};

fn end(s: &mut Schedule, handle: u32) -> Result<(), Refusal>
    requires { Good s.old }
    ensures { Drops s.old handle (record { answer = result; schedule = s.new }) }
{
    let c = live_connection(s, handle)?;
    // the run shrinks to no block
    settle(&mut s.tree.bytes, c, 0);
    // a u32 as a place, which `From` does not give
    s.connections[handle as usize] = nobody();
    Ok(())
}

/// Drops a connection: its blocks are free at once.
pub fn drop(s: Schedule, handle: u32) -> Done<Result<(), Refusal>>
    requires { Good s }
    ensures { Drops s handle result }
{
    done(s, |s| end(s, handle))
}
