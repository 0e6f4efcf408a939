//! The live connection of a handle.
ghost use Rattle.run.specs.Finding.{FindsLive};

use rules::{Connection, LAST_HANDLE, Refusal, Schedule};

/// Checks 1 and 3: the connection of a handle, if it is live.
pub fn live_connection(s: &Schedule, handle: u32) -> Result<Connection, Refusal>
    ensures { FindsLive s.now handle result }
{
    if LAST_HANDLE < handle {
        return Err(Refusal::HandleAbove63);
    }
    // a u32 as a place, which `From` does not give
    let c = s.connections[handle as usize];
    if c.live {
        Ok(c)
    } else {
        Err(Refusal::HandleNotLive)
    }
}
