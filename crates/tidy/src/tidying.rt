//! The call.
ghost use Rattle.std.specs.Prelude.{◌≡◌};
ghost use Rattle.rules.specs.Good.{Good};
ghost use Rattle.tidy.specs.Promises.{TidiesTo, Tidies};

use crate::arranging::arrange;
use crate::moving::{count_moves, put_moves};
use rules::{Done, MOVE_WIDTH, Refusal, Schedule};

// Checks 19 and 14; then the moves are written. Nothing is written before both checks have passed.
fn tidied(s: &Schedule, moves: &mut [u32]) -> Result<(u8, Schedule), Refusal>
    requires { Good s.now }
    ensures { TidiesTo s.now moves.old moves.new result }
{
    let new = arrange(s)?;
    let n = count_moves(s, &new);
    if moves.len() / MOVE_WIDTH < n {
        return Err(Refusal::ListShort);
    }
    put_moves(s, &new, moves);
    // at most 64 moves: nothing is lost
    Ok((n as u8, new))
}

/// Places the live connections anew, and writes a move for each whose anchor differs.
pub fn tidy(s: Schedule, moves: &mut [u32]) -> Done<Result<u8, Refusal>>
    requires { Good s }
    ensures { Tidies s moves.old moves.new result }
{
    match tidied(&s, moves) {
        Ok((n, new)) => Done {
            answer: Ok(n),
            schedule: new,
        },
        Err(why) => Done {
            answer: Err(why),
            schedule: s,
        },
    }
}
