//! What a line prints, and the schedule after it.
ghost use Rattle.std.specs.Prelude.{◌≤◌, length};
ghost use Rattle.rules.specs.Good.{Good};
ghost use Rattle.text.specs.Promises.{PutsWithin};
ghost use Rattle.hexadecimal.specs.Lending.{most_buffer};
ghost use Rattle.script.specs.Performing.{most_printed, image_line, saved_line};
ghost use Rattle.script.specs.Promises.{Performs};

use answer::{put_counted, put_reply};
use command::obey;
use hexadecimal::{blank, put_buffer, put_hex};
use image::{load, save};
use order::{Order, Performed, order_of};
use rules::Schedule;
use schedule::fresh;
use state::put_state;
use text::put_word;

// The image of a schedule, by way of a lent buffer.
fn put_image(out: &mut [u8], s: Schedule, bytes: &mut [u8]) -> usize
    requires { Good s × (most_printed ≤ length out.old) × (most_buffer ≤ length bytes.old) }
    ensures { PutsWithin 4200 out.old 0 (image_line s) out.new result }
{
    let a = put_word(out, 0, b"image ");
    let Ok(size) = save(s, bytes) else {
        return a;
    };
    let b = put_hex(out, a, &bytes[..size]);
    put_word(out, b, b"\n")
}

// A save into a buffer of so many bytes.
fn put_saved(out: &mut [u8], s: Schedule, bytes: &mut [u8]) -> usize
    requires { Good s × (most_printed ≤ length out.old) × (length bytes.old ≤ most_buffer) }
    ensures { PutsWithin 4200 out.old 0 (saved_line s (length bytes.old)) out.new result }
{
    blank(bytes);
    // an image is below 2,000 bytes: nothing is lost
    let answer = save(s, bytes).map(|size| size as u32);
    let a = put_counted(out, 0, b"saved", answer);
    let b = put_buffer(out, a, bytes);
    put_word(out, b, b"\n")
}

/// Performs a line: writes what it prints from the buffer's start; the other buffer is for its
/// bytes.
pub fn perform(s: Schedule, line: &[u8], bytes: &mut [u8], out: &mut [u8]) -> Performed
    requires { Good s × (length line.now ≤ 65536) × (32768 ≤ length bytes.old)
        × (most_printed ≤ length out.old) }
    ensures { Performs s line.now out.old out.new result }
{
    match order_of(line, bytes) {
        Some(Order::Command(command)) => {
            let done = obey(s, command);
            let count = put_reply(out, 0, done.answer);
            Performed {
                schedule: done.schedule,
                count,
            }
        }
        Some(Order::Fresh) => {
            let count = put_word(out, 0, b"ok\n");
            let schedule = fresh();
            Performed { schedule, count }
        }
        Some(Order::Save) => {
            let count = put_image(out, s, bytes);
            Performed { schedule: s, count }
        }
        Some(Order::SaveInto(size)) => {
            // a u32 as a length, which `From` does not give
            let count = put_saved(out, s, &mut bytes[..size as usize]);
            Performed { schedule: s, count }
        }
        Some(Order::Load(n)) => {
            let done = load(s, &bytes[..n]);
            let a = put_counted(out, 0, b"loaded", done.answer.map(u32::from));
            let count = put_word(out, a, b"\n");
            Performed {
                schedule: done.schedule,
                count,
            }
        }
        Some(Order::State) => {
            let a = put_state(out, &s.connections);
            let count = put_word(out, a, b"end\n");
            Performed { schedule: s, count }
        }
        None => {
            let count = put_word(out, 0, b"bad\n");
            Performed { schedule: s, count }
        }
    }
}
