//! Performs a script as the probe does, each call of the library between two marks: what bench/run counts.
#![tactic(auto)]

ghost use Rattle.std.specs.Prelude.{◌≡◌, true, ◌*◌, ◌^◌, ◌<◌, ◌≤◌, length, take, IfOk};
ghost use Rattle.rules.specs.Bytes.{same};
ghost use Rattle.rules.specs.Text.{text as text_of};
ghost use Rattle.rules.specs.Good.{Good};
ghost use Rattle.answer.specs.Promises.{longest_count};
ghost use Rattle.lists.specs.Lines.{most_entries, most_moves};

use answer::{put_counted, put_reading, put_reply};
use hci::{read_message, write_message};
use image::{load, save};
use input::read_all;
use lists::{
    Asked, LONGEST_LINE, LONGEST_ROW, MOST_ENTRIES, MOST_MOVES, asked_of, blank, tidy_asked,
};
use order::{Order, order_of};
use questions::{anchor, owner};
use reports::report_pairs;
use rules::{
    Command, LEAST_INTERVAL, LONGEST_ANSWER, LONGEST_MESSAGE, Message, Refusal, Reply, Schedule,
};
use schedule::{admit, drop, fresh, report};
use show::{end, word};
use talk::{Asked as MessageAsked, asked_of as message_asked};
use text::{opens, put_row, read_row, split_line};
use tidy::tidy;

// The place after `singly`: the word's length.
const AFTER_SINGLY: usize = 6;

// Each write is a point at which the instructions are counted.
fn mark(rt: &impl Print) {
    let _ = rt.write_some(b"");
}

// What a call answers, made between two marks.
fn timed<A, F: FnOnce() -> A>(rt: &impl Print, call: F) -> A
    requires { F.IsAlwaysCallable call }
    ensures { F.post call result }
{
    mark(rt);
    let answer = call();
    mark(rt);
    answer
}

fn tell(rt: &impl Print, reply: Reply) {
    let mut out = [0u8; LONGEST_ANSWER];
    let count = put_reply(&mut out, 0, reply);
    word(rt, &out[..count]);
}

// The line of a number, or of its refusal.
fn tell_count(rt: &impl Print, name: &[u8], answer: Result<u32, Refusal>)
    requires { length name.now ≤ longest_count }
{
    let mut out = [0u8; LONGEST_ANSWER];
    let count = put_counted(&mut out, 0, name, answer);
    word(rt, &out[..count]);
    end(rt);
}

// The same, and the list behind it.
fn tell_list(rt: &impl Print, name: &[u8], answer: Result<u32, Refusal>, list: &[u32])
    requires { (length name.now ≤ longest_count) × (length list.now ≤ most_moves) }
{
    let mut out = [0u8; LONGEST_LINE];
    let at = put_counted(&mut out, 0, name, answer);
    let count = put_row(&mut out, at, list);
    word(rt, &out[..count]);
    end(rt);
}

fn admitted(
    rt: &impl Print,
    s: Schedule,
    handle: u32,
    smallest: u32,
    largest: u32,
    floor: u32,
    ceiling: u32,
) -> Schedule
    requires { Good s }
    ensures { Good result }
{
    let done = timed(rt, || admit(s, handle, smallest, largest, floor, ceiling));
    tell(rt, Reply::Admission(done.answer));
    done.schedule
}

fn dropped(rt: &impl Print, s: Schedule, handle: u32) -> Schedule
    requires { Good s }
    ensures { Good result }
{
    let done = timed(rt, || drop(s, handle));
    tell(rt, Reply::Dropping(done.answer));
    done.schedule
}

fn reported(rt: &impl Print, s: Schedule, handle: u32, sample: u32) -> Schedule
    requires { Good s }
    ensures { Good result }
{
    let done = timed(rt, || report(s, handle, sample));
    tell(rt, Reply::Reporting(done.answer));
    done.schedule
}

fn listed(rt: &impl Print, s: Schedule, numbers: &[u32], list: &mut [u32]) -> Schedule
    requires { Good s × (length list.old ≤ most_entries) }
    ensures { Good result }
{
    blank(list);
    let done = timed(rt, || report_pairs(s, numbers, list));
    tell_list(rt, b"reported", done.answer.map(u32::from), list);
    done.schedule
}

fn tidied(rt: &impl Print, s: Schedule, list: &mut [u32]) -> Schedule
    requires { Good s × (length list.old ≤ most_moves) }
    ensures { Good result }
{
    blank(list);
    let done = timed(rt, || tidy(s, list));
    tell_list(rt, b"tidied", done.answer.map(u32::from), list);
    done.schedule
}

// The reports that numbers say, made one by one, each schedule put back: what a list is held
// against.
fn one_by_one(rt: &impl Print, s: Schedule, numbers: &[u32]) -> Schedule
    requires { Good s }
    ensures { Good result }
{
    mark(rt);
    let mut left = s;
    for &[handle, sample] in numbers.as_chunks::<2>().0 {
        left = report(left, handle, sample).schedule;
    }
    mark(rt);
    word(rt, b"singly\n");
    left
}

fn owned(rt: &impl Print, s: Schedule, block: u32)
    requires { Good s }
{
    let answer = timed(rt, || owner(s, block));
    tell(rt, Reply::Ownership(answer));
}

fn anchored(rt: &impl Print, s: Schedule, handle: u32, block: u32)
    requires { Good s }
{
    let answer = timed(rt, || anchor(s, handle, block));
    tell(rt, Reply::Distance(answer));
}

fn saved(rt: &impl Print, s: Schedule, buffer: &mut [u8])
    requires { Good s }
{
    let answer = timed(
        rt,
        ||
            requires { Good s }
            ensures { IfOk result (λ n. n < 2 ^ 32) }
        { save(s, buffer) },
    );
    // an image is below 2,000 bytes: nothing is lost
    tell_count(rt, b"saved", answer.map(|size| size as u32));
}

fn loaded(rt: &impl Print, s: Schedule, bytes: &[u8]) -> Schedule
    requires { Good s }
    ensures { Good result }
{
    let done = timed(rt, || load(s, bytes));
    tell_count(rt, b"loaded", done.answer.map(u32::from));
    done.schedule
}

fn read(rt: &impl Print, bytes: &[u8]) {
    let answer = timed(rt, || read_message(bytes));
    let mut out = [0u8; LONGEST_MESSAGE];
    let count = put_reading(&mut out, 0, answer);
    word(rt, &out[..count]);
    end(rt);
}

fn wrote(rt: &impl Print, message: Message, buffer: &mut [u8]) {
    let answer = timed(
        rt,
        ||
            ensures { IfOk result (λ n. n < 2 ^ 32) }
        { write_message(message, buffer) },
    );
    // a message is below 20 bytes: nothing is lost
    tell_count(rt, b"wrote", answer.map(|size| size as u32));
}

fn obeyed(rt: &impl Print, s: Schedule, command: Command) -> Schedule
    requires { Good s }
    ensures { Good result }
{
    match command {
        Command::Admit {
            handle,
            interval,
            floor,
            ceiling,
        } => admitted(rt, s, handle, LEAST_INTERVAL, interval, floor, ceiling),
        Command::AdmitRange {
            handle,
            smallest,
            largest,
            floor,
            ceiling,
        } => admitted(rt, s, handle, smallest, largest, floor, ceiling),
        Command::Drop(handle) => dropped(rt, s, handle),
        Command::Report { handle, sample } => reported(rt, s, handle, sample),
        Command::Owner(block) => {
            owned(rt, s, block);
            s
        }
        Command::Anchor { handle, block } => {
            anchored(rt, s, handle, block);
            s
        }
    }
}

// Two marks with nothing between them: what the marks themselves take.
fn nothing(rt: &impl Print) {
    mark(rt);
    mark(rt);
    word(rt, b"nothing\n");
}

fn perform(rt: &impl Print, s: Schedule, line: &[u8], bytes: &mut [u8]) -> Schedule
    requires { Good s × (length line.now ≤ 65536) × (32768 ≤ length bytes.old) }
    ensures { Good result }
{
    match order_of(line, bytes) {
        Some(Order::Command(command)) => obeyed(rt, s, command),
        Some(Order::Save) => {
            saved(rt, s, bytes);
            s
        }
        Some(Order::SaveInto(size)) => {
            // a u32 as a length, which `From` does not give
            saved(rt, s, &mut bytes[..size as usize]);
            s
        }
        Some(Order::Load(n)) => loaded(rt, s, &bytes[..n]),
        Some(Order::Fresh) => fresh(),
        Some(Order::State) => s,
        None => {
            nothing(rt);
            s
        }
    }
}

// A line that lends a list of answers.
fn perform_list(rt: &impl Print, s: Schedule, line: &[u8]) -> Schedule
    requires { Good s × (same (take (length (text_of "reports")) line.now) (text_of "reports") ≡ true) }
    ensures { Good result }
{
    let mut numbers = [0u32; LONGEST_ROW];
    let mut list = [0u32; MOST_ENTRIES];
    let Some(Asked { entries, count }) = asked_of(line, &mut numbers) else {
        nothing(rt);
        return s;
    };
    let end = 1 + count;
    listed(rt, s, &numbers[1..end], &mut list[..entries])
}

// A line that lends a list of moves.
fn perform_tidy(rt: &impl Print, s: Schedule, line: &[u8]) -> Schedule
    requires { Good s × (same (take (length (text_of "tidy")) line.now) (text_of "tidy") ≡ true) }
    ensures { Good result }
{
    let mut list = [0u32; MOST_MOVES];
    let Some(n) = tidy_asked(line) else {
        nothing(rt);
        return s;
    };
    tidied(rt, s, &mut list[..n])
}

// The word `singly` and the numbers of reports, a line of this program alone.
fn perform_singly(rt: &impl Print, s: Schedule, line: &[u8]) -> Schedule
    requires { Good s × (same (take (length (text_of "singly")) line.now) (text_of "singly") ≡ true) }
    ensures { Good result }
{
    let mut numbers = [0u32; LONGEST_ROW];
    let Some(count) = read_row(line, AFTER_SINGLY, &mut numbers) else {
        nothing(rt);
        return s;
    };
    one_by_one(rt, s, &numbers[..count])
}

// A line that reads or writes a message; or it is none.
fn perform_message(rt: &impl Print, line: &[u8], bytes: &mut [u8]) -> bool
    requires { (length line.now ≤ 65536) × (32768 ≤ length bytes.old) }
{
    match message_asked(line, bytes) {
        MessageAsked::Read(n) => read(rt, &bytes[..n]),
        MessageAsked::Write(n, message) => wrote(rt, message, &mut bytes[..n]),
        MessageAsked::Bad => nothing(rt),
        MessageAsked::Other => return false,
    }
    true
}

fn perform_line(rt: &impl Print, s: Schedule, line: &[u8], bytes: &mut [u8]) -> Schedule
    requires { Good s × (length line.now ≤ 65536) × (32768 ≤ length bytes.old) }
    ensures { Good result }
{
    if opens(line, b"reports") {
        return perform_list(rt, s, line);
    }
    if opens(line, b"tidy") {
        return perform_tidy(rt, s, line);
    }
    if opens(line, b"singly") {
        return perform_singly(rt, s, line);
    }
    if perform_message(rt, line, bytes) {
        return s;
    }
    perform(rt, s, line, bytes)
}

// A tail is not performed.
fn perform_all(rt: &impl Print, script: &[u8])
    requires { length script.now ≤ 65536 }
{
    let mut bytes = [0u8; 32768];
    let mut s = fresh();
    let mut rest = script;
    while let Some((line, later)) = split_line(rest) {
        s = perform_line(rt, s, line, &mut bytes);
        rest = later;
    }
}

fn main(rt: HostRuntime) {
    let mut buffer = [0u8; 65536];
    let Ok(n) = read_all(&mut rt.stdin(), &mut buffer) else {
        return;
    };
    perform_all(&rt, &buffer[..n]);
}
