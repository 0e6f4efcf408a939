//! The numbers and the types of the base. What they mean stands in specs/, one notion to a file.
#![tactic(auto)]

ghost use Rattle.std.specs.Prelude.{◌≡◌};

// ---- the sheet's numbers, each with the name of its definition

/// The least connection interval, in slots.
pub const LEAST_INTERVAL: u32 = 6;

/// A block in slots.
pub const BLOCK_SLOTS: u32 = 6;

/// A block in µs.
pub const BLOCK_MICROS: u32 = 7500;

/// The guard in µs.
pub const GUARD_MICROS: u32 = 2500;

/// The list in blocks.
pub const LIST_BLOCKS: usize = 512;

/// Handles go from 0 to this one.
pub const LAST_HANDLE: u32 = 63;

/// How many handles there are.
pub const HANDLES: usize = LAST_HANDLE as usize + 1;

/// The most reports of one list.
pub const MOST_REPORTS: usize = 64;

/// How many numbers an entry of the list of moves has: handle, old anchor, new anchor.
pub const MOVE_WIDTH: usize = 3;

/// The largest k of a connection's factor 2^k.
pub const LARGEST_K: u8 = 8;

/// The largest k that a record of an image may say and be otherwise sound.
pub const LARGEST_RECORD_K: u8 = 9;

/// The largest handle by which host and controller name a connection.
pub const LARGEST_HCI_HANDLE: u16 = 3839;

/// The least subrate factor.
pub const LEAST_FACTOR: u16 = 1;

/// The most that a subrate factor times one more than the latency is.
pub const LARGEST_PRODUCT: u32 = 500;

/// The supervision timeout's ends, in units of 10 ms.
pub const LEAST_TIMEOUT: u16 = 10;

pub const LARGEST_TIMEOUT: u16 = 3200;

/// The depth of the tree; a connection's k may be bounded otherwise.
pub const DEPTH: u32 = 9;

/// The tree in bytes.
pub const TREE_BYTES: usize = 128;

/// The header of a record in bytes: its length and its kind.
pub const HEADER_SIZE: usize = 4;

/// The record of the count: its kind, and the bytes of its payload.
pub const COUNT_KIND: u32 = 1;

pub const COUNT_SIZE: u32 = 2;

/// The record of a connection.
pub const CONNECTION_KIND: u32 = 2;

pub const CONNECTION_SIZE: u32 = 14;

/// The record of the tree.
pub const TREE_KIND: u32 = 3;

pub const TREE_SIZE: u32 = TREE_BYTES as u32;

/// Each record in bytes: its header and its payload.
pub const COUNT_RECORD: usize = HEADER_SIZE + COUNT_SIZE as usize;

pub const CONNECTION_RECORD: usize = HEADER_SIZE + CONNECTION_SIZE as usize;

pub const TREE_RECORD: usize = HEADER_SIZE + TREE_SIZE as usize;

/// The most bytes of the line of an answer.
pub const LONGEST_ANSWER: usize = 28;

/// The most bytes of a message in words: its word, and a space and ten digits for each number.
pub const LONGEST_MESSAGE: usize = 73;

/// The most bytes that the command program takes.
pub const MOST_INPUT: usize = 4096;

/// The most bytes that it prints.
pub const MOST_OUTPUT: usize = 4 * MOST_INPUT;

// ---- the schedule

/// A connection's share of the radio; its handle is its place in the schedule. Sixteen bytes, none of
/// them between two fields: so a schedule is copied as a whole. `live` is no `Option` around it, as C
/// has these bytes, and a free slot is zeros.
#[repr(C)]
#[derive(Clone, Copy, Default)]
pub struct Connection {
    pub live: bool,
    pub k: u8,
    pub length: u16,
    pub floor: u16,
    pub ceiling: u16,
    pub anchor: u32,
    pub estimate: u32,
}

/// The tree of taken blocks: node n is bit n mod 8 of byte n div 8.
#[repr(C)]
#[derive(Clone, Copy)]
pub struct Tree {
    pub bytes: [u8; TREE_BYTES],
}

/// One gateway's schedule: the connection of each handle, and the tree of the blocks that they take.
/// That it is good is a clause of each call and no ghost field: it goes to C by value, and the
/// definitions speak of schedules that are not good: `sound` (specs/Sound) is a test of any one.
#[repr(C)]
#[derive(Clone, Copy)]
pub struct Schedule {
    pub connections: [Connection; HANDLES],
    pub tree: Tree,
}

/// The meter of one connection: its estimate in µs with its length in blocks.
#[derive(Clone, Copy)]
pub struct Meter {
    pub estimate: u32,
    pub length: u16,
}

/// A report of a list: a handle, and the µs that its connection used in its last run. Eight bytes.
#[repr(C)]
#[derive(Clone, Copy)]
pub struct Report {
    pub handle: u32,
    pub sample: u32,
}

// ---- the subrate messages of HCI

/// The values of a subrate command.
#[repr(C)]
#[derive(Clone, Copy, Default)]
pub struct Subrates {
    pub min: u16,
    pub max: u16,
    pub latency: u16,
    pub continuation: u16,
    pub timeout: u16,
}

/// The values of the event that a connection's subrating has changed, or has not.
#[repr(C)]
#[derive(Clone, Copy, Default)]
pub struct SubrateChange {
    pub status: u8,
    pub handle: u16,
    pub factor: u16,
    pub latency: u16,
    pub continuation: u16,
    pub timeout: u16,
}

/// The default-subrate command, the subrate request command with its handle, or the subrate change event.
#[derive(Clone, Copy)]
pub enum Message {
    Default(Subrates),
    Request(u16, Subrates),
    Change(SubrateChange),
}

// ---- the answers

/// Why a call is refused: a case for each row of the refusal table.
#[derive(Clone, Copy)]
pub enum Refusal {
    HandleAbove63,
    HandleLive,
    HandleNotLive,
    IntervalOutside,
    ShareWrong,
    NoOpenAnchor,
    SampleAboveRun,
    BufferShort,
    RecordsWrong,
    NumbersUnsound,
    BlockOwnedTwice,
    TreeDiffers,
    ReportsMany,
    ListShort,
    NoInterval,
    MessageWrong,
    ValuesForbidden,
    FactorIllegal,
    NoAnchorForAll,
    CeilingAboveHalf,
}

/// What a step of an admission says that has no value to give: the smallest interval, the range,
/// the share and the half. An enum, as the sheet wants of a step that may refuse; the number is the
/// caller's to say.
#[derive(Clone, Copy)]
pub enum Verdict {
    Passes,
    Refuses,
}

/// Where an admission goes.
#[derive(Clone, Copy)]
pub struct Plan {
    pub k: u8,
    pub anchor: u16,
}

/// Where an admission was placed: F, A and L.
#[derive(Clone, Copy)]
pub struct Placed {
    pub factor: u16,
    pub anchor: u16,
    pub length: u16,
}

/// What a report does to a length, with the length that it leaves.
#[derive(Clone, Copy)]
pub enum Adjusted {
    Kept(u16),
    Grown(u16),
    Shrunk(u16),
    Tight(u16),
}

/// The answer of any call that a command makes.
#[derive(Clone, Copy)]
pub enum Reply {
    Admission(Result<Placed, Refusal>),
    Dropping(Result<(), Refusal>),
    Reporting(Result<Adjusted, Refusal>),
    Ownership(Option<u8>),
    Distance(Result<u32, Refusal>),
}

// ---- the command text

/// A command: a call that a line can make, with its numbers, in the sheet's order. They are no struct
/// of their own: the sheet's calls and C's take them one by one.
#[derive(Clone, Copy)]
pub enum Command {
    Admit {
        handle: u32,
        interval: u32,
        floor: u32,
        ceiling: u32,
    },
    AdmitRange {
        handle: u32,
        smallest: u32,
        largest: u32,
        floor: u32,
        ceiling: u32,
    },
    Drop(u32),
    Report {
        handle: u32,
        sample: u32,
    },
    Owner(u32),
    Anchor {
        handle: u32,
        block: u32,
    },
}

// ---- an answer beside the schedule that it leaves

/// What a call has done: its answer, and the schedule that it leaves.
#[derive(Clone, Copy)]
pub struct Done<A> {
    pub answer: A,
    pub schedule: Schedule,
}

impl<A: Copy> Done<A> {
    /// What was done, with its answer said in another way.
    pub fn map<B: Copy, F: FnOnce(A) -> B>(self, say: F) -> Done<B>
        requires { F.pre say self.answer }
        ensures answer { F.post say self.answer result.answer }
        ensures schedule { result.schedule ≡ self.schedule }
    {
        Done {
            answer: say(self.answer),
            schedule: self.schedule,
        }
    }
}
