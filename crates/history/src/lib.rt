// The history of slot reports: what a receiver is to answer, and the step that answers it. It has types, and no
// function but an outcome's number: specs/ has the definitions, proofs/ the theorems.
#![tactic(auto)]

ghost use Rattle.std.specs.Prelude.{◌≡◌};
ghost use Rattle.history.specs.Step.{outcome_number};

use blocks::header::Fields;
use store::Raw;

// A frame and a slot; slot 0 where no report has been heard.
// Kept: slot 0 for none, for pierstrand.h shows the receiver.
#[repr(C)]
#[derive(Clone, Copy, Default)]
pub struct Place {
    pub frame: u8,
    pub slot: u8,
}

// What a report brings, once its blocks are read: nothing, a header, or a block.
#[derive(Clone, Copy, PartialEq, Eq)]
pub enum What {
    Nothing,
    Fragmented,
    Unfragmented,
    Frag,
    End,
}

// An earlier header for this unit that one in the slot next in turn can be a copy of: its SCH/H but for the countdown,
// and the countdown that the copy has there.
#[derive(Clone, Copy, Default)]
pub struct Near {
    pub raw: Raw,
    pub countdown: u64,
}

// Those that there are, the oldest first, and how many: each takes three numbers, the two of its SCH/H and its
// countdown. What is not there is zero.
// Kept: a count beside an array of numbers, for pierstrand.h shows the receiver.
#[repr(C)]
#[derive(Clone, Copy)]
pub struct Nears {
    pub count: usize,
    pub places: [u64; 21],
}

// What is kept of an open run but for its bits, where `held` is 1: what its header reads as and its SCH/H but for the
// countdown; one more than the countdown that a repeat of it has now, 0 when there can be none any more; one less than
// its slot count; its frame and countdown, from which the due slots are counted; the number of blocks kept.
// Kept: `held` beside the run, for pierstrand.h shows the receiver.
#[repr(C)]
#[derive(Clone, Copy, Default)]
pub struct Open {
    pub fields: Fields,
    pub raw: Raw,
    pub held: u8,
    pub again: u8,
    pub more: u8,
    pub frame: u8,
    pub countdown: u8,
    pub kept: u8,
}

// What becomes of the open assembly: it stays, it ends, the header opens one, it takes the block.
#[derive(Clone, Copy, PartialEq, Eq)]
pub enum Act {
    Stays,
    Ends,
    Opens,
    Takes,
}

// A message that is lost on the way, of the two types that are told of: its source address (the SSI, 0 where it is
// absent), its message type, and the bits joined so far. Three zeros where there is none.
// Kept: zeros, and the message type a number, for pierstrand.h shows the answer.
#[repr(C)]
#[derive(Clone, Copy, Default)]
pub struct Lost {
    pub source: u32,
    pub message: u8,
    pub bits: usize,
}

impl Lost {
    // The two: DM-SDS DATA and DM-SDS ACK.
    pub const SDS_DATA: u8 = 23;

    pub const SDS_ACK: u8 = 24;
}

// What a report comes to: its outcome; whether an open assembly ends here without being handed over; what becomes of
// the assembly; whether the header is one more that copies can come of.
// Kept: two answers of yes and no, with which no value goes.
#[derive(Clone, Copy)]
pub struct Verdict {
    pub outcome: Outcome,
    pub dropped: bool,
    pub act: Act,
    pub near: bool,
}

// The outcomes of a report, in the order of their numbers.
#[derive(Clone, Copy, PartialEq, Eq)]
pub enum Outcome {
    // Nothing for this unit.
    Quiet = 0,

    // An unfragmented message is handed over.
    Single = 1,

    // A joined message is handed over.
    Joined = 2,

    // A fragmented header, or a repeat of it: an assembly is open.
    Opened = 3,

    // A block in its due slot was kept.
    Kept = 4,

    // A copy of an unfragmented message that was handed over before.
    Copied = 5,
}

impl Outcome {
    // Its number, as answers have it.
    pub fn number(self) -> u8
        ensures { result ≡ outcome_number self }
    {
        self as u8
    }
}
