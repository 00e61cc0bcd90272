// The records of a slot log.
ghost use Rattle.std.specs.Prelude.{◌≡◌, ◌≤◌, length, take, MatchResult};
ghost use Rattle.slotlog.specs.Room.{moved_up};
ghost use Rattle.slotlog.specs.Log.{kind_of, number_of, body_of, is_report, whole_of, next_in};
ghost use Rattle.slotlog.specs.Log.{is_first, begun_by, begun};
ghost use Rattle.receiver.specs.Reached.{Reached};

use crate::room::to_start;
use blocks::fault::Fault;
use blocks::sizes::{SchF, SchH, SchS};
use receiver::Receiver;
use records::{four, two};

// The kinds of a log's records, by their numbers.
#[derive(Clone, Copy, PartialEq, Eq)]
pub(crate) enum Kind {
    // The unit's settings, first in a log.
    Settings = 0,

    // A slot in which nothing was heard.
    Silence = 1,

    // A slot with SCH/S and SCH/H.
    Header = 2,

    // A slot with SCH/F.
    Block = 3,
}

impl Kind {
    // The kind of a number; none where it is unknown.
    // Kept: no `TryFrom`, for no error goes with it; and a `Kind` of its own, since a log has one kind more, in two
    // bytes.
    fn of(number: u16) -> Option<Kind>
        ensures { result ≡ kind_of number }
    {
        match number {
            0 => Some(Kind::Settings),
            1 => Some(Kind::Silence),
            2 => Some(Kind::Header),
            3 => Some(Kind::Block),
            _ => None,
        }
    }

    // The bytes of its body.
    fn body(self) -> usize
        ensures { result ≡ body_of (number_of self) }
    {
        match self {
            Kind::Settings => 12,
            Kind::Silence => 2,
            Kind::Header => 2 + SchS::BYTES + SchH::BYTES,
            Kind::Block => 2 + SchF::BYTES,
        }
    }

    // Whether it is a kind of report.
    fn is_report(self) -> bool
        ensures { result ≡ is_report (number_of self) }
    {
        self != Kind::Settings
    }
}

// What stands next, with the bytes that it takes: nothing; a record that runs past what is there; one that is cut
// whatever follows; another one; a report.
#[derive(Clone, Copy)]
pub(crate) enum Next {
    End,
    Part,
    Cut,
    Other(usize),
    Report(usize),
}

// A whole record of the kind with this number, with `n` bytes of body.
fn whole(number: u16, n: usize) -> Next
    requires { n ≤ 65535 }
    ensures { result ≡ whole_of number n }
{
    match Kind::of(number) {
        Some(kind) if n < kind.body() => Next::Cut,
        Some(kind) if kind.is_report() && n == kind.body() => Next::Report(n + 4),
        _ => Next::Other(n + 4),
    }
}

// What stands next in the rest of a log.
#[tactic(auto, unfolding(crate::specs::Log::next_in))]
pub(crate) fn read(rest: &[u8]) -> Next
    ensures { result ≡ next_in rest.now }
{
    if rest.len() == 0 {
        return Next::End;
    }
    if rest.len() < 2 {
        return Next::Part;
    }
    let length = usize::from(two(rest[0], rest[1]));
    if length < 2 {
        return Next::Cut;
    }
    if rest.len() < length + 2 {
        return Next::Part;
    }
    whole(two(rest[2], rest[3]), length - 2)
}

// The bytes of a log that tell how it starts.
pub const FIRST: usize = 16;

// How a log starts: the receiver, and the bytes that its first record takes.
#[derive(Clone, Copy)]
pub struct Begun {
    pub took: usize,
    pub receiver: Receiver,
}

// Why a log gives no receiver of a unit, and how it starts all the same: with a receiver of three zeros, and the bytes
// that its first record takes, none where there is no such record.
#[derive(Clone, Copy)]
pub struct NotBegun {
    pub fault: Fault,
    pub begun: Begun,
}

// Whether a log starts with a whole kind 0 of its right length.
fn is_first(log: &[u8]) -> bool
    ensures { result ≡ is_first log.now }
{
    FIRST <= log.len() && two(log[0], log[1]) == 14 && two(log[2], log[3]) == Kind::Settings as u16
}

// The receiver with the settings that a log starts with, and the bytes that its first record takes; `Range` where it
// starts with none, or with settings of 2^24 or more.
fn begin(log: &[u8]) -> Result<Begun, NotBegun>
    ensures begun { result ≡ begun (begun_by log.now) }
    ensures reached { MatchResult result (λ b. Reached b.receiver) (λ e. Reached e.begun.receiver) }
    ensures took { MatchResult result (λ b. b.took ≤ length log.now) (λ e. e.begun.took ≤ length log.now) }
{
    if !is_first(log) {
        let none = Receiver::fresh(0, 0, 0);
        let receiver = none.receiver;
        return Err(NotBegun {
            fault: Fault::Range,
            begun: Begun { took: 0, receiver },
        });
    }
    let fresh = Receiver::fresh(four(log, 4), four(log, 8), four(log, 12));
    let receiver = fresh.receiver;
    let begun = Begun {
        took: FIRST,
        receiver,
    };
    if fresh.fault != 0 {
        return Err(NotBegun {
            fault: Fault::Range,
            begun,
        });
    }
    Ok(begun)
}

// The bytes that the first record takes, also where its settings are refused.
fn first_bytes(begun: Result<Begun, NotBegun>) -> usize
    ensures { MatchResult begun (λ b. result ≡ b.took) (λ e. result ≡ e.begun.took) }
{
    match begun {
        Ok(begun) => begun.took,
        Err(refused) => refused.begun.took,
    }
}

impl Begun {
    // How a log starts of which the first `have` bytes of a room are there, all of it where it has fewer; what is left
    // of them after the first record is moved to the room's start, also where its settings are refused.
    // Kept: `have` beside the room, whose other bytes are room for more of the log.
    pub fn part(room: &mut [u8], have: usize) -> Result<Begun, NotBegun>
        ensures begun { result ≡ begun (begun_by (take have room.old)) }
        ensures reached { MatchResult result (λ b. Reached b.receiver) (λ e. Reached e.begun.receiver) }
        ensures took { MatchResult result (λ b. b.took ≤ have) (λ e. e.begun.took ≤ have) }
        ensures inside { (begun_by (take have room.old)).took ≤ have }
        ensures moved { room.new ≡ moved_up have (begun_by (take have room.old)).took room.old }
    {
        let n = have.min(room.len());
        let begun = begin(&room[..n]);
        let took = first_bytes(begun);
        to_start(room, took, n);
        begun
    }
}
