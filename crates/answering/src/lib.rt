// The slots in which a response to a message goes out (8.5.6.2 e to g), as a calendar counted in frames from X, the
// frame in which a header of the answered message was heard.
#![tactic(auto)]

ghost use Rattle.std.specs.Prelude.{◌≡◌, suc, ◌+◌, ◌-◌, ◌*◌, ◌/◌, ◌%◌, ◌≤◌, ◌<◌, IfOk};
ghost use Rattle.blocks.specs.Faults.{first_of, refusal};
ghost use Rattle.blocks.specs.Slots.{passing};
ghost use Rattle.answering.specs.Calendar.{was_fragmented, least_of, limit_of, last_frame, first_frame, header_at};
ghost use Rattle.answering.specs.Calendar.{end_at, passed_over, has_end, slots_from, response_rules, Fits, with_slots};
ghost use Rattle.answering.specs.Calendar.{answer_number, Answers, calendar_of};

use blocks::fault::Fault;
use blocks::slots::{frame_number, frames_to};

// What a response answers, by the numbers that a response has for it.
#[derive(Clone, Copy, PartialEq, Eq)]
pub enum Answered {
    // An unfragmented message: e).
    Plain = 0,

    // A fragmented message that was joined: f).
    Joined = 1,

    // A fragmented DM-SDS DATA that was lost on the way: f).
    Lost = 2,

    // An unfragmented DM-CONNECT, answered with a DM-CONNECT ACK: g).
    Connect = 3,
}

impl TryFrom<u8> for Answered {
    type Error = Fault;

    ghost try_from_gives = { Answers };

    fn try_from(number: u8) -> Result<Self, Fault> {
        match number {
            0 => Ok(Answered::Plain),
            1 => Ok(Answered::Joined),
            2 => Ok(Answered::Lost),
            3 => Ok(Answered::Connect),
            _ => Err(Fault::Range),
        }
    }
}

impl Answered {
    // Whether blocks followed the header of the answered message.
    fn was_fragmented(self) -> bool
        ensures { result ≡ was_fragmented (answer_number self) }
    {
        matches!(self, Answered::Joined | Answered::Lost)
    }

    // In how many frames the header of the response goes out at most.
    fn limit(self, dn210: u8) -> u8
        ensures { result ≡ limit_of (answer_number self) dn210 }
    {
        match self {
            Answered::Plain | Answered::Joined => dn210,
            Answered::Lost => 1,
            Answered::Connect => 4,
        }
    }

    // The slot count of the answered message at least.
    fn least(self) -> u8
        ensures { result ≡ least_of (answer_number self) }
    {
        u8::from(self.was_fragmented())
    }
}

// What goes out in a slot of a response, by its number there.
#[derive(Clone, Copy)]
pub enum What {
    Header = 1,
    End = 2,
}

// A response, before it is sent. Of the answered message: the frame X in which a header of it was heard, the countdown
// F in it, what it was, and its slot count. Of the response: in how many frames its header goes out, the unit's DN210
// (A.4), and, 0 for no, else yes, whether it starts a frame later, whether slot 1 of its first frame is used, whether
// it is fragmented.
// Kept: numbers for kinds and flags, since the call for C in docs/req06.patch hands them over, and `response_rules`
// refuses numbers that none has: an enum would ask more of callers. So in `Slot` and `Calendar`.
#[repr(C)]
#[derive(Clone, Copy)]
pub struct Response {
    pub frame: u8,
    pub countdown: u8,
    pub answered: u8,
    pub count: u8,
    pub frames: u8,
    pub dn210: u8,
    pub later: u8,
    pub slot1: u8,
    pub fragmented: u8,
}

// A slot of the calendar: its frame, counted from X, and that frame's number; the slot; what goes out in it; the
// countdown in a header.
#[repr(C)]
#[derive(Clone, Copy, Default)]
pub struct Slot {
    pub from: u8,
    pub frame: u8,
    pub slot: u8,
    pub what: u8,
    pub countdown: u8,
}

// The slots of a response, in order, `count` of them; the others are zero. Refused, all but the fault is 0.
#[repr(C)]
#[derive(Clone, Copy)]
pub struct Calendar {
    pub fault: u8,
    pub count: u8,
    pub slots: [Slot; 9],
}

// What a response answers, or the first of the faults 15, 13 and 10 that its numbers give.
fn rules(r: Response) -> Result<Answered, Fault>
    ensures fault { refusal result ≡ first_of (response_rules r) }
    ensures answered { IfOk result (λ a. answer_number a ≡ r.answered) }
{
    if !matches!(r.frame, 1..=18) {
        return Err(Fault::ReportFrame);
    }
    let answered = Answered::try_from(r.answered)?;
    if 3 < r.countdown || 15 < r.count {
        return Err(Fault::Range);
    }
    let most = answered.limit(r.dn210);
    if 4 < most || r.frames < 1 || most < r.frames {
        return Err(Fault::Range);
    }
    if r.count < answered.least() {
        return Err(Fault::Count);
    }
    Ok(answered)
}

// The answered message's last frame, counted from X: that of its last repeat, or of its DMAC-END.
fn last_frame(r: Response, answered: Answered) -> u8
    requires fits { Fits r }
    requires kind { answer_number answered ≡ r.answered }
    ensures { result ≡ last_frame r }
{
    if answered.was_fragmented() {
        frames_to(r.frame, r.countdown, r.count - 1) as u8
    } else {
        r.countdown
    }
}

// The response's first frame.
fn first_frame(r: Response, answered: Answered) -> u8
    requires fits { Fits r }
    requires kind { answer_number answered ≡ r.answered }
    ensures { result ≡ first_frame r }
{
    let late = answered == Answered::Connect && 1 <= r.later;
    last_frame(r, answered) + 1 + u8::from(late)
}

// How many of the header's slots are passed over: slot 1 of the first frame, if it is not used.
fn passed_over(slot1: u8) -> u8
    ensures { result ≡ passed_over slot1 }
{
    u8::from(slot1 < 1)
}

// Whether the response has a DMAC-END.
fn has_end(r: Response, answered: Answered) -> bool
    requires { answer_number answered ≡ r.answered }
    ensures { result ≡ has_end r }
{
    answered != Answered::Lost && 1 <= r.fragmented
}

// The header in slot `i`, from 0, of the `m` frames from frame `k` on.
// Kept: frame and place are numbers, here and below, as the definitions `header_at` and `end_at` take them.
fn header_at(x: u8, k: u8, m: u8, i: u8) -> Slot
    requires slot { i < 2 * m }
    requires soon { k + m ≤ 255 }
    ensures { result ≡ header_at x (k + i / 2) (1 + 2 * (i % 2)) (m - 1 - i / 2) }
{
    let from = k + i / 2;
    Slot {
        from,
        frame: frame_number(x, u16::from(from)),
        slot: 1 + 2 * (i % 2),
        what: What::Header as u8,
        countdown: m - 1 - i / 2,
    }
}

// The DMAC-END after a last header in frame `k`: as the first block after it.
fn end_after(x: u8, k: u8) -> Slot
    requires { k ≤ 100 }
    ensures { result ≡ end_at x (passing x (suc k)) }
{
    let from = frames_to(x, k, 0);
    Slot {
        from: from as u8,
        frame: frame_number(x, from),
        slot: 1,
        what: What::End as u8,
        countdown: 0,
    }
}

// The slots from frame `k` on, without the first `over` of them.
fn slots_from(x: u8, k: u8, m: u8, over: u8, told: bool) -> Calendar
    requires over { over ≤ 1 }
    requires frames { (1 ≤ m) × (m ≤ 4) }
    requires soon { k ≤ 90 }
    ensures { result ≡ with_slots (slots_from x k m over told) }
{
    let mut slots = [Slot::default(); 9];
    for i in over..2 * m {
        slots[usize::from(i - over)] = header_at(x, k, m, i);
    }
    let mut count = 2 * m - over;
    if told {
        slots[usize::from(count)] = end_after(x, k + m - 1);
        count += 1;
    }
    Calendar {
        fault: 0,
        count,
        slots,
    }
}

// The calendar of a response.
pub fn calendar_of(r: Response) -> Calendar
    ensures { result ≡ calendar_of r }
{
    match rules(r) {
        Ok(answered) => slots_from(
            r.frame,
            first_frame(r, answered),
            r.frames,
            passed_over(r.slot1),
            has_end(r, answered),
        ),
        Err(fault) => Calendar {
            fault: fault.number(),
            count: 0,
            slots: [Slot::default(); 9],
        },
    }
}
