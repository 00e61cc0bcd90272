// Makes the calls that records on standard input name, and prints each answer whole, a line for each record.
//
// A record is two bytes length of what follows, two bytes kind, body; numbers have their low byte first. Numbers are
// printed in decimal with one space between.
//     0 settings           individual 4, group 4, MNI 4
//         unit FAULT
//     4 report             frame 1, slot 1, kind 1 (1 nothing, 2 SCH/S and SCH/H, 3 SCH/F), buffer length 2 (at most
//                          1,024), blocks: the rest
//         report OUTCOME DROPPED FAULT BITS DTYPE DEST STYPE SRC MNI TYPE WIDTH ELEMENTS HEX REST LSOURCE LTYPE LBITS
//     5 build              system 1, A/B 1, slot 1, frame 1, countdown 1, destination type 1, destination 4, source
//                          type 1, source 4, MNI 4, message type 1, width 1, elements 8, n 4, output length 2 (at
//                          most 1,024), message: the rest
//         build FAULT K HEX REST
//     6 read header        length of SCH/S 1, length of SCH/H 1, the two blocks
//         header FAULT SYSTEM AB SLOT FRAME FRAG COUNT COUNTDOWN DTYPE DEST STYPE SRC MNI TYPE WIDTH ELEMENTS
//             FIRST BITS
//     7 read continuation  the block
//         block FAULT LAST FIRST BITS
//     8 layout             X 1, F 1, i 1
//         frame FAULT FRAME
//     9 read transport     message type 1, elements 8, n 4, message: the rest
//         transport FAULT KIND ADDRESSED CMNI CSSI PROTOCOL REQUEST SHORT ACKREQ STORAGE STATUS REFERENCE VALIDITY
//             FTYPE FADDRESS FIRST BITS
//    10 build transport    message type 1, FCS flag 1, addressed 1, caller's MNI 4, caller's SSI 4, kind 1, protocol 1,
//                          request 1, short form 1, ack required 1, storage 1, status 1, reference 1, validity 1,
//                          forward type 1, forward address 8, n 4, output length 2 (at most 1,024), user data: the rest
//         sdu FAULT BITS HEX REST
//    11 bookings           nothing
//         bookings
//    12 book               source 4, message type 1, elements 8, n 4, message: the rest
//         book FAULT MARK KIND REFERENCE
// Settings make the receiver a fresh one, and so does the start, with three zeros; a report goes to the receiver that
// the record before left.
// Kind 11 makes the bookings fresh ones, and so does the start; kind 12 books in those that the record before left.
// The buffer of a report and the output of a build are filled with 5A (hexadecimal) before the call. HEX is what was
// written, two lower case digits for each byte: the first (BITS + 7) / 8 of the buffer or of the output of kind 10,
// 24 + 34 K of the output of kind 5; `-` for none. REST is 1 if every later byte is still 5A, else 0. LSOURCE, LTYPE
// and LBITS are of a DM-SDS DATA or a DM-SDS ACK that was coming in and is lost with this report: its source, its
// message type and the bits that had come; zeros where there is none.
// KIND is 1 transfer, 2 report, 3 ack, 4 short report, 0 refused. ADDRESSED is 1 with a calling party, whose MNI and
// SSI are CMNI and CSSI. STATUS is the delivery status, of a short report its type. FADDRESS is the forward address
// as one number: SSI, or SSI times 2^24 and the extension. FIRST and BITS are the user data's. MARK is 0 nothing to
// book, 1 booked, 2 again. What a message does not have is 0. Of the elements of kinds 9 and 12 the last bit alone
// counts.
// What a body has more than its kind takes is left alone. Another kind, or a buffer or an output above 1,024, prints
// `kind`, and is skipped. A record that is cut off, has a length below 2 or a body above 4,096 bytes, or is shorter
// than its kind, prints `cut`, and nothing is read after it.
#![tactic(auto)]

ghost use Rattle.std.specs.Prelude.{◌≡◌, ◌≤◌, length, if◌then◌else◌};
ghost use Rattle.std.specs.declared.ops.ControlFlow.TheVariants.{Continue, Break};
ghost use Rattle.probe.specs.Tells.{StateReached, Tells, Kept, kept_in};

use bookings::Bookings;
use lines::input::Taken;
use lines::line;
use lines::line::Told;
use receiver::Receiver;
use std::io::{Read, Write};
use std::ops::ControlFlow;

// What is kept from one record to the next.
#[derive(Clone, Copy)]
struct State {
    receiver: Receiver,
    bookings: Bookings,
}

// What is kept after a record, and the record's line, of a call that keeps one part of it.
fn kept<S: Drop, F: FnOnce(S) -> State>(after: Told<S>, with: F) -> Told<State>
    requires { F.pre with after.state }
    ensures state { F.post with after.state result.state }
    ensures line { result.line ≡ after.line }
{
    let line = after.line;
    Told {
        state: with(after.state),
        line,
    }
}

// The line of any record, and what is kept after it.
// Kept: a `match` on the record's kind, a number as the table above has it: each kind has its own call with its own
// arguments.
fn tell(before: State, kind: u16, body: &[u8], line: &mut [u8]) -> Told<State>
    requires reached { StateReached before }
    requires room { 4096 ≤ length line.old }
    ensures reached { StateReached result.state }
    ensures tells { Tells before kind body.now line.old line.new result }
{
    let receiver = before.receiver;
    let bookings = before.bookings;
    let with_receiver = |receiver: Receiver| -> State
        ensures { (result.receiver ≡ receiver) × (result.bookings ≡ bookings) }
    { State { receiver, bookings } };
    let with_bookings = |bookings: Bookings| -> State
        ensures { (result.receiver ≡ receiver) × (result.bookings ≡ bookings) }
    { State { receiver, bookings } };
    let line = match kind {
        0 => return kept(probe_reports::unit(receiver, body, line), with_receiver),
        4 => return kept(probe_reports::report(receiver, body, line), with_receiver),
        9 => probe_transport::read(body, line),
        10 => probe_transport::build(body, line),
        11 => return kept(probe_transport::fresh(line), with_bookings),
        12 => return kept(probe_transport::book(bookings, body, line), with_bookings),
        _ => probe_blocks::answer(kind, body, line),
    };
    Told {
        state: before,
        line,
    }
}

// What is kept, and whether another record is to be read.
fn step(state: State, more: bool) -> ControlFlow<State, State>
    ensures kept { state ≡ kept_in result }
    ensures more { result ≡ (if more then Continue state else Break state) }
{
    if more {
        ControlFlow::Continue(state)
    } else {
        ControlFlow::Break(state)
    }
}

// Answers a record: what is kept after it, and whether another is to be read.
fn answer_record<W: Write>(
    to: &mut W,
    before: State,
    kind: u16,
    body: &[u8],
) -> ControlFlow<State, State>
    requires { StateReached before }
    ensures { StateReached (kept_in result) × Kept before kind body.now (kept_in result) }
{
    let mut out = [0u8; 4096];
    let after = tell(before, kind, body, &mut out);
    let more = match after.line {
        Some(n) => line::say(to, &out[..n]),
        None => line::cut(to),
    };
    step(after.state, more)
}

fn next<R: Read, W: Write>(input: &mut R, to: &mut W, before: State) -> ControlFlow<State, State>
    requires { StateReached before }
    ensures { StateReached (kept_in result) }
{
    let mut body = [0u8; 4096];
    match lines::input::take(input, &mut body) {
        Taken::Record(kind, n) => answer_record(to, before, kind, &body[..n]),
        Taken::Cut => step(before, line::cut(to)),
        Taken::End => ControlFlow::Break(before),
    }
}

// A proved loop has to end, and nothing says that the input does: it has more turns than a run takes.
fn main(rt: HostRuntime) {
    let mut input = rt.stdin();
    let mut to = rt.stdout();
    let fresh = Receiver::fresh(0, 0, 0);
    let receiver = fresh.receiver;
    let bookings = Bookings::fresh();
    let mut state = State { receiver, bookings };
    for _ in 0..u64::MAX {
        let ControlFlow::Continue(after) = next(&mut input, &mut to, state) else {
            return;
        };
        state = after;
    }
}
