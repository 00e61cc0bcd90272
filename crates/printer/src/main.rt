// Prints a slot log from standard input, a line for each report: frame, slot, outcome, dropped, fault, bits.
//
// Unless the log starts with the settings of a unit, `unit` is printed and nothing else. An unknown, misplaced or
// wrongly long record prints `kind` and is skipped; one that is cut off or shorter than its kind prints `cut`, and
// nothing is read after it. What is printed is `printed` of the whole log (crates/slotlog/specs): here it is read and
// written in parts.
#![tactic(auto)]

ghost use Rattle.std.specs.Prelude.{◌≡◌, ◌≤◌, length, take, IfSome};
ghost use Rattle.receiver.specs.Reached.{Reached};

use lines::input::read_full;
use lines::line;
use receiver::Receiver;
use slotlog::log::{Begun, FIRST};
use slotlog::run::{Run, State};
use std::io::{Read, Write};

// Kept: `have` beside the log's room, here and below: the bytes after the first `have` are room for more of the log,
// and no memory is taken. `input` and `to` are the reader and the writer of `main`, lent each for itself.
// The receiver, and how many bytes at the start of the log's room are still to be read.
#[derive(Clone, Copy)]
struct Printer {
    receiver: Receiver,
    have: usize,
}

// Room for more of the log than its longest record, 65,537 bytes.
fn log_room() -> [u8; 131072]
    ensures { 131072 ≡ length result }
{
    [0; 131072]
}

// Reads more of the log after its first `have` bytes, which stay, and answers how many are there then; fewer than there
// is room for where the log ends.
fn more<R: Read>(input: &mut R, log: &mut [u8], have: usize) -> usize
    requires { have ≤ length log.old }
    ensures more { have ≤ result }
    ensures inside { result ≤ length log.new }
    ensures kept { take have log.new ≡ take have log.old }
{
    have + read_full(input, &mut log[have..])
}

impl Printer {
    // Reads more of the log, and prints what can be read of it; none where nothing is to be printed after that. Where
    // the log has ended with bytes left over, `cut` is printed.
    fn turn<R: Read, W: Write>(self, input: &mut R, to: &mut W, log: &mut [u8]) -> Option<Printer>
        requires reached { Reached self.receiver }
        requires inside { self.have ≤ length log.old }
        ensures reached { IfSome result (λ x. Reached x.receiver) }
        ensures inside { IfSome result (λ x. x.have ≤ length log.new) }
    {
        let all = more(input, log, self.have);
        let ended = all < log.len();
        let mut out = [0u8; 65536];
        let r = Run::part(self.receiver, log, all, &mut out);
        let left = all - r.read;
        if !line::say(to, &out[..r.written]) {
            return None;
        }
        match r.state {
            State::Cut => return None,
            State::Wants if ended => {
                if 0 < left {
                    line::cut(to);
                }
                return None;
            }
            State::Wants | State::GoesOn => {}
        }
        let receiver = r.receiver;
        Some(Printer {
            receiver,
            have: left,
        })
    }
}

// Prints what follows the first record; its first `have` bytes are in the log's room. A proved loop has to end, and
// nothing says that the input does: it has more turns than a run takes.
fn print<R: Read, W: Write>(
    input: &mut R,
    to: &mut W,
    receiver: Receiver,
    log: &mut [u8],
    have: usize,
)
    requires reached { Reached receiver }
    requires inside { have ≤ length log.old }
{
    let mut x = Printer { receiver, have };
    for _ in 0..u64::MAX {
        let Some(after) = x.turn(input, to, log) else {
            return;
        };
        x = after;
    }
}

// Reads the bytes that tell how the log starts, and answers how many there are.
fn head<R: Read>(input: &mut R, log: &mut [u8]) -> usize
    requires { 16 ≤ length log.old }
    ensures { result ≤ length log.new }
{
    read_full(input, &mut log[..FIRST])
}

// Reads how the log starts, and prints it.
fn start<R: Read, W: Write>(input: &mut R, to: &mut W, log: &mut [u8])
    requires { 16 ≤ length log.old }
{
    let got = head(input, log);
    match Begun::part(log, got) {
        Ok(begun) => {
            let receiver = begun.receiver;
            print(input, to, receiver, log, got - begun.took);
        }
        Err(_) => {
            line::say(to, b"unit\n");
        }
    }
}

fn main(rt: HostRuntime) {
    let mut input = rt.stdin();
    let mut to = rt.stdout();
    let mut log = log_room();
    start(&mut input, &mut to, &mut log);
}
