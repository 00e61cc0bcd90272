// A run over a log, as much of it as is there.
ghost use Rattle.std.specs.Prelude.{◌≡◌, ◌+◌, ◌≤◌, length, take};
ghost use Rattle.receiver.specs.Reached.{Reached};
ghost use Rattle.slotlog.specs.Room.{moved_up};
ghost use Rattle.slotlog.specs.declared.run.State.TheVariants.{GoesOn};
ghost use Rattle.slotlog.specs.Runs.{state_of, has_room, One, Ran};

use crate::print::shown_line;
use crate::replies::{Shown, next};
use crate::room::to_start;
use receiver::Receiver;

// The state of a run.
#[derive(Clone, Copy, PartialEq, Eq)]
pub enum State {
    // It goes on with more room for its lines.
    GoesOn,

    // It wants more of the log.
    Wants,

    // A record was cut.
    Cut,
}

// The receiver now, how many bytes of the log were read and how many of the output were written, and a state.
#[derive(Clone, Copy)]
pub struct Run {
    pub receiver: Receiver,
    pub read: usize,
    pub written: usize,
    pub state: State,
}

// The state of a run after a reply.
fn state_of(shown: Shown) -> State
    ensures { result ≡ state_of shown }
{
    match shown {
        Shown::Report(_, _, _) | Shown::Other => State::GoesOn,
        Shown::Cut => State::Cut,
        Shown::Wants => State::Wants,
    }
}

// Whether there is room for a line after so many bytes of the output.
fn has_room(room: usize, written: usize) -> bool
    requires { written ≤ room }
    ensures { result ≡ has_room room written }
{
    128 <= room - written
}

impl Run {
    // The next record of the rest, and its line.
    fn one(self, rest: &[u8], out: &mut [u8]) -> Run
        requires reached { Reached self.receiver }
        requires read { self.read + length rest.now ≤ 18446744073709551615 }
        requires room { self.written + 128 ≤ length out.old }
        requires goes_on { self.state ≡ GoesOn }
        ensures { One rest.now self out.old result out.new }
    {
        let x = next(self.receiver, rest);
        let shown = x.shown;
        let receiver = x.receiver;
        Run {
            receiver,
            read: self.read + x.took,
            written: shown_line(out, self.written, shown),
            state: state_of(shown),
        }
    }

    // Reads what can be read of `log` with the room that there is in `out`.
    fn over(receiver: Receiver, log: &[u8], out: &mut [u8]) -> Run
        requires { Reached receiver }
        ensures { Ran receiver log.now out.old result out.new }
    {
        let mut x = Run {
            receiver,
            read: 0,
            written: 0,
            state: State::GoesOn,
        };
        // Kept: no index is counted here; a turn is a record, and the state says whether another follows.
        while x.state == State::GoesOn && has_room(out.len(), x.written) {
            x = x.one(&log[x.read..], out);
        }
        x
    }

    // Reads what can be read of the first `have` bytes of a room, all of it where it has fewer, and moves what is left
    // of them to its start.
    // Kept: `have` beside the room, whose other bytes are room for more of the log.
    pub fn part(receiver: Receiver, room: &mut [u8], have: usize, out: &mut [u8]) -> Run
        requires { Reached receiver }
        ensures ran { Ran receiver (take have room.old) out.old result out.new }
        ensures inside { result.read ≤ have }
        ensures moved { room.new ≡ moved_up have result.read room.old }
    {
        let n = have.min(room.len());
        let r = Run::over(receiver, &room[..n], out);
        to_start(room, r.read, n);
        r
    }
}
