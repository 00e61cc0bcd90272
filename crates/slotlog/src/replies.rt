// What is heard of a log: the reply to its next record, for whatever is told of it.
ghost use Rattle.std.specs.Prelude.{◌≡◌};
ghost use Rattle.reports.specs.Lent.{lent};
ghost use Rattle.receiver.specs.Reached.{Reached};
ghost use Rattle.slotlog.specs.Log.{next_in};
ghost use Rattle.slotlog.specs.declared.log.Next.TheVariants.{Report};
ghost use Rattle.slotlog.specs.Runs.{Answers, Replies};

use crate::log::{Next, read};
use receiver::answer::Answer;
use receiver::{Receiver, Reply};

// What is shown of a reply: of a report its frame, its slot and the receiver's answer; another record; one that is cut.
// Where no whole record is there, more of the log is wanted.
#[derive(Clone, Copy)]
pub(crate) enum Shown {
    Report(u8, u8, Answer),
    Other,
    Cut,
    Wants,
}

// The receiver after the next record, the bytes that the record takes, and what is shown of its reply.
#[derive(Clone, Copy)]
pub(crate) struct NextReply {
    pub receiver: Receiver,
    pub took: usize,
    pub shown: Shown,
}

// What a receiver answers to a report of the log; the message is not shown.
// Kept: `Reached` stands in each contract, since a `Receiver` is a struct of the C interface, whose fields C may fill.
fn hear(r: Receiver, frame: u8, slot: u8, kind: u8, blocks: &[u8]) -> Reply
    requires { Reached r }
    ensures { Answers r (lent frame slot kind blocks.now) result }
{
    let mut message = store::nothing();
    r.hear(frame, slot, kind, blocks, &mut message)
}

// A report of `n` bytes at the start of the rest.
// Kept: `n` beside the rest, which goes on after the report.
#[tactic(auto, using(crate::proofs::LogLaws::found))]
fn heard(receiver: Receiver, rest: &[u8], n: usize) -> NextReply
    requires reached { Reached receiver }
    requires report { next_in rest.now ≡ Report n }
    ensures { Replies receiver rest.now result }
{
    let frame = rest[4];
    let slot = rest[5];
    let reply = hear(receiver, frame, slot, rest[2], &rest[6..n]);
    let after = reply.receiver;
    let answer = reply.answer;
    NextReply {
        receiver: after,
        took: n,
        shown: Shown::Report(frame, slot, answer),
    }
}

// The next record of the rest, and the reply to it.
pub(crate) fn next(receiver: Receiver, rest: &[u8]) -> NextReply
    requires { Reached receiver }
    ensures { Replies receiver rest.now result }
{
    let (took, shown) = match read(rest) {
        Next::Report(n) => return heard(receiver, rest, n),
        Next::Other(n) => (n, Shown::Other),
        Next::Cut => (0, Shown::Cut),
        Next::Part | Next::End => (0, Shown::Wants),
    };
    NextReply {
        receiver,
        took,
        shown,
    }
}
