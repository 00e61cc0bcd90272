// The demands, of the calls themselves: each function makes one call, or two in turn, and ensures what the demands say
// of it; of a response's slots, what request 06 says. Where a call no longer promises what they need, it is refused
// here. No program calls these.
#![tactic(auto)]

mod asked;

ghost use Rattle.std.specs.Prelude.{◌≡◌, ◌+◌, ◌*◌, ◌≤◌, ◌<◌, length};
ghost use Rattle.blocks.specs.Continuation.{read_continuation};
ghost use Rattle.blocks.specs.Header.{read_header, read_reported};
ghost use Rattle.build.specs.Build.{sch_s, sch_h, build_of, out_of};
ghost use Rattle.reports.specs.Lent.{lent};
ghost use Rattle.receiver.specs.Reached.{Reached};
ghost use Rattle.receiver.specs.View.{replied};
ghost use Rattle.demands.specs.Demand1.{Reads, ReadsReported, ReadsBlock, LaysOut};
ghost use Rattle.demands.specs.Demand2.{k, header_back, sch_f, block_back, Buildable, Rebuildable, Rebuilt};
ghost use Rattle.demands.specs.OfCalls.{call_by, BuildsAs, BeginsAs, HearsAs};
ghost use Rattle.demands.specs.Req06.{Plans};

use crate::asked::Asked;
use answering::{Calendar, Response, calendar_of};
use blocks::continuation::{Continuation, read_continuation};
use blocks::header::{Header, read_header, read_reported};
use blocks::sizes::{SchF, SchH, SchS};
use blocks::slots::{Due, due_frame};
use build::{Built, build};
use receiver::answer::Answer;
use receiver::{Fresh, Receiver, Reply};

// Demand 1 of `read_header`.
// Kept: the arguments of each call, here and below, as the call itself takes them.
fn reads(s: &[u8], h: &[u8]) -> Header
    ensures { Reads s.now h.now result }
{
    read_header(s, h)
}

// Demand 1 of `read_reported`.
fn reads_reported(frame: u8, slot: u8, s: &[u8], h: &[u8]) -> Header
    ensures { ReadsReported frame slot s.now h.now result }
{
    read_reported(frame, slot, s, h)
}

// Demand 1 of `read_continuation`.
fn reads_block(s: &[u8]) -> Continuation
    ensures { ReadsBlock s.now result }
{
    read_continuation(s)
}

// Demand 1 of `due_frame`.
fn lays_out(x: u8, f: u8, i: u8) -> Due
    ensures { LaysOut x f i result }
{
    due_frame(x, f, i)
}

// Request 06 of `calendar_of`.
fn plans(r: Response) -> Calendar
    ensures { Plans r result }
{
    calendar_of(r)
}

// The bytes of an output before its continuation blocks.
const HEADER: usize = SchS::BYTES + SchH::BYTES;

// The header of an output.
fn header_of(out: &[u8]) -> Header
    requires { 24 ≤ length out.now }
    ensures { result ≡ read_header (sch_s out.now) (sch_h out.now) }
{
    read_header(&out[..SchS::BYTES], &out[SchS::BYTES..HEADER])
}

// The header of an output, reported in a frame and a slot.
fn reported_of(frame: u8, slot: u8, out: &[u8]) -> Header
    requires { 24 ≤ length out.now }
    ensures { result ≡ read_reported frame slot (sch_s out.now) (sch_h out.now) }
{
    read_reported(frame, slot, &out[..SchS::BYTES], &out[SchS::BYTES..HEADER])
}

// Block `i` of an output.
fn block_of(out: &[u8], i: u8) -> Continuation
    requires { 24 + 34 * i + 34 ≤ length out.now }
    ensures { result ≡ read_continuation (sch_f i out.now) }
{
    let first = HEADER + SchF::BYTES * (i as usize);
    read_continuation(&out[first..first + SchF::BYTES])
}

impl<'a> Asked<'a> {
    // The call of `build`.
    fn built(self, out: &mut [u8]) -> Built
        ensures answer { result
            ≡ build_of self.entry.sync self.entry.countdown self.entry.fields self.entry.n
            (length self.entry.message.now) (length out.old) }
        ensures output { out.new
            ≡ out_of self.entry.sync self.entry.countdown self.entry.fields self.entry.n self.entry.message.now
            out.old }
    {
        build(
            self.sync,
            self.countdown,
            self.fields,
            self.n,
            self.message,
            out,
        )
    }

    // Demands 1 and 2 of it.
    fn builds(self, out: &mut [u8]) -> Built
        ensures { BuildsAs (call_by self.entry out.old) result out.new }
    {
        self.built(out)
    }

    // Demand 2 of `build` and then `read_header`: the header that is built reads back.
    fn reads_back(self, out: &mut [u8]) -> Header
        requires { Buildable (call_by self out.old) }
        ensures { result ≡ header_back (call_by self.entry out.old) }
    {
        self.built(out);
        header_of(out)
    }

    // The same of `build` and then `read_reported`, with the header's own frame and slot.
    fn reads_reported_back(self, frame: u8, slot: u8, out: &mut [u8]) -> Header
        requires buildable { Buildable (call_by self out.old) }
        requires own_frame { frame ≡ self.sync.frame }
        requires own_slot { slot ≡ self.sync.slot + 1 }
        ensures { result ≡ header_back (call_by self.entry out.old) }
    {
        self.built(out);
        reported_of(frame, slot, out)
    }

    // The same of `build` and then `read_continuation`: each block that is built reads back.
    fn reads_block_back(self, i: u8, out: &mut [u8]) -> Continuation
        requires buildable { Buildable (call_by self out.old) }
        requires of_the_message { i < k (call_by self out.old) }
        ensures { result ≡ block_back (call_by self.entry out.old) i }
    {
        self.built(out);
        block_of(out, i)
    }
}

// Demand 2 of `read_header` and then `build`: an unfragmented header that reads well builds again to the same bytes.
fn builds_again(s: &[u8], h: &[u8], message: &[u8], out: &mut [u8]) -> Built
    requires { Rebuildable s.now h.now message.now out.old }
    ensures { Rebuilt s.now h.now out.old result out.new }
{
    let x = read_header(s, h);
    build(x.sync, x.countdown, x.fields, x.bits, message, out)
}

// Demand 1 of `fresh`; the calls begin with its receiver.
fn begins(individual: u32, group: u32, mni: u32) -> Fresh
    ensures { BeginsAs individual group mni result × Reached result.receiver }
{
    Receiver::fresh(individual, group, mni)
}

// Demands 1 and 3 of `hear`; the calls go on with its receiver.
#[tactic(auto, using(crate::proofs::CallLaws::heard))]
fn hears(
    receiver: Receiver,
    frame: u8,
    slot: u8,
    kind: u8,
    blocks: &[u8],
    message: &mut [u8],
) -> Reply
    requires { Reached receiver }
    ensures { Reached result.receiver
        × HearsAs receiver (lent frame slot kind blocks.now) result
        message.old message.new }
{
    receiver.hear(frame, slot, kind, blocks, message)
}

// The same of `hear_in_place`, which is what C calls: the calls go on with the receiver where it stands.
#[tactic(auto, using(crate::proofs::CallLaws::heard))]
fn hears_in_place(
    receiver: &mut Receiver,
    frame: u8,
    slot: u8,
    kind: u8,
    blocks: &[u8],
    message: &mut [u8],
) -> Answer
    requires { Reached receiver.old }
    ensures { Reached receiver.new
        × HearsAs receiver.old (lent frame slot kind blocks.now) (replied receiver.new result)
        message.old message.new }
{
    receiver.hear_in_place(frame, slot, kind, blocks, message)
}
