// The receiver: slot reports in, messages out.
#![tactic(auto)]

pub mod answer;
pub mod assembly;

ghost use Rattle.std.specs.Prelude.{◌≡◌, true, false, cond, is_ok, length};
ghost use Rattle.blocks.specs.Faults.{refusal};
ghost use Rattle.history.specs.Step.{is_over};
ghost use Rattle.reports.specs.Lent.{brought, lent};
ghost use Rattle.reports.specs.Turns.{follows};
ghost use Rattle.receiver.specs.Reached.{refused_with, Reached, Hears};
ghost use Rattle.receiver.specs.View.{replied, Brings, new_with, fresh_of};

use crate::answer::{Answer, lost_of, told, with_loss};
use crate::assembly::{Assembly, bits_after, clear, store_after};
use blocks::fault::Fault;
use history::{Nears, Place, What};
use reports::near::{fall, forget, keep, no_nears};
use reports::place::follows;
use reports::read::{Brought, headless, read};
use reports::report::report_rules;
use reports::run::{broken_off, older_run, run_after};
use reports::unit::Settings;
use reports::verdict::judge;

// The receiver. What is not there is zero.
// Kept: that a receiver was reached stands in the clauses of `fresh` and `hear` (`Reached`), and in no type: C lends
// the record, and these clauses are what README.md and the theorems say of it.
#[repr(C)]
#[derive(Clone, Copy)]
pub struct Receiver {
    pub settings: Settings,
    pub place: Place,
    pub near: Nears,
    pub assembly: Assembly,
}

// The receiver after a report, and the answer.
#[derive(Clone, Copy)]
pub struct Reply {
    pub receiver: Receiver,
    pub answer: Answer,
}

// A fresh receiver, or the fault of its settings.
// Kept: a number beside a receiver, in place of a Result, as pierstrand.h shows them.
#[repr(C)]
#[derive(Clone, Copy)]
pub struct Fresh {
    pub fault: u8,
    pub receiver: Receiver,
}

// One of two values. As a function, and no `if` where it is called: the reply has one way through (docs/DECISIONS.md,
// 58).
pub(crate) fn either<T: Copy>(first: bool, a: T, b: T) -> T
    ensures { result ≡ cond first a b }
{
    if first { a } else { b }
}

// Whether a report follows the last one; one that is refused breaks nothing.
fn in_turn(accepted: Result<(), Fault>, last: Place, q: Place) -> bool
    ensures { result ≡ cond (is_ok accepted) (follows last q) true }
{
    accepted.is_err() || follows(last, q)
}

// Whether its frame is over with it; one that is refused ends none.
fn ending(accepted: Result<(), Fault>, q: Place) -> bool
    ensures { result ≡ cond (is_ok accepted) (is_over q) false }
{
    accepted.is_ok() && q.slot != 1
}

// What a report brings: nothing, and its fault, where it is refused.
fn heard(
    accepted: Result<(), Fault>,
    settings: Settings,
    q: Place,
    kind: u8,
    blocks: &[u8],
) -> Brought
    requires { refusal accepted ≡ 0 → brought kind (length blocks.now) ≡ true }
    ensures { Brings (refusal accepted) settings (lent q.frame q.slot kind blocks.now) result }
{
    match accepted {
        Ok(()) => read(settings, q, kind, blocks),
        Err(fault) => headless(What::Nothing, fault.number(), 0, 0),
    }
}

impl Receiver {
    // One that has heard nothing.
    fn new(settings: Settings) -> Receiver
        ensures { result ≡ new_with settings }
    {
        Receiver {
            settings,
            place: Place::default(),
            near: no_nears(),
            assembly: Assembly::none(),
        }
    }

    // A fresh receiver. Settings of 2^24 or more are refused: fault 13, and a receiver whose settings are three zeros.
    pub fn fresh(individual: u32, group: u32, mni: u32) -> Fresh
        ensures { (result ≡ fresh_of individual group mni) × Reached result.receiver }
    {
        let settings = Settings {
            individual,
            group,
            mni,
        };
        if settings.fit() {
            return Fresh {
                fault: 0,
                receiver: Receiver::new(settings),
            };
        }
        Fresh {
            fault: Fault::Range.number(),
            receiver: Receiver::new(Settings {
                individual: 0,
                group: 0,
                mni: 0,
            }),
        }
    }

    // The reply to a report that is accepted, or refused for a fault: it is read and judged, and the answer is told. To
    // a refused one no time has gone by, and it brings nothing. What is lost is told of the assembly as it was before
    // the report.
    // Kept: place, kind and blocks are arguments, as C hands them over: a struct of them would be made in
    // `hear_in_place` and taken apart in `read`, which is no plainer.
    fn reply(
        &mut self,
        accepted: Result<(), Fault>,
        q: Place,
        kind: u8,
        blocks: &[u8],
        message: &mut [u8],
    ) -> Answer
        requires reached { Reached self.old }
        requires refused { refusal accepted
            ≡ refused_with (lent q.frame q.slot kind blocks.now) message.old }
        ensures { Reached self.new
            × Hears self.old (lent q.frame q.slot kind blocks.now) (replied self.new result)
            message.old message.new }
    {
        let ok = accepted.is_ok();
        let turn = in_turn(accepted, self.place, q);
        let tick = either(ok, q, Place::default());
        let own = self.assembly.run;
        let lost = broken_off(turn, own);
        let run = older_run(turn, tick, own);
        let joined = self.assembly.bits;
        let bits = either(turn, joined, 0);
        forget(!turn, &mut self.near);
        clear(!turn, &mut self.assembly.store);
        let x = heard(accepted, self.settings, q, kind, blocks);
        let v = judge(x, run, &self.near, tick, lost);
        let answer = told(
            v,
            x,
            run.fields,
            bits,
            &self.assembly.store,
            blocks,
            message,
        );
        store_after(v.act, &mut self.assembly.store, bits, x, blocks);
        let over = ending(accepted, q);
        fall(over, &mut self.near);
        keep(v.near, over, x, &mut self.near);
        self.place = either(ok, q, self.place);
        self.assembly.run = run_after(v.act, x, q.frame, run);
        self.assembly.bits = bits_after(v.act, bits, x.bits);
        let loss = lost_of(v.dropped, own.fields.source.ssi, own.fields.message, joined);
        with_loss(answer, loss)
    }

    // Hears a slot report where the receiver stands: `kind` 1 lends no bytes and brings nothing, 2 lends SCH/S with
    // SCH/H (24 bytes), 3 lends SCH/F (34 bytes). Refused in the order 15, 16, 1, 17 (the message's buffer is 512 bytes
    // or more); then the receiver and the buffer are as before. Asks for a receiver that `fresh` or an earlier report
    // gave, and leaves such a one.
    pub fn hear_in_place(
        &mut self,
        frame: u8,
        slot: u8,
        kind: u8,
        blocks: &[u8],
        message: &mut [u8],
    ) -> Answer
        requires { Reached self.old }
        ensures { Reached self.new
            × Hears self.old (lent frame slot kind blocks.now) (replied self.new result)
            message.old message.new }
    {
        let accepted = report_rules(frame, slot, kind, blocks.len(), message.len());
        self.reply(accepted, Place { frame, slot }, kind, blocks, message)
    }

    // The same by value: the receiver is given back, with the answer.
    pub fn hear(mut self, frame: u8, slot: u8, kind: u8, blocks: &[u8], message: &mut [u8]) -> Reply
        requires { Reached self }
        ensures { Reached result.receiver
            × Hears self (lent frame slot kind blocks.now) result message.old message.new }
    {
        let answer = self.hear_in_place(frame, slot, kind, blocks, message);
        Reply {
            receiver: self,
            answer,
        }
    }
}
