// What is kept of an open run.
ghost use Rattle.std.specs.Prelude.{◌≡◌, ◌≤◌};
ghost use Rattle.history.specs.Step.{no_run, older_run, broken_off, is_due, repeats, renews, opening, clears, joins};
ghost use Rattle.history.specs.Step.{run_after};

use crate::place::wane;
use crate::read::{Brought, same_fields};
use history::{Act, Open, Place};
use store::Raw;

// None.
pub fn no_run() -> Open
    ensures { result ≡ no_run }
{
    Open::default()
}

// What is left of it when a report comes in slot `q`, in turn or not.
pub fn older_run(turn: bool, q: Place, a: Open) -> Open
    ensures { result ≡ older_run turn q a }
{
    if !turn {
        return no_run();
    }
    Open {
        fields: same_fields(a.fields),
        again: wane(q, a.again),
        ..a
    }
}

// Whether slot `q` is due for its next block.
pub(crate) fn is_due(a: Open, q: Place) -> bool
    ensures { result ≡ is_due a q }
{
    a.held == 1 && q.slot == 1 && q.frame == blocks::slots::frame_of(a.frame, a.countdown, a.kept)
}

// Whether a header, its SCH/H but for the countdown and its countdown, repeats an earlier one.
// Kept: a header's SCH/H and its countdown are two arguments, here and below, as the definitions take them.
fn repeats(raw: Raw, again: u8, other: Raw, countdown: u8) -> bool
    ensures { result ≡ repeats raw again other countdown }
{
    store::same(raw, other) && again != 0 && countdown == again - 1
}

// Whether a header repeats its own, before the first block; `meant` where that is for this unit.
pub(crate) fn renews(a: Open, meant: bool, raw: Raw, countdown: u8) -> bool
    ensures { result ≡ renews a meant raw countdown }
{
    meant && a.kept == 0 && repeats(a.raw, a.again, raw, countdown)
}

// Whether what was open is gone with this act.
pub fn clears(act: Act) -> bool
    ensures { result ≡ clears act }
{
    matches!(act, Act::Ends | Act::Opens)
}

// Whether the bits that the report brings are joined.
pub fn joins(act: Act) -> bool
    ensures { result ≡ joins act }
{
    matches!(act, Act::Opens | Act::Takes)
}

// What becomes of it: it stays, it ends, the header in this frame opens one, it has one block more.
pub fn run_after(act: Act, x: Brought, frame: u8, a: Open) -> Open
    requires { (x.countdown ≤ 3) × (a.kept ≤ 14) }
    ensures { result ≡ run_after act (opening x.fields x.raw x.more frame x.countdown) a }
{
    if !clears(act) {
        if !joins(act) {
            return a;
        }
        return Open {
            kept: a.kept + 1,
            ..a
        };
    }
    if !joins(act) {
        return no_run();
    }
    Open {
        fields: x.fields,
        raw: x.raw,
        held: 1,
        again: x.countdown + 1,
        more: x.more,
        frame,
        countdown: x.countdown,
        kept: 0,
    }
}

// Whether an open run is broken off by a report, in turn or not.
pub fn broken_off(turn: bool, a: Open) -> bool
    ensures { result ≡ broken_off turn a }
{
    !turn && a.held == 1
}
