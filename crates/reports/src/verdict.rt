// What a report comes to, before anything is changed: the rules, side by side. `lost` where an open assembly was
// broken off.
ghost use Rattle.std.specs.Prelude.{◌≡◌, cond, not, ◌≤◌};
ghost use Rattle.history.specs.Step.{verdict, missed, passed, on_nothing, on_frag, on_end};
ghost use Rattle.history.specs.Step.{on_fragmented, on_unfragmented};
ghost use Rattle.reports.specs.Nears.{Judged};

use crate::near::copied;
use crate::read::Brought;
use crate::run::{is_due, renews};
use history::{Act, Nears, Open, Outcome, Place, Verdict, What};

fn verdict(outcome: Outcome, dropped: bool, act: Act, near: bool) -> Verdict
    ensures { result ≡ verdict outcome dropped act near }
{
    Verdict {
        outcome,
        dropped,
        act,
        near,
    }
}

// The due block was not heard: the assembly ends, and the mark tells of it.
fn missed() -> Verdict
    ensures { result ≡ missed }
{
    verdict(Outcome::Quiet, true, Act::Ends, false)
}

// A block that is not due changes nothing.
fn passed(lost: bool) -> Verdict
    ensures { result ≡ passed lost }
{
    verdict(Outcome::Quiet, lost, Act::Stays, false)
}

// Nothing was heard, or a block with a fault.
fn on_nothing(due: bool, lost: bool) -> Verdict
    ensures { result ≡ on_nothing due lost }
{
    if due { missed() } else { passed(lost) }
}

// A DMAC-FRAG was heard; `last` where only the last block is still to come.
fn on_frag(due: bool, last: bool, lost: bool) -> Verdict
    ensures { result ≡ on_frag due last lost }
{
    if !due {
        return passed(lost);
    }
    if last {
        return missed();
    }
    verdict(Outcome::Kept, lost, Act::Takes, false)
}

// A DMAC-END was heard.
fn on_end(due: bool, last: bool, lost: bool) -> Verdict
    ensures { result ≡ on_end due last lost }
{
    if !due {
        return passed(lost);
    }
    if !last {
        return missed();
    }
    verdict(Outcome::Joined, lost, Act::Ends, false)
}

// The mark that a fragmented header leaves: an open assembly ends, but where the header renews it.
fn mark(held: bool, renewed: bool, lost: bool) -> bool
    ensures { result ≡ cond held (not renewed) lost }
{
    if held { !renewed } else { lost }
}

// A fragmented header was heard.
fn on_fragmented(meant: bool, held: bool, renewed: bool, lost: bool) -> Verdict
    ensures { result ≡ on_fragmented meant held renewed lost }
{
    let dropped = mark(held, renewed, lost);
    if !meant {
        return verdict(Outcome::Quiet, dropped, Act::Ends, false);
    }
    verdict(Outcome::Opened, dropped, Act::Opens, false)
}

// An unfragmented header was heard: to an open assembly it is as if nothing was heard.
fn on_unfragmented(due: bool, meant: bool, copied: bool, lost: bool) -> Verdict
    ensures { result ≡ on_unfragmented due meant copied lost }
{
    let p = on_nothing(due, lost);
    if !meant {
        return p;
    }
    if copied {
        return verdict(Outcome::Copied, p.dropped, p.act, false);
    }
    verdict(Outcome::Single, p.dropped, p.act, true)
}

// By what the report in slot `q` brings, over what is left of the open run and of the earlier headers.
pub fn judge(x: Brought, a: Open, near: &Nears, q: Place, lost: bool) -> Verdict
    requires { near.now.count ≤ 7 }
    ensures { Judged x a near.now.places near.now.count q lost result }
{
    let due = is_due(a, q);
    let last = a.kept == a.more;
    match x.what {
        What::Nothing => on_nothing(due, lost),
        What::Fragmented => {
            let renewed = renews(a, x.meant, x.raw, x.countdown);
            on_fragmented(x.meant, a.held == 1, renewed, lost)
        }
        What::Unfragmented => {
            let copy = copied(near, x.raw, x.countdown);
            on_unfragmented(due, x.meant, copy, lost)
        }
        What::Frag => on_frag(due, last, lost),
        What::End => on_end(due, last, lost),
    }
}
