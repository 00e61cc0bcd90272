// Frames and slots in their turn.
ghost use Rattle.std.specs.Prelude.{◌≡◌};
ghost use Rattle.history.specs.Step.{wane};
ghost use Rattle.reports.specs.Turns.{follows};

use history::Place;

// Whether a report in slot `q` follows the last one; the first follows none.
pub fn follows(last: Place, q: Place) -> bool
    ensures { result ≡ follows last q }
{
    if last.slot == 0 {
        return true;
    }
    if last.slot == 1 {
        return q.frame == last.frame && q.slot == 3;
    }
    q.frame == last.frame % 18 + 1 && q.slot == 1
}

// A countdown falls by one with each frame, at slot 1.
pub(crate) fn wane(q: Place, again: u8) -> u8
    ensures { result ≡ wane q again }
{
    if q.slot == 1 {
        again.saturating_sub(1)
    } else {
        again
    }
}
