// The earlier headers for this unit that copies can still come of: the first `count` of seven places of three numbers.
// Kept: each function asks for a count of at most 7, and no field of `Nears` says it, since `nears_of`, on which
// theorems of receivers stand, gives such a record of any list.
ghost use Rattle.std.specs.Prelude.{◌≡◌, true, cond, [], ◌≤◌, ◌<◌, length};
ghost use Rattle.history.specs.Step.{fits};
ghost use Rattle.reports.specs.Nears.{nears_of, Placed, Put, Copied, Fallen, Kept};

use crate::read::Brought;
use history::{Near, Nears};
use store::Raw;

// None of them.
pub fn no_nears() -> Nears
    ensures { result ≡ nears_of [] }
{
    Nears {
        count: 0,
        places: [0; 21],
    }
}

// Leaves none of them where they are gone.
pub fn forget(gone: bool, near: &mut Nears)
    ensures { near.new ≡ cond gone (nears_of []) near.old }
{
    if gone {
        *near = no_nears();
    }
}

// Place `i`, read and written.
fn place(places: &[u64; 21], i: usize) -> Near
    requires { i < 7 }
    ensures { Placed places.now i result }
{
    Near {
        raw: Raw {
            high: places[3 * i],
            low: places[3 * i + 1],
        },
        countdown: places[3 * i + 2],
    }
}

fn put(places: &mut [u64; 21], i: usize, n: Near)
    requires { i < 7 }
    ensures { Put places.old i n places.new }
{
    places[3 * i] = n.raw.high;
    places[3 * i + 1] = n.raw.low;
    places[3 * i + 2] = n.countdown;
}

// Whether a header, its SCH/H but for the countdown and its countdown, is a copy of this one.
fn fits(n: Near, raw: Raw, countdown: u8) -> bool
    ensures { result ≡ fits n raw countdown }
{
    n.countdown == u64::from(countdown) && store::same(n.raw, raw)
}

// Whether it is a copy of one of them.
pub(crate) fn copied(near: &Nears, raw: Raw, countdown: u8) -> bool
    requires { near.now.count ≤ 7 }
    ensures { Copied near.now.places near.now.count raw countdown result }
{
    for i in 0..near.count {
        if fits(place(&near.places, i), raw, countdown) {
            return true;
        }
    }
    false
}

// Where the frame is over, their countdowns fall by one, and those that were 0 go out. The others stand first, in their
// order, and what has gone out is zero.
pub fn fall(over: bool, near: &mut Nears)
    requires { near.old.count ≤ 7 }
    ensures { Fallen over near.old.places near.old.count near.new.count near.new.places }
{
    if !over {
        return;
    }
    let mut k = 0;
    for i in 0..near.count {
        let n = place(&near.places, i);
        put(&mut near.places, i, Near::default());
        if n.countdown != 0 {
            put(
                &mut near.places,
                k,
                Near {
                    raw: n.raw,
                    countdown: n.countdown - 1,
                },
            );
            k += 1;
        }
    }
    near.count = k;
}

// Puts the header of a report after them, where it is one more that copies can come of: in the slot next in turn, which
// is in a new frame where this one is over.
pub fn keep(more: bool, over: bool, x: Brought, near: &mut Nears)
    requires room { more ≡ true → near.old.count ≤ 6 }
    requires inside { near.old.count ≤ 7 }
    ensures { Kept more over x near.old.places near.old.count near.new.count near.new.places }
{
    if !more || (over && x.countdown == 0) {
        return;
    }
    let countdown = u64::from(if over { x.countdown - 1 } else { x.countdown });
    put(
        &mut near.places,
        near.count,
        Near {
            raw: x.raw,
            countdown,
        },
    );
    near.count += 1;
}
