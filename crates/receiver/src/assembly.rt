// An assembly: what is kept of the open run, and its bits in a store.
ghost use Rattle.std.specs.Prelude.{◌≡◌, cond, [], ◌+◌, ◌≤◌, length};
ghost use Rattle.bits.specs.Bits.{Inside};
ghost use Rattle.store.specs.Store.{store_of};
ghost use Rattle.history.specs.Step.{clears};
ghost use Rattle.receiver.specs.View.{empty_assembly, brought_bits, Counted, Stored};

use crate::either;
use history::{Act, Open};
use reports::read::Brought;
use reports::run::{clears, joins, no_run};

// What is kept of the open run, the number of bits joined, and the store that holds them.
// Kept: a number beside an array, as pierstrand.h shows them.
#[repr(C)]
#[derive(Clone, Copy)]
pub struct Assembly {
    pub run: Open,
    pub bits: usize,
    pub store: [u8; 512],
}

impl Assembly {
    // One that is not there.
    // Kept: written out, since an array of 512 has no `Default`.
    pub(crate) fn none() -> Assembly
        ensures { result ≡ empty_assembly }
    {
        Assembly {
            run: no_run(),
            bits: 0,
            store: [0; 512],
        }
    }
}

// Makes a store hold nothing where what it held is gone.
pub(crate) fn clear(gone: bool, store: &mut [u8; 512])
    ensures { store.new ≡ cond gone (store_of []) store.old }
{
    if gone {
        store::wipe(store);
    }
}

// What an act leaves of the number of the bits that are joined, before those that the report brings.
fn start(act: Act, at: usize) -> usize
    ensures { result ≡ cond (clears act) 0 at }
{
    either(clears(act), 0, at)
}

// What becomes of it where `at` bits are joined and the report brings more.
pub(crate) fn bits_after(act: Act, at: usize, n: usize) -> usize
    requires { at + n ≤ 4096 }
    ensures { Counted act at n result }
{
    start(act, at) + either(joins(act), n, 0)
}

// And of the store.
pub(crate) fn store_after(act: Act, store: &mut [u8; 512], at: usize, x: Brought, blocks: &[u8])
    requires room { at + x.bits ≤ 4096 }
    requires inside { Inside (length blocks.now) x.from (x.from + x.bits) }
    ensures { Stored act at (brought_bits x blocks.now) store.old store.new }
{
    clear(clears(act), store);
    if joins(act) {
        store::join(store, start(act, at), blocks, x.from, x.bits);
    }
}
