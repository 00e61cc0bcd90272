// The elements of a DM-SDU: how wide each is, and what stands in the first n of the lent bits.
ghost use Rattle.std.specs.Prelude.{◌≡◌, ◌+◌, ◌*◌, ◌≤◌, length, take};
ghost use Rattle.bits.specs.Bits.{bits_of};
ghost use Rattle.transport.specs.Kinds.{number};
ghost use Rattle.transport.specs.Layouts.{ack_of, forward_width};
ghost use Rattle.transport.specs.Runs.{cut, run_in, front_of, fixed_at, stored_at};

use crate::kinds::Kind;
use bits::{Number, least};

// 1 for DM-SDS ACK.
pub(crate) fn ack_of(carrier: u8) -> usize
    ensures { result ≡ ack_of carrier }
{
    usize::from(carrier == 24)
}

// The bits of a forward address, by its type.
pub(crate) fn forward_width(forward: u8) -> usize
    ensures { result ≡ forward_width forward }
{
    match forward {
        1 => 24,
        2 => 48,
        _ => 0,
    }
}

// The `w` bits from bit `at` on as one number; those that are not among the first `n` are 0.
// Kept: `n` beside the bytes, here and in `build`: it counts bits, and the last byte may be lent in part.
pub(crate) fn run(s: &[u8], n: usize, at: usize, w: usize) -> u64
    requires { (n ≤ 8 * length s.now) × (at ≤ 256) × (w ≤ 56) }
    ensures { result ≡ run_in at w (take n (bits_of s.now)) }
{
    if n < at {
        return 0;
    }
    let m = least(n - at, w);
    bits::get::<u64>(s, at, m) << (w - m)
}

// The `w` bits of a run that `after` bits follow.
pub(crate) fn part<T: Number>(x: u64, after: usize, w: usize) -> T
    requires { (after ≤ 63) × (w ≤ T.most) }
    ensures { T.value result ≡ cut after w x }
{
    T::narrowed((x >> after) & ((1 << w) - 1))
}

// What stands before the short data type identifier, which begins at `next`.
// Kept: flag and address type as they stand, for the definition `front_of` names both.
#[derive(Clone, Copy)]
pub(crate) struct Front {
    pub acknowledged: u8,
    pub addressed: u8,
    pub kind: u8,
    pub mni: u32,
    pub ssi: u32,
    pub next: usize,
}

// Of x, the first 53 bits.
pub(crate) fn front_of(x: u64, ack: usize) -> Front
    ensures { (result ≡ front_of ack x) × (result.next ≤ 53) }
{
    if ack == 1 {
        return Front {
            acknowledged: part(x, 49, 4),
            addressed: 0,
            kind: 0,
            mni: 0,
            ssi: 0,
            next: 4,
        };
    }
    if part::<u8>(x, 52, 1) == 0 {
        return Front {
            acknowledged: 0,
            addressed: 0,
            kind: 0,
            mni: 0,
            ssi: 0,
            next: 1,
        };
    }
    Front {
        acknowledged: 0,
        addressed: 1,
        kind: part(x, 48, 4),
        mni: part(x, 24, 24),
        ssi: part(x, 0, 24),
        next: 53,
    }
}

// The elements that a message of this kind always has; `from` is where user defined data 4 or the status begins, `next`
// the bit after the message reference.
#[derive(Clone, Copy, Default)]
pub(crate) struct Fixed {
    pub length: usize,
    pub from: usize,
    pub protocol: u8,
    pub request: u8,
    pub short: u8,
    pub required: u8,
    pub storage: u8,
    pub status: u8,
    pub reference: u8,
    pub next: usize,
}

// The length indicator.
pub(crate) fn length_in(x: u64) -> usize
    ensures { (result ≡ cut 32 11 x) × (result ≤ 2047) }
{
    part::<u64>(x, 32, 11) as usize
}

// The storage flag.
fn storage_in(x: u64) -> u8
    ensures { (result ≡ cut 16 1 x) × (result ≤ 1) }
{
    part(x, 16, 1)
}

// Of x, the 47 bits from the short data type identifier on, which begins at bit `at`.
#[tactic(auto, unfolding(crate::specs::Runs::fixed_at))]
pub(crate) fn fixed_at(at: usize, kind: Kind, x: u64) -> Fixed
    requires { at ≤ 53 }
    ensures { (result ≡ fixed_at at (number kind) x)
        × (result.storage ≤ 1) × (result.length ≤ 2047) × (result.from ≤ at + 15) × (result.next ≤ at + 47) }
{
    let fixed = Fixed {
        length: length_in(x),
        from: at + 15,
        protocol: part(x, 24, 8),
        request: 0,
        short: 0,
        required: 0,
        storage: storage_in(x),
        status: part(x, 8, 8),
        reference: part(x, 0, 8),
        next: at + 47,
    };
    match kind {
        Kind::Transfer => Fixed {
            request: part(x, 18, 2),
            short: part(x, 17, 1),
            status: 0,
            reference: part(x, 8, 8),
            next: at + 39,
            ..fixed
        },
        Kind::Report => Fixed {
            required: part(x, 19, 1),
            ..fixed
        },
        Kind::Ack => Fixed {
            storage: 0,
            ..fixed
        },
        Kind::Short => Fixed {
            from: at + 4,
            status: part(x, 35, 2),
            reference: part(x, 27, 8),
            next: at + 20,
            ..Fixed::default()
        },
    }
}

// The elements that hang on storage, from bit `at` on; `address` is preceded by its type, which ends at `typed`.
#[derive(Clone, Copy)]
pub(crate) struct Stored {
    pub validity: u8,
    pub forward: u8,
    pub address: u64,
    pub typed: usize,
    pub next: usize,
}

pub(crate) fn stored_at(s: &[u8], n: usize, at: usize, storage: u8) -> Stored
    requires { (n ≤ 8 * length s.now) × (at ≤ 256) }
    ensures { (result ≡ stored_at at storage (take n (bits_of s.now))) × (result.next ≤ at + 56) }
{
    if storage == 0 {
        return Stored {
            validity: 0,
            forward: 0,
            address: 0,
            typed: at,
            next: at,
        };
    }
    let x = run(s, n, at, 56);
    let forward: u8 = part(x, 48, 3);
    let w = forward_width(forward);
    Stored {
        validity: part(x, 51, 5),
        forward,
        address: part(x, 48 - w, w),
        typed: at + 8,
        next: at + 8 + w,
    }
}
