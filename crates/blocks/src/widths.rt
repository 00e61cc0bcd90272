// The table of widths: the message dependent elements of all 32 message types.
ghost use Rattle.std.specs.Prelude.{◌≡◌, ◌+◌, ◌*◌, ◌≤◌, length, drop};
ghost use Rattle.bits.specs.Bits.{bits_of, field, Inside};
ghost use Rattle.blocks.specs.Widths.{fixed, flagged, flagged_twice, entry_of, added, width_of, run_fits};

// A flag: its place among a message's elements, and the bits that an element adds which hangs on it.
#[derive(Clone, Copy)]
pub struct Flag {
    pub place: u8,
    pub adds: u8,
}

// The width of a message's elements with no flag set, and two flags; one that adds nothing counts as none. The second's
// place is counted without what the first adds.
#[derive(Clone, Copy)]
pub struct Entry {
    pub width: u8,
    pub first: Flag,
    pub second: Flag,
}

// The width that marks a code without an entry. Kept: theorems speak of `entry_of` and of this width.
pub const NO_ENTRY: u8 = 255;

// Elements of one width.
fn fixed(width: u8) -> Entry
    ensures { result ≡ fixed width }
{
    flagged(width, 0, 0)
}

// An element that hangs on a flag.
fn flagged(width: u8, place: u8, adds: u8) -> Entry
    ensures { result ≡ flagged width place adds }
{
    flagged_twice(width, place, adds, 0, 0)
}

// Two such.
fn flagged_twice(width: u8, place: u8, adds: u8, place2: u8, adds2: u8) -> Entry
    ensures { result ≡ flagged_twice width place adds place2 adds2 }
{
    Entry {
        width,
        first: Flag { place, adds },
        second: Flag {
            place: place2,
            adds: adds2,
        },
    }
}

// The entry of a message type (9.3.19), as 9.4 and 9.5 have its elements.
// Kept: the type is a number, as C gives it and theorems name it.
#[tactic(auto, unfolding(crate::specs::Widths::entry_of))]
pub fn entry_of(message: u8) -> Entry
    ensures { result ≡ entry_of message }
{
    match message {
        0 => flagged(18, 8, 8), // DM-RESERVED, 9.4.1: requests flag, requests bitmap
        1 => fixed(7), // DM-SDS OCCUPIED, 9.4.2
        2 => fixed(12), // DM-TIMING REQUEST, 9.4.3
        3 => flagged(2, 1, 12), // DM-TIMING ACK, 9.4.4: timing change announced, timing adjustment
        // 4 to 7 are reserved.
        8 => fixed(21), // DM-SETUP, 9.5.1
        9 => fixed(21), // DM-SETUP PRES, 9.5.2
        10 => fixed(8), // DM-CONNECT, 9.5.3
        11 => fixed(0), // DM-DISCONNECT, 9.5.4
        12 => fixed(21), // DM-CONNECT ACK, 9.5.5
        13 => fixed(21), // DM-OCCUPIED, 9.5.6
        14 => fixed(0), // DM-RELEASE, 9.5.7
        15 => flagged_twice(13, 7, 8, 10, 12), // DM-TX CEASED, 9.5.8: requests flag, bitmap; timing change, adjustment
        16 => flagged(3, 0, 12), // DM-TX REQUEST, 9.5.9: timing change required, timing adjustment
        17 => flagged(1, 0, 12), // DM-TX ACCEPT, 9.5.10: timing change announced, timing adjustment
        18 => flagged(10, 2, 12), // DM-PREEMPT, 9.5.11: timing change required, timing adjustment
        19 => flagged(6, 0, 12), // DM-PRE ACCEPT, 9.5.12: timing change announced, timing adjustment
        20 => fixed(0), // DM-REJECT, 9.5.13
        21 => fixed(0), // DM-INFO, 9.5.14
        22 => fixed(8), // DM-SDS UDATA, 9.5.15
        23 => fixed(8), // DM-SDS DATA, 9.5.16
        24 => fixed(1), // DM-SDS ACK, 9.5.17
        // 25 is for gateway-specific messages, 26 to 29 are reserved, 30 and 31 proprietary.
        _ => fixed(NO_ENTRY),
    }
}

// What a flag adds, whose place is counted from bit `at`.
fn added_by(s: &[u8], at: usize, flag: Flag) -> usize
    requires { Inside (length s.now) (at + flag.place) (at + flag.place + 1) }
    ensures added { result ≡ added (field (at + flag.place) 1 (bits_of s.now)) flag.adds }
    ensures few { result ≤ flag.adds }
{
    if bits::get::<u8>(s, at + usize::from(flag.place), 1) == 1 {
        usize::from(flag.adds)
    } else {
        0
    }
}

// The width of a message's elements that start at bit `at`: its flags name the case.
#[tactic(auto, using(crate::proofs::WidthLaws::width_read))]
pub(crate) fn width_at(s: &[u8], at: usize, message: u8) -> usize
    requires lent { at + 23 ≤ 8 * length s.now }
    requires near { at ≤ 4096 }
    ensures { result ≡ width_of (entry_of message) (drop at (bits_of s.now)) }
{
    let e = entry_of(message);
    let first = added_by(s, at, e.first);
    let second = added_by(s, at + first, e.second);
    usize::from(e.width) + first + second
}

// No entry's elements have more bits: at most 21, and at most 24 that hang on flags.
const WIDEST: usize = 45;

// Whether a run of elements is one that the table has for this message type; one without entry is not tested.
#[tactic(auto, using(crate::proofs::RunLaws::runs))]
pub fn run_fits(message: u8, width: u8, elements: u64) -> bool
    ensures { result ≡ run_fits message width elements }
{
    if NO_ENTRY <= entry_of(message).width {
        return true;
    }
    let w = usize::from(width);
    if WIDEST < w {
        return false;
    }
    if elements >> w != 0 {
        return false;
    }
    let mut run = [0u8; 8];
    bits::put(&mut run, 0, w, elements);
    width_at(&run, 0, message) == w
}
