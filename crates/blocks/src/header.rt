// SCH/H with its SCH/S: a header.
ghost use Rattle.std.specs.Prelude.{◌≡◌, ◌+◌, ◌*◌, ◌≤◌, ◌++◌, length, IfOk};
ghost use Rattle.bits.specs.Bits.{bits_of, Inside};
ghost use Rattle.blocks.specs.Faults.{number_of, refusal, first_of};
ghost use Rattle.blocks.specs.Sdu.{bits_of_message};
ghost use Rattle.blocks.specs.Sync.{sync_of, sync_checks};
ghost use Rattle.blocks.specs.Header.{address_width, address_at, tail_at, tail_rules, fields_with, shape, sdu_at};
ghost use Rattle.blocks.specs.Header.{body_of, message_of_header, body_checks, place_rules};
ghost use Rattle.blocks.specs.Header.{no_fields, refused_header, read_body, read_header, read_reported};

use crate::fault::Fault;
use crate::sdu::sdu_end;
use crate::sizes::{SchH, Width};
use crate::sync::{Checked, Sync, checked_blocks};
use crate::widths::NO_ENTRY;

// An address element: its type, and the SSI, 0 where it is absent.
// Kept: the type is a number in C too (`pierstrand.h`).
#[repr(C)]
#[derive(Clone, Copy, Default)]
pub struct Address {
    pub kind: u8,
    pub ssi: u32,
}

impl Address {
    // The type of an address element that is absent.
    pub const ABSENT: u8 = 2;

    // One more than the largest SSI.
    pub const END: u32 = 1 << Width::ADDRESS;

    // The bits of an address element that is there, with its type.
    const BITS: usize = Width::ADDRESS_TYPE + Width::ADDRESS;

    // Those of the SSI, as a mask.
    const SSI: u32 = Address::END - 1;
}

// What a message's header says of it: addresses, MNI, message type, and the dependent elements as one run of bits with
// its width.
// Kept: the width stands beside the elements in C too.
#[repr(C)]
#[derive(Clone, Copy, Default)]
pub struct Fields {
    pub destination: Address,
    pub source: Address,
    pub mni: u32,
    pub message: u8,
    pub width: u8,
    pub elements: u64,
}

// A header that was read; where it was refused, all but the fault is 0. `fragmented` is the flag, `count` the number of
// SCH/F slots, `first` the DM-SDU's first bit in SCH/H and `bits` the number of its message bits.
// Kept: C has this struct, with a number for the fault and for the flag.
#[repr(C)]
#[derive(Clone, Copy, Default)]
pub struct Header {
    pub fault: u8,
    pub sync: Sync,
    pub fragmented: u8,
    pub count: u8,
    pub countdown: u8,
    pub fields: Fields,
    pub first: usize,
    pub bits: usize,
}

// No fields: each is 0.
pub fn no_fields() -> Fields
    ensures { result ≡ no_fields }
{
    Fields::default()
}

fn refused(fault: Fault) -> Header
    ensures { result ≡ refused_header (number_of fault) }
{
    Header {
        fault: fault.number(),
        ..Header::default()
    }
}

// The bits of an address, by its type.
pub fn address_width(kind: u8) -> usize
    ensures { result ≡ address_width kind }
{
    if kind == Address::ABSENT {
        0
    } else {
        Width::ADDRESS
    }
}

// An address as it stands, and the bit after it. Kept: a block and a bit of it, here and below, as `bits` takes them.
#[derive(Clone, Copy)]
struct Addressed {
    address: Address,
    next: usize,
}

#[tactic(auto, using(crate::proofs::HeaderLaws::addresses))]
fn address_at(h: &[u8], at: usize) -> Addressed
    requires lent { at + 26 ≤ 8 * length h.now }
    requires near { at ≤ 4096 }
    ensures { result ≡ address_at at (bits_of h.now) }
{
    let element: u32 = bits::get(h, at, Address::BITS);
    // Kept: `as`, here and where else a number has become small; `try_from` has an error that cannot come.
    let kind = (element >> Width::ADDRESS) as u8;
    if kind == Address::ABSENT {
        return Addressed {
            address: Address { kind, ssi: 0 },
            next: at + Width::ADDRESS_TYPE,
        };
    }
    let ssi = element & Address::SSI;
    Addressed {
        address: Address { kind, ssi },
        next: at + Address::BITS,
    }
}

// The addressed tail of a PDU as it stands, before it is judged; `run` is the first bit of its message dependent
// elements and `first` the bit after them.
#[derive(Clone, Copy)]
pub(crate) struct Tail {
    destination: Address,
    source: Address,
    mni: u32,
    message: u8,
    run: usize,
    width: usize,
    first: usize,
}

// The tail that starts at bit `at` of a lent block.
#[tactic(auto, using(crate::proofs::HeaderLaws::tail_read, crate::proofs::HeaderLaws::next_le))]
pub(crate) fn tail_at(h: &[u8], at: usize) -> Tail
    requires lent { at + 104 ≤ 8 * length h.now }
    requires near { at ≤ 2048 }
    ensures { result ≡ tail_at at (bits_of h.now) }
{
    let d = address_at(h, at);
    let s = address_at(h, d.next);
    let mni = bits::get(h, s.next, Width::MNI);
    let message = bits::get(h, s.next + Width::MNI, Width::MESSAGE_TYPE);
    let run = s.next + Width::MNI + Width::MESSAGE_TYPE;
    let width = crate::widths::width_at(h, run, message);
    let destination = d.address;
    let source = s.address;
    Tail {
        destination,
        source,
        mni,
        message,
        run,
        width,
        first: run + width,
    }
}

// The first of the faults 8 and 9 that a tail gives in a block whose room ends before bit `end`.
pub(crate) fn tail_rules(t: Tail, end: usize) -> Result<(), Fault>
    ensures { refusal result ≡ first_of (tail_rules t.destination.kind t.source.kind t.width t.first end) }
{
    if 2 < t.destination.kind || 2 < t.source.kind {
        return Err(Fault::AddressType);
    }
    if usize::from(NO_ENTRY) <= t.width || end < t.first {
        return Err(Fault::MessageType);
    }
    Ok(())
}

// A tail's fields.
pub(crate) fn tail_fields(h: &[u8], t: Tail) -> Fields
    requires narrow { t.width ≤ 45 }
    requires inside { Inside (length h.now) t.run (t.run + t.width) }
    ensures { result ≡ fields_with t (bits_of h.now) }
{
    let elements = bits::get(h, t.run, t.width);
    let destination = t.destination;
    let source = t.source;
    Fields {
        destination,
        source,
        mni: t.mni,
        message: t.message,
        width: t.width as u8, // Kept: as in `address_at`
        elements,
    }
}

// The bits of those of SCH/H's elements that every header has.
const EVERY: usize = SchH::COUNT
    + Width::COUNTDOWN
    + 2 * Width::ADDRESS_TYPE
    + Width::MNI
    + Width::MESSAGE_TYPE;

// The bits of SCH/H's elements, up to the DM-SDU.
pub fn header_bits(fragmented: u8, to: u8, from: u8, width: u8) -> usize
    ensures { result ≡ sdu_at (shape fragmented to from width) }
{
    let d = address_width(to);
    let s = address_width(from);
    EVERY + Width::COUNT * usize::from(fragmented) + d + s + usize::from(width)
}

// SCH/H as it stands, before it is judged.
// Kept: flag and slot count as the block has them, for the definition `body_of` names both.
#[derive(Clone, Copy)]
struct Body {
    fill: u8,
    fragmented: u8,
    count: u8,
    countdown: u8,
    tail: Tail,
}

#[tactic(auto, using(crate::proofs::HeaderLaws::body_read))]
fn body_of(h: &[u8; SchH::BYTES]) -> Body
    ensures { result ≡ body_of (bits_of h.now) }
{
    let fill = bits::get(h, SchH::FILL, 1);
    let fragmented = bits::get(h, SchH::FRAGMENTED, 1);
    let counted = Width::COUNT * usize::from(fragmented);
    let count = bits::get(h, SchH::COUNT, counted);
    let at = SchH::COUNT + counted;
    let countdown = bits::get(h, at, Width::COUNTDOWN);
    let tail = tail_at(h, at + Width::COUNTDOWN);
    Body {
        fill,
        fragmented,
        count,
        countdown,
        tail,
    }
}

// Where the message ends in SCH/H, or the first of the faults from 10 on.
fn body_end(h: &[u8; SchH::BYTES], b: Body) -> Result<usize, Fault>
    requires { b ≡ body_of (bits_of h.now) }
    ensures faults { refusal result ≡ first_of (body_checks (bits_of h.now)) }
    ensures end { IfOk result (λ n. n ≡ b.tail.first + length (bits_of_message (message_of_header b (bits_of h.now)))) }
{
    if b.count < b.fragmented {
        return Err(Fault::Count);
    }
    tail_rules(b.tail, SchH::BITS)?;
    sdu_end(h, b.fill, b.tail.first, SchH::BITS)
}

// What follows SCH/S's part: the faults from 10 on, the fields and the DM-SDU.
#[tactic(auto, using(crate::proofs::ReadLaws::bodies))]
fn read_body(sync: Sync, h: &[u8; SchH::BYTES]) -> Header
    ensures { result ≡ read_body sync (bits_of h.now) }
{
    let b = body_of(h);
    match body_end(h, b) {
        Err(fault) => refused(fault),
        Ok(end) => Header {
            fault: 0,
            sync,
            fragmented: b.fragmented,
            count: b.count,
            countdown: b.countdown,
            fields: tail_fields(h, b.tail),
            first: b.tail.first,
            bits: end - b.tail.first,
        },
    }
}

// Reads a header from its two lent blocks; copies nothing.
#[tactic(auto, using(crate::proofs::ReadLaws::headers))]
pub fn read_header(s: &[u8], h: &[u8]) -> Header
    ensures { result ≡ read_header s.now h.now }
{
    match checked_blocks(s, h) {
        Ok(x) => read_body(x.sync, x.h),
        Err(fault) => refused(fault),
    }
}

// The same of a report's blocks: their frame and slot are to be the report's.
#[tactic(auto, using(crate::proofs::FaultLaws::chain_given, crate::proofs::FaultLaws::no_zero))]
fn reported<'a>(frame: u8, slot: u8, s: &[u8], h: &'a [u8]) -> Result<Checked<'a>, Fault>
    ensures faults { refusal result
        ≡ first_of (sync_checks s.now h.now ++ place_rules frame slot (sync_of (bits_of s.now))) }
    ensures sync { IfOk result (λ x. x.sync ≡ sync_of (bits_of s.now)) }
    ensures block { IfOk result (λ x. x.h.now ≡ h.now) }
{
    let x = checked_blocks(s, h)?;
    if x.sync.frame != frame || x.sync.slot + 1 != slot {
        return Err(Fault::Place);
    }
    Ok(x)
}

// Reads a header as a report brings it: the block's frame and slot are to be the report's.
#[tactic(auto, using(crate::proofs::ReadLaws::reports))]
pub fn read_reported(frame: u8, slot: u8, s: &[u8], h: &[u8]) -> Header
    ensures { result ≡ read_reported frame slot s.now h.now }
{
    match reported(frame, slot, s, h) {
        Ok(x) => read_body(x.sync, x.h),
        Err(fault) => refused(fault),
    }
}
