// Building a message: SCH/S, SCH/H and the continuation blocks, one after another.
#![tactic(auto)]

ghost use Rattle.std.specs.Prelude.{◌≡◌, cond, ◌+◌, ◌*◌, ◌≤◌, ltb, length, take, drop};
ghost use Rattle.bits.specs.Bits.{bits_of, over, Inside};
ghost use Rattle.bits.specs.Layout.{AllFit, pack};
ghost use Rattle.blocks.specs.Sync.{sync_parts};
ghost use Rattle.blocks.specs.Header.{shape, header_layout};
ghost use Rattle.build.specs.Build.{HeaderFits, room_bits, header_block, continuation_block, continuation_blocks};
ghost use Rattle.build.specs.Build.{answered, build_of, out_of};

use bits::least;
use blocks::fault::Fault;
use blocks::header::{Fields, address_width, header_bits};
use blocks::sizes::{PAD, SchF, SchH, SchS, Width};
use blocks::sync::Sync;

mod plan;

use plan::{Plan, planned};

// What a build answers: its fault, or the number of continuation blocks.
// Kept: a fault beside a count, as the C interface has it.
#[repr(C)]
#[derive(Clone, Copy)]
pub struct Built {
    pub fault: u8,
    pub blocks: u8,
}

// Puts `count` bits of the message, from bit `from` on, into the room of so many bits at bit `at`, fills the room, and
// writes the pad bits after it.
fn put_room(message: &[u8], from: usize, count: usize, out: &mut [u8], at: usize, room: usize)
    requires lent { Inside (length message.now) from (from + count) }
    requires inside { Inside (length out.old) at (at + room + 4) }
    requires fits { count ≤ room }
    ensures { bits_of out.new
        ≡ over at (room_bits room (take count (drop from (bits_of message.now))))
        (bits_of out.old) }
{
    bits::copy(message, from, out, at, count);
    bits::fill(out, at + count, at + room);
    bits::put(out, at + room, PAD, 0);
}

// The fill indication: 1 where the bits are fewer than the room takes.
fn told(count: usize, room: usize) -> u64
    ensures { result ≡ cond (ltb count room) 1 0 }
{
    u64::from(count < room)
}

// The widths of a continuation block's elements, in order.
// Kept: `as` in this table and the others, since a constant calls no function.
const CONTINUATION: [u8; 3] = [
    Width::PDU_TYPE as u8,
    1, // subtype
    1, // fill
];

// A continuation block at bit `at`, a DMAC-END where it is the last and otherwise a DMAC-FRAG, with `count` bits of the
// message.
fn put_block(last: bool, message: &[u8], from: usize, count: usize, out: &mut [u8], at: usize)
    requires lent { Inside (length message.now) from (from + count) }
    requires inside { Inside (length out.old) at (at + 272) }
    requires fits { count ≤ 264 }
    ensures { bits_of out.new
        ≡ over at (continuation_block (cond last 1 0) (take count (drop from (bits_of message.now))))
        (bits_of out.old) }
{
    let values: [u64; 3] = [1, u64::from(last), told(count, SchF::ROOM)];
    bits::put_all(out, at, &CONTINUATION, &values);
    put_room(message, from, count, out, at + SchF::FIRST, SchF::ROOM);
}

// The output's bits before the continuation blocks.
const HEADER: usize = SchS::LENT + SchH::LENT;

// The continuation blocks of the message's bits from bit `inside` up to bit `n`, after the header.
fn put_blocks(message: &[u8], inside: usize, n: usize, blocks: u8, out: &mut [u8])
    requires bits { inside ≤ n }
    requires lent { Inside (length message.now) 0 n }
    requires count { blocks ≤ 15 }
    requires room { 24 + 34 * blocks ≤ length out.old }
    ensures { bits_of out.new
        ≡ over 192 (continuation_blocks blocks (drop inside (take n (bits_of message.now))))
        (bits_of out.old) }
{
    let blocks = usize::from(blocks);
    let mut from = inside;
    for i in 0..blocks {
        let count = least(n - from, SchF::ROOM);
        put_block(
            i + 1 == blocks,
            message,
            from,
            count,
            out,
            HEADER + SchF::LENT * i,
        );
        from += count;
    }
}

// The widths of SCH/S's elements, in order.
const SYNC: [u8; 10] = [
    Width::SYSTEM as u8,
    Width::SYNC_TYPE as u8,
    Width::COMMUNICATION as u8,
    2, // reserved
    Width::USAGE as u8,
    Width::SLOT as u8,
    Width::FRAME as u8,
    Width::ENCRYPTION as u8,
    39, // reserved
    PAD as u8,
];

// SCH/S, from bit 0 on.
fn put_sync(sync: Sync, out: &mut [u8])
    requires fits { AllFit (sync_parts sync) }
    requires room { 8 ≤ length out.old }
    ensures { bits_of out.new ≡ over 0 (pack (sync_parts sync)) (bits_of out.old) }
{
    let values: [u64; 10] = [
        u64::from(sync.system),
        0,
        0,
        0,
        u64::from(sync.usage),
        u64::from(sync.slot),
        u64::from(sync.frame),
        0,
        0,
        0,
    ];
    bits::put_all(out, 0, &SYNC, &values);
}

// The widths of SCH/H's elements that building names, as they are listed.
const COUNT: u8 = Width::COUNT as u8;

const COUNTDOWN: u8 = Width::COUNTDOWN as u8;

const ADDRESS_TYPE: u8 = Width::ADDRESS_TYPE as u8;

const MNI: u8 = Width::MNI as u8;

const MESSAGE_TYPE: u8 = Width::MESSAGE_TYPE as u8;

// The widths of SCH/H's elements, in order.
fn header_widths(fragmented: u8, to: u8, from: u8, width: u8) -> [u8; 12]
    requires { fragmented ≤ 1 }
    ensures { result ≡ header_layout (shape fragmented to from width) }
{
    let d = address_width(to) as u8;
    let s = address_width(from) as u8;
    [
        10, // reserved
        1, // fill
        1, // fragmented
        COUNT * fragmented,
        COUNTDOWN,
        ADDRESS_TYPE,
        d,
        ADDRESS_TYPE,
        s,
        MNI,
        MESSAGE_TYPE,
        width,
    ]
}

// SCH/H, after SCH/S, with the message bits that the plan puts into it.
fn put_header(plan: Plan, countdown: u8, fields: Fields, message: &[u8], out: &mut [u8])
    requires fits { HeaderFits (cond plan.fragmented 1 0) plan.blocks countdown fields plan.inside }
    requires lent { Inside (length message.now) 0 plan.inside }
    requires room { 24 ≤ length out.old }
    ensures { bits_of out.new
        ≡ over 64 (header_block (cond plan.fragmented 1 0) plan.blocks countdown fields
        (take plan.inside (bits_of message.now)))
        (bits_of out.old) }
{
    let d = fields.destination;
    let s = fields.source;
    let fragmented = u8::from(plan.fragmented);
    let widths = header_widths(fragmented, d.kind, s.kind, fields.width);
    let first = header_bits(fragmented, d.kind, s.kind, fields.width);
    let room = SchH::BITS - first;
    let values: [u64; 12] = [
        0,
        told(plan.inside, room),
        u64::from(fragmented),
        u64::from(plan.blocks),
        u64::from(countdown),
        u64::from(d.kind),
        u64::from(d.ssi),
        u64::from(s.kind),
        u64::from(s.ssi),
        u64::from(fields.mni),
        u64::from(fields.message),
        fields.elements,
    ];
    bits::put_all(out, SchS::LENT, &widths, &values);
    put_room(message, 0, plan.inside, out, SchS::LENT + first, room);
}

// The blocks of the first `n` bits of a message at the output's start, and the number of the continuation blocks;
// refused, it writes nothing.
fn put_message(
    sync: Sync,
    countdown: u8,
    fields: Fields,
    n: usize,
    message: &[u8],
    out: &mut [u8],
) -> Result<u8, Fault>
    ensures answer { answered result ≡ build_of sync countdown fields n (length message.now) (length out.old) }
    ensures output { out.new ≡ out_of sync countdown fields n message.now out.old }
{
    let plan = planned(sync, countdown, fields, n, message.len(), out.len())?;
    put_sync(sync, out);
    put_header(plan, countdown, fields, message, out);
    put_blocks(message, plan.inside, n, plan.blocks, out);
    Ok(plan.blocks)
}

// Builds the blocks of the first `n` bits of a message at the output's start; refused, it writes nothing.
// Kept: six arguments, as C hands them over; so in `planned`.
pub fn build(
    sync: Sync,
    countdown: u8,
    fields: Fields,
    n: usize,
    message: &[u8],
    out: &mut [u8],
) -> Built
    ensures { (result ≡ build_of sync countdown fields n (length message.now) (length out.old))
        × (out.new ≡ out_of sync countdown fields n message.now out.old) }
{
    match put_message(sync, countdown, fields, n, message, out) {
        Ok(blocks) => Built { fault: 0, blocks },
        Err(fault) => Built {
            fault: fault.number(),
            blocks: 0,
        },
    }
}
