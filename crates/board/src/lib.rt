// The board's library: each public call under a name for C (include/pierstrand.h). What a call promises is what the
// Rattle function that it calls promises.
// Kept: the arguments are those of the C interface, one by one.
#![tactic(auto)]

ghost use Rattle.std.specs.Prelude.{◌≡◌, length};
ghost use Rattle.blocks.specs.Continuation.{read_continuation};
ghost use Rattle.blocks.specs.Header.{read_header};
ghost use Rattle.blocks.specs.Slots.{due_of};
ghost use Rattle.build.specs.Build.{build_of, out_of};
ghost use Rattle.reader.specs.Reading.{taken_at, skipped_at, left_of};
ghost use Rattle.reports.specs.Lent.{lent};
ghost use Rattle.receiver.specs.View.{fresh_of, replied};
ghost use Rattle.receiver.specs.Reached.{Reached, Hears};
ghost use Rattle.transport.specs.Reading.{read_of};
ghost use Rattle.transport.specs.Building.{sdu_of, out_of as sdu_in};
ghost use Rattle.bookings.specs.Kept.{bookings_at, Reached as IndexReached};
ghost use Rattle.bookings.specs.Book.{lent as lentSdu, booked_reply, Books};
ghost use Rattle.history.specs.Line.{start};

use blocks::continuation::Continuation;
use blocks::header::{Fields, Header};
use blocks::slots::Due;
use blocks::sync::Sync;
use bookings::{Booked, Bookings};
use build::Built;
use reader::Step;
use receiver::answer::Answer;
use receiver::{Fresh, Receiver};
use transport::{Message, Sdu, Transport};

// A fresh receiver, or the fault of its settings: `Receiver::fresh`.
#[unsafe(no_mangle)]
pub extern "C" fn pierstrand_make_receiver(individual: u32, group: u32, mni: u32) -> Fresh
    ensures { (result ≡ fresh_of individual group mni) × Reached result.receiver }
{
    Receiver::fresh(individual, group, mni)
}

// Hears a slot report in the receiver where it stands: `Receiver::hear_in_place`.
#[unsafe(no_mangle)]
pub extern "C" fn pierstrand_hear(
    r: &mut Receiver,
    frame: u8,
    slot: u8,
    kind: u8,
    blocks: &[u8],
    message: &mut [u8],
) -> Answer
    requires { Reached r.old }
    ensures { Reached r.new
        × Hears r.old (lent frame slot kind blocks.now) (replied r.new result)
        message.old message.new }
{
    r.hear_in_place(frame, slot, kind, blocks, message)
}

// Builds the blocks of the first `n` bits of a message: `build::build`.
#[unsafe(no_mangle)]
pub extern "C" fn pierstrand_build_blocks(
    sync: Sync,
    countdown: u8,
    fields: Fields,
    n: usize,
    message: &[u8],
    out: &mut [u8],
) -> Built
    ensures { (result ≡ build_of sync countdown fields n (length message.now) (length out.old))
        × (out.new ≡ out_of sync countdown fields n message.now out.old) }
{
    build::build(sync, countdown, fields, n, message, out)
}

// Reads a header from its SCH/S and SCH/H: `read_header`.
#[unsafe(no_mangle)]
pub extern "C" fn pierstrand_read_header(s: &[u8], h: &[u8]) -> Header
    ensures { result ≡ read_header s.now h.now }
{
    blocks::header::read_header(s, h)
}

// Reads a continuation block from its SCH/F: `read_continuation`.
#[unsafe(no_mangle)]
pub extern "C" fn pierstrand_read_continuation(s: &[u8]) -> Continuation
    ensures { result ≡ read_continuation s.now }
{
    blocks::continuation::read_continuation(s)
}

// The frame of block `i` of a message whose header stands in frame `x` with countdown `f`: `due_frame`.
#[unsafe(no_mangle)]
pub extern "C" fn pierstrand_find_due_frame(x: u8, f: u8, i: u8) -> Due
    ensures { result ≡ due_of x f i }
{
    blocks::slots::due_frame(x, f, i)
}

// Reads an SDS-TL message from the first `n` bits of a DM-SDU: `transport::read`.
#[unsafe(no_mangle)]
pub extern "C" fn pierstrand_read_transport(fields: Fields, n: usize, sdu: &[u8]) -> Transport
    ensures { result ≡ read_of fields.message fields.elements n sdu.now }
{
    transport::read(fields, n, sdu)
}

// Builds the DM-SDU of an SDS-TL message with `n` bits of user data: `transport::build`.
#[unsafe(no_mangle)]
pub extern "C" fn pierstrand_build_transport(
    carrier: u8,
    fcs: u8,
    message: Message,
    n: usize,
    user: &[u8],
    out: &mut [u8],
) -> Sdu
    ensures { (result ≡ sdu_of carrier fcs message n (length user.now) (length out.old))
        × (out.new ≡ sdu_in carrier fcs message n user.now out.old) }
{
    transport::build(carrier, fcs, message, n, user, out)
}

// An index in which nothing is booked: `Bookings::fresh`.
#[unsafe(no_mangle)]
pub extern "C" fn pierstrand_make_bookings() -> Bookings
    ensures { (result ≡ bookings_at start) × IndexReached result }
{
    Bookings::fresh()
}

// Books a message in the index where it stands: `Bookings::book_in_place`.
#[unsafe(no_mangle)]
pub extern "C" fn pierstrand_book(b: &mut Bookings, fields: Fields, n: usize, sdu: &[u8]) -> Booked
    requires { IndexReached b.old }
    ensures { IndexReached b.new
        × Books b.old (lentSdu fields n sdu.now) (booked_reply b.new result) }
{
    b.book_in_place(fields, n, sdu)
}

// Takes the `w` bits from bit `at` on as a number: `reader::take_at`.
#[unsafe(no_mangle)]
pub extern "C" fn pierstrand_take_bits(s: &[u8], at: usize, w: usize) -> Step
    ensures { result ≡ taken_at s.now at w }
{
    reader::take_at(s, at, w)
}

// Goes past the `n` bits from bit `at` on: `reader::skip_at`.
#[unsafe(no_mangle)]
pub extern "C" fn pierstrand_skip_bits(s: &[u8], at: usize, n: usize) -> Step
    ensures { result ≡ skipped_at s.now at n }
{
    reader::skip_at(s, at, n)
}

// How many bits are left from bit `at` on: `reader::left_at`.
#[unsafe(no_mangle)]
pub extern "C" fn pierstrand_count_left(s: &[u8], at: usize) -> usize
    ensures { result ≡ left_of s.now at }
{
    reader::left_at(s, at)
}
