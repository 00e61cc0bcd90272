// The index of the last 32 booked pairs of source address and message reference.
#![tactic(auto)]

ghost use Rattle.std.specs.Prelude.{◌≡◌, ◌+◌, ◌*◌, ◌<◌, ◌≤◌, ◌^◌};
ghost use Rattle.history.specs.Line.{start};
ghost use Rattle.bookings.specs.Kept.{bookings_at, Reached, entered, entered_in};
ghost use Rattle.bookings.specs.Book.{lent, reading_of, number_of, booked_reply, Books};

use blocks::fault::Fault;
use blocks::header::{Address, Fields};
use transport::Transport;

// The last 32 booked, newest first: how many there are, and each pair as source * 256 + reference. What is not there is
// zero.
// Kept: a count beside an array, and below a number for the mark, as pierstrand.h shows them.
#[repr(C)]
#[derive(Clone, Copy)]
pub struct Bookings {
    pub count: usize,
    pub pairs: [u32; 32],
}

// The answer: the mark, 0 where there is nothing to book, 1 booked, 2 again; and what was read, with the fault.
#[repr(C)]
#[derive(Clone, Copy)]
pub struct Booked {
    pub mark: u8,
    pub transport: Transport,
}

// The record after a call, and the answer.
#[derive(Clone, Copy)]
pub struct Reply {
    pub bookings: Bookings,
    pub booked: Booked,
}

// A call's mark, by its number.
#[derive(Clone, Copy)]
enum Mark {
    Nothing = 0,
    New = 1,
    Again = 2,
}

impl Mark {
    // Its number, as answers have it.
    fn number(self) -> u8
        ensures { result ≡ number_of self }
    {
        self as u8
    }
}

// What a call reads: a source of 2^24 or more is refused with 13.
// Kept: its fault is a number beside the message, as the C interface has the answer, `Booked.transport`.
fn reading(fields: Fields, n: usize, sdu: &[u8]) -> Transport
    ensures { result ≡ reading_of (lent fields n sdu.now) }
{
    if fields.source.ssi < Address::END {
        return transport::read(fields, n, sdu);
    }
    transport::refused(Fault::Range.number())
}

impl Bookings {
    // None are booked. Kept: two zeros by name, as `bookings_at start` has them.
    pub fn fresh() -> Bookings
        ensures { (result ≡ bookings_at start) × Reached result }
    {
        Bookings {
            count: 0,
            pairs: [0; 32],
        }
    }

    // Enters a transfer's pair, unless it is there: in front, and the oldest goes out.
    // Kept: the others are copied into an array of its own: to move them within the lent one would take `memmove`, and
    // the library for C needs `memcpy` and `memset` alone.
    fn enter(&mut self, source: u32, reference: u8) -> Mark
        requires { (self.old.count ≤ 32) × (source < 2 ^ 24) }
        ensures { entered self.new (number_of result) ≡ entered_in self.old (source * 256 + reference) }
    {
        let pair = source * 256 + u32::from(reference);
        if self.pairs[..self.count].contains(&pair) {
            return Mark::Again;
        }
        let mut pairs = [pair; 32];
        pairs[1..].copy_from_slice(&self.pairs[..31]);
        self.pairs = pairs;
        self.count = usize::min(self.count + 1, 32);
        Mark::New
    }

    // Reads a DM-SDU, n bits of it, and books it where the record stands if it is a transfer whose pair is not there. A
    // refused message and one that is no transfer leave the record as it was. Asks for a record that `fresh` or an
    // earlier call gave, and leaves such a one.
    pub fn book_in_place(&mut self, fields: Fields, n: usize, sdu: &[u8]) -> Booked
        requires { Reached self.old }
        ensures { Reached self.new
            × Books self.old (lent fields n sdu.now) (booked_reply self.new result) }
    {
        let transport = reading(fields, n, sdu);
        // Kept: 1 is a transfer's number in the struct for C; the enum of kinds is `transport`'s own.
        if transport.fault != 0 || transport.message.kind != 1 {
            return Booked {
                mark: Mark::Nothing.number(),
                transport,
            };
        }
        let mark = self.enter(fields.source.ssi, transport.message.reference);
        Booked {
            mark: mark.number(),
            transport,
        }
    }

    // The same of a record that is handed in, and the record afterwards. Asks for a record that `fresh` or an earlier
    // `book` gave, and gives such a one.
    pub fn book(mut self, fields: Fields, n: usize, sdu: &[u8]) -> Reply
        requires { Reached self }
        ensures { Reached result.bookings × Books self (lent fields n sdu.now) result }
    {
        let booked = self.book_in_place(fields, n, sdu);
        Reply {
            bookings: self,
            booked,
        }
    }
}
