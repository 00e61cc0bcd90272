// SDS-TL messages in direct mode: the four messages of EN 300 392-2, 29.4.2, inside the DM-SDU elements of
// EN 300 396-3, 9.7.
#![tactic(auto)]

mod building;
mod elements;
mod kinds;
mod reading;

ghost use Rattle.std.specs.Prelude.{◌≡◌, length};
ghost use Rattle.transport.specs.Building.{sdu_of, out_of};
ghost use Rattle.transport.specs.Reading.{refused_transport, read_of};

use blocks::fault::Fault;
use blocks::header::Fields;

// An SDS-TL message's elements; one that the message does not have is 0. `kind` is 1 SDS-TRANSFER, 2 SDS-REPORT, 3
// SDS-ACK, 4 SDS-SHORT REPORT. `addressed` is 1 where the calling party's `mni` and `ssi` stand in the DM-SDU. `status`
// is the delivery status, of a short report its type. `address` is the forward address as one number: SSI, or SSI times
// 2^24 and the extension.
// Kept: numbers for kind and flags, as pierstrand.h shows them; so a fault beside the others in the structs below.
#[repr(C)]
#[derive(Clone, Copy, Default)]
pub struct Message {
    pub kind: u8,
    pub addressed: u8,
    pub mni: u32,
    pub ssi: u32,
    pub protocol: u8,
    pub request: u8,
    pub short: u8,
    pub required: u8,
    pub storage: u8,
    pub status: u8,
    pub reference: u8,
    pub validity: u8,
    pub forward: u8,
    pub address: u64,
}

// A DM-SDU that was read; where it was refused, all but the fault is 0. `first` is the first bit of the user data and
// `bits` their number.
#[repr(C)]
#[derive(Clone, Copy)]
pub struct Transport {
    pub fault: u8,
    pub message: Message,
    pub first: usize,
    pub bits: usize,
}

// What a build answers: its fault, or the DM-SDU's number of bits.
#[repr(C)]
#[derive(Clone, Copy)]
pub struct Sdu {
    pub fault: u8,
    pub bits: usize,
}

// A refusal: the number, and 0 for everything else.
// Kept: it takes a number; `Fault` would ask more of callers.
pub fn refused(fault: u8) -> Transport
    ensures { result ≡ refused_transport fault }
{
    Transport {
        fault,
        message: Message::default(),
        first: 0,
        bits: 0,
    }
}

// Reads the first `n` bits of a lent DM-SDU that came with these fields; copies nothing.
pub fn read(fields: Fields, n: usize, sdu: &[u8]) -> Transport
    ensures { result ≡ read_of fields.message fields.elements n sdu.now }
{
    // Tested here, ahead of all that reading sets up: within it such a refusal would take half as many steps again.
    if !bits::bits_lent(n, sdu.len()) {
        return refused(Fault::Range.number());
    }
    match crate::reading::read_bits(fields.message, (fields.elements % 2) as usize, n, sdu) {
        Ok(transport) => transport,
        Err(fault) => refused(fault.number()),
    }
}

// Builds the DM-SDU of a message for this message type of the header and this FCS flag, with the first `n` bits of lent
// user data, at the output's start; refused, it writes nothing.
pub fn build(carrier: u8, fcs: u8, message: Message, n: usize, user: &[u8], out: &mut [u8]) -> Sdu
    ensures { (result ≡ sdu_of carrier fcs message n (length user.now) (length out.old))
        × (out.new ≡ out_of carrier fcs message n user.now out.old) }
{
    match crate::building::build_checked(carrier, fcs, message, n, user, out) {
        Ok(bits) => Sdu { fault: 0, bits },
        Err(fault) => Sdu {
            fault: fault.number(),
            bits: 0,
        },
    }
}
