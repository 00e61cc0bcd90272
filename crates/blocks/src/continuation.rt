// SCH/F with a continuation block: DMAC-FRAG or DMAC-END.
ghost use Rattle.std.specs.Prelude.{◌≡◌, ◌+◌, length, IfOk};
ghost use Rattle.bits.specs.Bits.{bits_of};
ghost use Rattle.blocks.specs.Faults.{number_of, refusal, first_of};
ghost use Rattle.blocks.specs.Sdu.{bits_of_message};
ghost use Rattle.blocks.specs.Continuation.{block_message, continuation_checks, refused_block, read_continuation};

use crate::fault::Fault;
use crate::sdu::sdu_end;
use crate::sizes::{PAD, SchF, Width};

// A continuation block that was read; where it was refused, all but the fault is 0. `last` is 1 for DMAC-END, `first`
// the DM-SDU's first bit and `bits` the number of its message bits.
// Kept: C has this struct, with numbers for the fault and for the flag.
#[repr(C)]
#[derive(Clone, Copy, Default)]
pub struct Continuation {
    pub fault: u8,
    pub last: u8,
    pub first: usize,
    pub bits: usize,
}

fn refused(fault: Fault) -> Continuation
    ensures { result ≡ refused_block (number_of fault) }
{
    Continuation {
        fault: fault.number(),
        ..Continuation::default()
    }
}

// Where the message ends, or the first of the faults.
fn block_end(s: &[u8; SchF::BYTES]) -> Result<usize, Fault>
    ensures faults { refusal result ≡ first_of (continuation_checks s.now) }
    ensures end { IfOk result (λ n. n ≡ 4 + length (bits_of_message (block_message (bits_of s.now)))) }
{
    if bits::get::<u8>(s, SchF::BITS, PAD) != 0 {
        return Err(Fault::Pad);
    }
    if bits::get::<u8>(s, SchF::PDU_TYPE, Width::PDU_TYPE) != 1 {
        return Err(Fault::PduType);
    }
    let fill = bits::get(s, SchF::FILL, 1);
    sdu_end(s, fill, SchF::FIRST, SchF::BITS)
}

// Reads a continuation block; copies nothing.
#[tactic(auto, using(crate::proofs::FaultLaws::no_zero), unfolding(crate::specs::Continuation::read_continuation))]
pub fn read_continuation(s: &[u8]) -> Continuation
    ensures { result ≡ read_continuation s.now }
{
    let Some(s) = s.as_array() else {
        return refused(Fault::Length);
    };
    match block_end(s) {
        Err(fault) => refused(fault),
        Ok(end) => Continuation {
            fault: 0,
            last: bits::get(s, SchF::SUBTYPE, 1),
            first: SchF::FIRST,
            bits: end - SchF::FIRST,
        },
    }
}
