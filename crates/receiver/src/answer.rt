// The answer to a report.
ghost use Rattle.std.specs.Prelude.{◌≡◌, cond, ◌+◌, ◌≤◌, length};
ghost use Rattle.bits.specs.Bits.{Inside};
ghost use Rattle.history.specs.Step.{outcome_number, is_acknowledged, lost_of};
ghost use Rattle.history.specs.declared.Outcome.TheVariants.{Quiet};
ghost use Rattle.receiver.specs.View.{plain_answer, with_loss, brought_bits, Told};

use blocks::header::{Fields, no_fields};
use history::{Lost, Outcome, Verdict};
use reports::read::Brought;

// The answer to a report: its outcome; 1 where an open assembly ended here without being handed over; the fault; the
// bits of the message that is handed over, and its header's fields; what is told of the assembly that ended here.
// Kept: numbers and a mark, as pierstrand.h shows them.
#[repr(C)]
#[derive(Clone, Copy)]
pub struct Answer {
    pub outcome: u8,
    pub dropped: u8,
    pub fault: u8,
    pub bits: usize,
    pub fields: Fields,
    pub lost: Lost,
}

// An answer that hands nothing over, and tells of no loss.
fn plain(outcome: Outcome, dropped: bool, fault: u8) -> Answer
    ensures { result ≡ plain_answer (outcome_number outcome) (cond dropped 1 0) fault }
{
    Answer {
        outcome: outcome.number(),
        dropped: u8::from(dropped),
        fault,
        bits: 0,
        fields: no_fields(),
        lost: Lost::default(),
    }
}

// Whether a loss is told of messages of this type: acknowledged short data.
fn is_acknowledged(message: u8) -> bool
    ensures { result ≡ is_acknowledged message }
{
    message == Lost::SDS_DATA || message == Lost::SDS_ACK
}

// What is told of an assembly with this source and message type and so many bits joined; nothing where it is not
// dropped.
pub(crate) fn lost_of(dropped: bool, source: u32, message: u8, bits: usize) -> Lost
    ensures { result ≡ lost_of dropped source message bits }
{
    if dropped && is_acknowledged(message) {
        Lost {
            source,
            message,
            bits,
        }
    } else {
        Lost::default()
    }
}

// The answer to a report that is judged, of an assembly whose header has these fields and which has `at` bits in the
// store. A message that is handed over goes to the buffer's start: the bits that the report brings, after those of
// the store where it is a joined one. A loss is told apart from it.
pub(crate) fn told(
    v: Verdict,
    x: Brought,
    joining: Fields,
    at: usize,
    store: &[u8; 512],
    blocks: &[u8],
    message: &mut [u8],
) -> Answer
    requires room { at + x.bits ≤ 4096 }
    requires inside { Inside (length blocks.now) x.from (x.from + x.bits) }
    requires buffer { (v.outcome ≡ Quiet → ⊥) → 512 ≤ length message.old }
    ensures { Told v x (brought_bits x blocks.now) joining at store.now result
        message.old message.new }
{
    let told = plain(v.outcome, v.dropped, x.fault);
    match v.outcome {
        Outcome::Single => {
            store::hand_block(blocks, x.from, x.bits, message);
            Answer {
                bits: x.bits,
                fields: x.fields,
                ..told
            }
        }
        Outcome::Joined => {
            store::hand_joined(store, at, blocks, x.from, x.bits, message);
            Answer {
                bits: at + x.bits,
                fields: joining,
                ..told
            }
        }
        _ => told,
    }
}

// The same answer, and what is told of an assembly that is dropped.
pub(crate) fn with_loss(a: Answer, lost: Lost) -> Answer
    ensures { result ≡ with_loss a lost }
{
    Answer { lost, ..a }
}
