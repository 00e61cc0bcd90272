// What a report is refused for.
ghost use Rattle.std.specs.Prelude.{◌≡◌};
ghost use Rattle.blocks.specs.Faults.{first_of, refusal};
ghost use Rattle.reports.specs.Lent.{heard_slot, brought, report_rules};
ghost use Rattle.reports.specs.Reading.{kind_of};

use blocks::fault::Fault;
use blocks::sizes::{SchF, SchH, SchS};

// The bytes that a message's buffer has at least: enough for every message that is handed over.
const BUFFER: usize = 512;

// What a report brings.
#[derive(Clone, Copy, PartialEq, Eq)]
pub enum Kind {
    // Nothing: 0 bytes.
    Silence = 1,

    // SCH/S, then SCH/H: 24 bytes.
    Header = 2,

    // SCH/F: 34 bytes.
    Block = 3,
}

impl Kind {
    // The kind of this number, if there is one.
    pub fn of(number: u8) -> Option<Kind>
        ensures { result ≡ kind_of number }
    {
        match number {
            1 => Some(Kind::Silence),
            2 => Some(Kind::Header),
            3 => Some(Kind::Block),
            _ => None,
        }
    }
}

// Whether a report of this kind lends so many bytes.
fn brings(kind: u8, lent: usize) -> bool
    ensures { result ≡ brought kind lent }
{
    match Kind::of(kind) {
        Some(Kind::Silence) => lent == 0,
        Some(Kind::Header) => lent == SchS::BYTES + SchH::BYTES,
        Some(Kind::Block) => lent == SchF::BYTES,
        None => false,
    }
}

// Whether it is a slot that reports name.
fn heard_slot(slot: u8) -> bool
    ensures { result ≡ heard_slot slot }
{
    slot == 1 || slot == 3
}

// The first of the faults 15, 16, 1 and 17 of a report.
pub fn report_rules(frame: u8, slot: u8, kind: u8, lent: usize, buffer: usize) -> Result<(), Fault>
    ensures { refusal result ≡ first_of (report_rules frame slot kind lent buffer) }
{
    if frame < 1 || 18 < frame {
        return Err(Fault::ReportFrame);
    }
    if !heard_slot(slot) {
        return Err(Fault::ReportSlot);
    }
    if !brings(kind, lent) {
        return Err(Fault::Length);
    }
    if buffer < BUFFER {
        return Err(Fault::Buffer);
    }
    Ok(())
}
