// SCH/S: the DMAC-SYNC PDU's first 60 bits.
ghost use Rattle.std.specs.Prelude.{◌≡◌, IfOk};
ghost use Rattle.bits.specs.Bits.{bits_of};
ghost use Rattle.blocks.specs.Faults.{first_of, refusal};
ghost use Rattle.blocks.specs.Sync.{sync_of, sync_rules, sync_checks};

use crate::fault::Fault;
use crate::sizes::{PAD, SchH, SchS, Width};

// Its fields, but for the fixed ones. The slot is as coded in 9.3.25: 0 is slot 1.
#[repr(C)]
#[derive(Clone, Copy, Default)]
pub struct Sync {
    pub system: u8,
    pub usage: u8,
    pub slot: u8,
    pub frame: u8,
}

// The first of the faults 2 to 7 that these elements give. Kept: seven numbers, as the definition takes them.
fn sync_rules(
    pad: u8,
    other: u8,
    system: u8,
    pdu: u8,
    communication: u8,
    encryption: u8,
    frame: u8,
) -> Result<(), Fault>
    ensures { refusal result ≡ first_of (sync_rules pad other system pdu communication encryption frame) }
{
    if pad != 0 || other != 0 {
        return Err(Fault::Pad);
    }
    if system < 10 {
        return Err(Fault::System);
    }
    if pdu != 0 {
        return Err(Fault::SyncType);
    }
    if communication != 0 {
        return Err(Fault::Communication);
    }
    if encryption != 0 {
        return Err(Fault::Encryption);
    }
    if frame < 1 || 18 < frame {
        return Err(Fault::Frame);
    }
    Ok(())
}

// The fields of a header's SCH/S, and its SCH/H.
#[derive(Clone, Copy)]
pub(crate) struct Checked<'a> {
    pub(crate) sync: Sync,
    pub(crate) h: &'a [u8; SchH::BYTES],
}

// A header's two lent blocks, or the first of the faults 1 to 7 that they give.
#[tactic(auto, unfolding(crate::specs::Sync::sync_checks, crate::specs::Sync::sync_of))]
pub(crate) fn checked_blocks<'a>(s: &[u8], h: &'a [u8]) -> Result<Checked<'a>, Fault>
    ensures faults { refusal result ≡ first_of (sync_checks s.now h.now) }
    ensures sync { IfOk result (λ x. x.sync ≡ sync_of (bits_of s.now)) }
    ensures block { IfOk result (λ x. x.h.now ≡ h.now) }
{
    let (Some(s), Some(h)) = (s.as_array(), h.as_array()) else {
        return Err(Fault::Length);
    };
    let pad = bits::get(s, SchS::BITS, PAD);
    let other = bits::get(h, SchH::BITS, PAD);
    let pdu = bits::get(s, SchS::SYNC_TYPE, Width::SYNC_TYPE);
    let communication = bits::get(s, SchS::COMMUNICATION, Width::COMMUNICATION);
    let encryption = bits::get(s, SchS::ENCRYPTION, Width::ENCRYPTION);
    let sync = sync_of(s);
    sync_rules(
        pad,
        other,
        sync.system,
        pdu,
        communication,
        encryption,
        sync.frame,
    )?;
    Ok(Checked { sync, h })
}

// The fields as they stand.
#[tactic(auto, unfolding(crate::specs::Sync::sync_of))]
pub(crate) fn sync_of(s: &[u8; SchS::BYTES]) -> Sync
    ensures { result ≡ sync_of (bits_of s.now) }
{
    Sync {
        system: bits::get(s, SchS::SYSTEM, Width::SYSTEM),
        usage: bits::get(s, SchS::USAGE, Width::USAGE),
        slot: bits::get(s, SchS::SLOT, Width::SLOT),
        frame: bits::get(s, SchS::FRAME, Width::FRAME),
    }
}
