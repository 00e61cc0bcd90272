// What a build is refused for, and how its message is cut.
ghost use Rattle.std.specs.Prelude.{◌≡◌, ◌^◌};
ghost use Rattle.blocks.specs.Faults.{first_of, refusal};
ghost use Rattle.blocks.specs.Header.{address_width};
ghost use Rattle.blocks.specs.Slots.{fits_header};
ghost use Rattle.build.specs.Plan.{number_rules, address_rules, plan_of, planned_of, answered};

use bits::bits_lent;
use blocks::fault::Fault;
use blocks::header::{Address, Fields, header_bits};
use blocks::sizes::{SchF, SchH, SchS, Width};
use blocks::sync::Sync;
use blocks::widths::{NO_ENTRY, entry_of, run_fits};

// One more than the largest MNI.
const MNI_END: u32 = 1 << Width::MNI;

// The first of the faults 3, 7 and 13 that these numbers give.
fn number_rules(sync: Sync, countdown: u8, mni: u32, message: u8) -> Result<(), Fault>
    ensures { refusal result
        ≡ first_of (number_rules sync.system sync.frame sync.usage sync.slot countdown mni message) }
{
    if !matches!(sync.system, 10..=15) {
        return Err(Fault::System);
    }
    if !matches!(sync.frame, 1..=18) {
        return Err(Fault::Frame);
    }
    if 3 < sync.usage || 3 < sync.slot || 3 < countdown {
        return Err(Fault::Range);
    }
    if MNI_END <= mni || 31 < message {
        return Err(Fault::Range);
    }
    Ok(())
}

// One more than the largest number that fits an address element of this type; an absent one is 0.
fn address_most(kind: u8) -> u32
    ensures { result ≡ 2 ^ address_width kind }
{
    if kind == Address::ABSENT {
        1
    } else {
        Address::END
    }
}

// 13 where the address type or the address is too large for its element.
fn address_rules(address: Address) -> Result<(), Fault>
    ensures { refusal result ≡ first_of (address_rules address.kind address.ssi) }
{
    if 3 < address.kind || address_most(address.kind) <= address.ssi {
        return Err(Fault::Range);
    }
    Ok(())
}

// Whether n message bits go into an unfragmented header of h bits.
fn fits_header(h: usize, n: usize) -> bool
    ensures { result ≡ fits_header h n }
{
    n <= SchH::BITS && h <= SchH::BITS - n
}

// How a message is cut: whether it is fragmented, the bits that the header takes, the number of continuation blocks.
// Kept: the flag beside the numbers, as the definition `plan_of` has them: SCH/H has both.
#[derive(Clone, Copy)]
pub struct Plan {
    pub fragmented: bool,
    pub inside: usize,
    pub blocks: u8,
}

// The output's bytes before the continuation blocks.
const HEADER: usize = SchS::BYTES + SchH::BYTES;

// The bits of SCH/H without its slot count.
const UNCOUNTED: usize = SchH::BITS - Width::COUNT;

// The bits that fifteen continuation blocks take.
const MOST: usize = 15 * SchF::ROOM;

// The first of the faults 8, 9, 14 and 1, or the plan, for a message of n bits after a header of h, and an output of so
// many bytes.
// In place, since a plan in memory would cost each build, a refused one too.
#[inline(always)]
#[tactic(auto, unfolding(crate::specs::Plan::plan_of))]
fn plan_of(to: u8, from: u8, entry: u8, h: usize, n: usize, lent: usize) -> Result<Plan, Fault>
    ensures { answered result ≡ plan_of to from entry h n lent }
{
    if 2 < to || 2 < from {
        return Err(Fault::AddressType);
    }
    if NO_ENTRY <= entry {
        return Err(Fault::MessageType);
    }
    if fits_header(h, n) {
        if lent < HEADER {
            return Err(Fault::Length);
        }
        return Ok(Plan {
            fragmented: false,
            inside: n,
            blocks: 0,
        });
    }
    if UNCOUNTED < h {
        return Err(Fault::MessageType);
    }
    let inside = UNCOUNTED - h;
    let rest = n - inside;
    if MOST < rest {
        return Err(Fault::TooLong);
    }
    let blocks = rest.div_ceil(SchF::ROOM);
    if lent < HEADER + SchF::BYTES * blocks {
        return Err(Fault::Length);
    }
    Ok(Plan {
        fragmented: true,
        inside,
        blocks: blocks as u8,
    })
}

// All of it: the plan, or the fault.
pub(crate) fn planned(
    sync: Sync,
    countdown: u8,
    fields: Fields,
    n: usize,
    bytes: usize,
    lent: usize,
) -> Result<Plan, Fault>
    ensures { answered result ≡ planned_of sync countdown fields n bytes lent }
{
    let d = fields.destination;
    let s = fields.source;
    number_rules(sync, countdown, fields.mni, fields.message)?;
    address_rules(d)?;
    address_rules(s)?;
    if !run_fits(fields.message, fields.width, fields.elements) {
        return Err(Fault::Range);
    }
    if !bits_lent(n, bytes) {
        return Err(Fault::Range);
    }
    let h = header_bits(0, d.kind, s.kind, fields.width);
    let entry = entry_of(fields.message).width;
    plan_of(d.kind, s.kind, entry, h, n, lent)
}
