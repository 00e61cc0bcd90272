// Reading a DM-SDU: its bits, and what they are refused for.
ghost use Rattle.std.specs.Prelude.{◌≡◌, ◌*◌, ◌≤◌, length, take};
ghost use Rattle.bits.specs.Bits.{bits_of};
ghost use Rattle.blocks.specs.Faults.{first_of, refusal};
ghost use Rattle.transport.specs.Elements.{kind_in_data};
ghost use Rattle.transport.specs.Kinds.{number_or};
ghost use Rattle.transport.specs.Runs.{kind_at, front_rules, end_rules};
ghost use Rattle.transport.specs.Reading.{direct, forward_holds, fcs_holds, read_bits, answer};

use crate::elements::{ack_of, fixed_at, front_of, length_in, part, run, stored_at};
use crate::kinds::Kind;
use crate::{Message, Transport};
use blocks::fault::Fault;

// The kind of message that user defined data 4 tells.
#[tactic(auto, unfolding(crate::specs::Elements::kind_in_data))]
fn kind_in_data(
    n: usize,
    end: usize,
    length: usize,
    protocol: u8,
    message: u8,
    ack: usize,
) -> Option<Kind>
    ensures { number_or result ≡ kind_in_data n end length protocol message ack }
{
    if n < end || length < 12 || protocol < 128 || usize::from(message) < ack {
        return None;
    }
    match message {
        0 => Some(Kind::Transfer),
        1 => Some(Kind::Report),
        2 => Some(Kind::Ack),
        _ => None,
    }
}

// The kind of message, by the 47 bits x from the short data type identifier on, which stands at bit `at`.
#[tactic(auto, unfolding(crate::specs::Runs::kind_at))]
fn kind_at(n: usize, at: usize, x: u64, ack: usize) -> Option<Kind>
    requires { at ≤ 53 }
    ensures { number_or result ≡ kind_at n at x ack }
{
    match part::<u8>(x, 43, 4) {
        3 => kind_in_data(
            n,
            at + 27,
            length_in(x),
            part::<u8>(x, 24, 8),
            part::<u8>(x, 20, 4),
            ack,
        ),
        4 if at + 10 <= n && part::<u8>(x, 37, 6) == 31 => Some(Kind::Short),
        _ => None,
    }
}

// Whether a forward address type is one of direct mode's.
pub(crate) fn direct_type(forward: u8) -> bool
    ensures { result ≡ direct forward }
{
    matches!(forward, 1 | 2 | 7)
}

// Whether storage's forward address type, which ends at bit `typed`, is direct mode's or not all there.
fn forward_holds(storage: u8, forward: u8, typed: usize, end: usize, n: usize) -> bool
    ensures { result ≡ forward_holds storage forward typed end n }
{
    storage != 1 || end < typed || n < typed || direct_type(forward)
}

// Whether the FCS at bit `end` is that of the bits before it, or not told of, or not all there.
fn fcs_holds(s: &[u8], n: usize, flag: usize, end: usize) -> bool
    requires { (n ≤ 8 * length s.now) × (end ≤ 4096) }
    ensures { result ≡ fcs_holds flag end (take n (bits_of s.now)) }
{
    if flag != 1 || n < end + 32 {
        return true;
    }
    bits::get::<u32>(s, end, 32) == fcs::fcs_of(s, end)
}

// What stands before the short data type identifier: the first of the faults that it gives.
fn front_rules(
    carrier: u8,
    acknowledged: u8,
    ack: usize,
    address: u8,
    addressed: u8,
) -> Result<(), Fault>
    ensures { refusal result ≡ first_of (front_rules carrier acknowledged ack address addressed) }
{
    if carrier < 22 || 24 < carrier || usize::from(acknowledged) != ack || address != addressed {
        return Err(Fault::NotSdsTl);
    }
    Ok(())
}

// The same of what stands after the kind.
fn end_rules(
    forward: bool,
    check: bool,
    fixed: usize,
    end: usize,
    flag: usize,
    n: usize,
) -> Result<(), Fault>
    requires { (end ≤ 4096) × (flag ≤ 1) }
    ensures { refusal result ≡ first_of (end_rules forward check fixed end flag n) }
{
    if !forward || !check {
        return Err(Fault::NotSdsTl);
    }
    if end < fixed || n < end + 32 * flag {
        return Err(Fault::TooShort);
    }
    Ok(())
}

// What the first `n` of the lent bits read as.
pub(crate) fn read_bits(carrier: u8, flag: usize, n: usize, s: &[u8]) -> Result<Transport, Fault>
    requires { (n ≤ 8 * length s.now) × (flag ≤ 1) }
    ensures { answer result ≡ read_bits carrier flag (take n (bits_of s.now)) }
{
    let ack = ack_of(carrier);
    let front = front_of(run(s, n, 0, 53), ack);
    front_rules(
        carrier,
        front.acknowledged,
        ack,
        front.kind,
        front.addressed,
    )?;
    let x = run(s, n, front.next, 47);
    let kind = kind_at(n, front.next, x, ack).ok_or(Fault::NotSdsTl)?;
    let fixed = fixed_at(front.next, kind, x);
    let stored = stored_at(s, n, fixed.next, fixed.storage);
    let length = fixed.length;
    let end = fixed.from + kind.per(length, length, length, 16);
    let forward = forward_holds(fixed.storage, stored.forward, stored.typed, end, n);
    let check = fcs_holds(s, n, flag, end);
    end_rules(forward, check, stored.next, end, flag, n)?;
    let first = stored.next;
    let rest = end - first;
    let message = Message {
        kind: kind.number(),
        addressed: front.addressed,
        mni: front.mni,
        ssi: front.ssi,
        protocol: fixed.protocol,
        request: fixed.request,
        short: fixed.short,
        required: fixed.required,
        storage: fixed.storage,
        status: fixed.status,
        reference: fixed.reference,
        validity: stored.validity,
        forward: stored.forward,
        address: stored.address,
    };
    Ok(Transport {
        fault: 0,
        message,
        first: kind.per(first, first, 0, 0),
        bits: kind.per(rest, rest, 0, 0),
    })
}
