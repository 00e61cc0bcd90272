// Building a DM-SDU: what is refused, and its bits.
ghost use Rattle.std.specs.Prelude.{◌≡◌, ◌++◌, ◌+◌, ◌*◌, ◌≤◌, length, take};
ghost use Rattle.bits.specs.Bits.{bits_of, over, Inside};
ghost use Rattle.bits.specs.Layout.{AllNarrow, parts_with, pack};
ghost use Rattle.blocks.specs.Faults.{first_of, refusal};
ghost use Rattle.store.specs.Store.{handed};
ghost use Rattle.transport.specs.Kinds.{number};
ghost use Rattle.transport.specs.Layouts.{shape, layout, at};
ghost use Rattle.transport.specs.Building.{values_for, message_bits, stored_holds, kind_rules, flag_rules, most_for};
ghost use Rattle.transport.specs.Building.{fit_rules, fits, checked, shape_for, data_at, PutsSdu, Passed, answer};
ghost use Rattle.transport.specs.Building.{fit_fault, frame_bits, built_as, out_as, sdu_of, out_of};

use crate::Message;
use crate::elements::{ack_of, forward_width};
use crate::kinds::Kind;
use crate::reading::direct_type;
use blocks::fault::Fault;

// Whether a message's forward address type is one of direct mode's, where its storage is 1.
fn stored_holds(kind: Kind, storage: u8, forward: u8) -> bool
    ensures { result ≡ stored_holds (number kind) storage forward }
{
    kind.per(storage, storage, 0, 0) != 1 || direct_type(forward)
}

// The rules for 21.
fn kind_rules(
    carrier: u8,
    lowest: usize,
    kind: u8,
    least: u8,
    protocol: u8,
    stored: bool,
) -> Result<(), Fault>
    ensures { refusal result ≡ first_of (kind_rules carrier lowest kind least protocol stored) }
{
    if carrier < 22
        || 24 < carrier
        || usize::from(kind) < lowest
        || 4 < kind
        || protocol < least
        || !stored
    {
        return Err(Fault::NotSdsTl);
    }
    Ok(())
}

// 13 where a flag is above 1, user data are too many or not lent.
fn flag_rules(
    flag: u8,
    addressed: u8,
    storage: u8,
    n: usize,
    most: usize,
    lent: bool,
) -> Result<(), Fault>
    ensures { refusal result ≡ first_of (flag_rules flag addressed storage n most lent) }
{
    if 1 < flag || 1 < addressed || 1 < storage || most < n || !lent {
        return Err(Fault::Range);
    }
    Ok(())
}

// How many bits user defined data 4 has at most.
fn most_for(ack: usize, flag: u8) -> usize
    requires { flag ≤ 1 }
    ensures { result ≡ most_for ack flag }
{
    if ack == 1 {
        return 269 - 32 * usize::from(flag);
    }
    2047
}

// 13 where user defined data 4 has too many bits or an element's number is too large, 1 where the output is too short.
fn fit_rules(length: usize, most: usize, fit: bool, enough: bool) -> Result<(), Fault>
    ensures { refusal result ≡ first_of (fit_rules length most fit enough) }
{
    if most < length || !fit {
        return Err(Fault::Range);
    }
    if !enough {
        return Err(Fault::Length);
    }
    Ok(())
}

// What decides the widths of a message's elements: 1 in a DM-SDS ACK, the additional addressing flag, the kind, storage
// and the forward address type.
// Kept: flags are 0 or 1, as the message for C and the definition `shape` have them, and as widths are reckoned.
#[derive(Clone, Copy)]
struct Shape {
    ack: usize,
    addressed: u8,
    kind: Kind,
    storage: u8,
    forward: u8,
}

impl Shape {
    // The bits of the message's elements, from the protocol identifier or the status on.
    fn message_bits(self) -> usize
        requires { self.storage ≤ 1 }
        ensures { (result ≡ message_bits (number self.kind) self.storage self.forward) × (result ≤ 88) }
    {
        self.kind.per(24, 32, 32, 16) + 8 * usize::from(self.storage) + forward_width(self.forward)
    }

    // Where user defined data 4 or a status begins.
    fn data_at(self) -> usize
        requires { (self.ack ≤ 1) × (self.addressed ≤ 1) }
        ensures { (result ≡ data_at self.ack self.addressed (number self.kind)) × (result ≤ 72) }
    {
        3 * self.ack + 1 + 52 * usize::from(self.addressed) + 4 + self.kind.per(11, 11, 11, 0)
    }

    // The elements' widths, in order.
    fn widths(self) -> [u8; 20]
        requires { (self.ack ≤ 1) × (self.addressed ≤ 1) × (self.storage ≤ 1) }
        ensures { result ≡ layout (shape self.ack self.addressed (number self.kind) self.storage self.forward) }
    {
        let kind = self.kind;
        [
            (4 * self.ack) as u8,
            (1 - self.ack) as u8,
            4 * self.addressed,
            24 * self.addressed,
            24 * self.addressed,
            4,
            kind.per(11, 11, 11, 0),
            kind.per(8, 8, 8, 0),
            kind.per(4, 4, 4, 0),
            kind.per(2, 0, 0, 0),
            kind.per(1, 0, 0, 0),
            kind.per(0, 1, 0, 0),
            kind.per(0, 2, 4, 0),
            kind.per(1, 1, 0, 0),
            kind.per(0, 0, 0, 6),
            kind.per(0, 8, 8, 2),
            8,
            5 * self.storage,
            3 * self.storage,
            forward_width(self.forward) as u8,
        ]
    }
}

// The elements' values, in order.
fn values_of(ack: usize, kind: Kind, m: Message, length: usize) -> [u64; 20]
    requires { number kind ≡ m.kind }
    ensures { result ≡ values_for ack m length }
{
    [
        ack as u64,
        u64::from(m.addressed),
        u64::from(m.addressed),
        u64::from(m.mni),
        u64::from(m.ssi),
        kind.per(3, 3, 3, 4),
        length as u64,
        u64::from(m.protocol),
        kind.per(0, 1, 2, 0),
        u64::from(m.request),
        u64::from(m.short),
        u64::from(m.required),
        0,
        u64::from(m.storage),
        kind.per(0, 0, 0, 31),
        u64::from(m.status),
        u64::from(m.reference),
        u64::from(m.validity),
        u64::from(m.forward),
        m.address,
    ]
}

// Whether each value fits its width of bits.
fn all_fit(widths: &[u8], values: &[u64]) -> bool
    requires { (length widths.now ≡ length values.now) × AllNarrow widths.now }
    ensures { result ≡ fits (parts_with widths.now values.now) }
{
    for (&w, &v) in widths.iter().zip(values) {
        if 1 << w <= v {
            return false;
        }
    }
    true
}

// Puts the FCS of the first `end` bits after them, if the flag is 1.
fn put_fcs(out: &mut [u8], end: usize, flag: u8)
    requires { Inside (length out.old) 0 (end + 32 * flag) × (end ≤ 4096) × (flag ≤ 1) }
    ensures { bits_of out.new
        ≡ over 0 (checked flag (take end (bits_of out.old))) (bits_of out.old) }
{
    if flag == 1 {
        let c = fcs::fcs_of(out, end);
        bits::put(out, end, 32, u64::from(c));
    }
}

// Puts the elements and `n` bits of user data after them, the FCS, and 0s up to the end of the last byte; `bits` is the
// number of bits before these.
fn put_sdu(
    widths: &[u8],
    values: &[u64],
    user: &[u8],
    first: usize,
    n: usize,
    flag: u8,
    out: &mut [u8],
)
    requires { PutsSdu widths.now values.now user.now first n flag out.old }
    ensures { out.new
        ≡ handed
        (checked flag
        (pack (parts_with widths.now values.now) ++ take n (bits_of user.now)))
        out.old }
{
    bits::put_all(out, 0, widths, values);
    bits::copy(user, 0, out, first, n);
    put_fcs(out, first + n, flag);
    let end = first + n + 32 * usize::from(flag);
    bits::clear(out, end, (end + 7) / 8 * 8);
}

// What a build answers once its kind and its flags have passed, and what it writes.
fn build_message(
    ack: usize,
    flag: u8,
    kind: Kind,
    m: Message,
    n: usize,
    user: &[u8],
    out: &mut [u8],
) -> Result<usize, Fault>
    requires passed { Passed ack flag m n (length user.now) }
    requires kind { number kind ≡ m.kind }
    ensures bits { answer result
        ≡ built_as (fit_fault ack flag m n (length out.old)) (at 20 (shape_for ack m) + n + 32 * flag) }
    ensures out { out.new
        ≡ out_as (fit_fault ack flag m n (length out.old))
        (checked flag (frame_bits ack m (take n (bits_of user.now)))) out.old }
{
    let shape = Shape {
        ack,
        addressed: m.addressed,
        kind,
        storage: m.storage,
        forward: m.forward,
    };
    let from = shape.data_at();
    let own = shape.message_bits();
    let first = from + own;
    let bits = first + n + 32 * usize::from(flag);
    let length = kind.per(own + n, own + n, own + n, 0);
    let widths = shape.widths();
    let values = values_of(ack, kind, m, length);
    fit_rules(
        length,
        most_for(ack, flag),
        all_fit(&widths, &values),
        bits::bits_lent(bits, out.len()),
    )?;
    put_sdu(&widths, &values, user, first, n, flag, out);
    Ok(bits)
}

// What a build answers, and what it writes.
pub(crate) fn build_checked(
    carrier: u8,
    flag: u8,
    m: Message,
    n: usize,
    user: &[u8],
    out: &mut [u8],
) -> Result<usize, Fault>
    ensures bits { answer result ≡ sdu_of carrier flag m n (length user.now) (length out.old) }
    ensures out { out.new ≡ out_of carrier flag m n user.now out.old }
{
    let ack = ack_of(carrier);
    let kind = Kind::try_from(m.kind)?;
    kind_rules(
        carrier,
        ack + 1,
        m.kind,
        kind.per(128, 128, 128, 0),
        m.protocol,
        stored_holds(kind, m.storage, m.forward),
    )?;
    flag_rules(
        flag,
        m.addressed,
        m.storage,
        n,
        kind.per(2047, 2047, 0, 0),
        bits::bits_lent(n, user.len()),
    )?;
    build_message(ack, flag, kind, m, n, user, out)
}
