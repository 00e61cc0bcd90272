// What a report brings.
ghost use Rattle.std.specs.Prelude.{◌≡◌, true, length};
ghost use Rattle.reports.specs.Lent.{brought, lent};
ghost use Rattle.reports.specs.Reading.{headless, Reads};

use crate::report::Kind;
use crate::unit::Settings;
use blocks::continuation::read_continuation;
use blocks::header::{Address, Fields, read_reported};
use blocks::sizes::SchS;
use history::{Place, What};
use store::Raw;

// A report once read: what it brings, and the fault of its blocks; of a header whether it is for this unit, its SCH/H
// but for the countdown, its fields, one less than its slot count, its countdown; zero where there is none. Its
// message bits are so many of the lent bytes' from bit `from` on.
// Kept: one record, since the definitions `Reads` and `Judged` and the laws of `hear` speak of its fields, zero where
// there is none; and the fault is a number, 0 for none, as the blocks' structs for C give it.
#[derive(Clone, Copy)]
pub struct Brought {
    pub what: What,
    pub fault: u8,
    pub meant: bool,
    pub raw: Raw,
    pub fields: Fields,
    pub more: u8,
    pub countdown: u8,
    pub from: usize,
    pub bits: usize,
}

// The same fields. Kept: one by one, for so the bytes between them are not carried along (docs/DECISIONS.md, 94): a
// message that is handed over takes 16 instructions fewer of 1,108.
pub(crate) fn same_fields(g: Fields) -> Fields
    ensures { result ≡ g }
{
    Fields {
        destination: Address {
            kind: g.destination.kind,
            ssi: g.destination.ssi,
        },
        source: Address {
            kind: g.source.kind,
            ssi: g.source.ssi,
        },
        mni: g.mni,
        message: g.message,
        width: g.width,
        elements: g.elements,
    }
}

// One without a header.
pub fn headless(what: What, fault: u8, from: usize, bits: usize) -> Brought
    ensures { result ≡ headless what fault from bits }
{
    Brought {
        what,
        fault,
        meant: false,
        raw: Raw::default(),
        fields: Fields::default(),
        more: 0,
        countdown: 0,
        from,
        bits,
    }
}

// An SCH/S with its SCH/H. The countdown stands at bit 16 of a fragmented header's SCH/H, and at bit 12 of another's,
// which has no slot count.
fn header(settings: Settings, q: Place, blocks: &[u8]) -> Brought
    requires { length blocks.now ≡ 24 }
    ensures { Reads settings (lent q.frame q.slot 2 blocks.now) result }
{
    let h = &blocks[SchS::BYTES..];
    let x = read_reported(q.frame, q.slot, &blocks[..SchS::BYTES], h);
    if x.fault != 0 {
        return headless(What::Nothing, x.fault, 0, 0);
    }
    let what = if x.fragmented == 1 {
        What::Fragmented
    } else {
        What::Unfragmented
    };
    Brought {
        what,
        fault: 0,
        meant: settings.meant(x.fields),
        raw: store::without_two(h, 12 + 4 * (x.fragmented as usize)),
        fields: same_fields(x.fields),
        more: x.count - x.fragmented,
        countdown: x.countdown,
        from: SchS::LENT + x.first,
        bits: x.bits,
    }
}

// An SCH/F.
fn block(settings: Settings, q: Place, blocks: &[u8]) -> Brought
    requires { length blocks.now ≡ 34 }
    ensures { Reads settings (lent q.frame q.slot 3 blocks.now) result }
{
    let x = read_continuation(blocks);
    if x.fault != 0 {
        return headless(What::Nothing, x.fault, 0, 0);
    }
    if x.last == 1 {
        return headless(What::End, 0, x.first, x.bits);
    }
    headless(What::Frag, 0, x.first, x.bits)
}

// What a report brings to a unit with these settings.
// Kept: settings, place, kind and blocks are arguments, as `hear` has them from C: a struct of them would be made there
// and taken apart here, which is no plainer.
pub fn read(settings: Settings, q: Place, kind: u8, blocks: &[u8]) -> Brought
    requires { brought kind (length blocks.now) ≡ true }
    ensures { Reads settings (lent q.frame q.slot kind blocks.now) result }
{
    let kind = Kind::of(kind);
    if kind == Some(Kind::Header) {
        return header(settings, q, blocks);
    }
    if kind == Some(Kind::Block) {
        return block(settings, q, blocks);
    }
    headless(What::Nothing, 0, 0, 0)
}
