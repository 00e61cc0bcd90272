// A call of each function of `bits`, where its numbers are in the range that it asks for.
ghost use Rattle.std.specs.Prelude.{◌≡◌, ◌+◌, ◌*◌, ◌^◌, ◌≤◌, length, OnOk};
ghost use Rattle.bits.specs.Bits.{Inside};

use crate::parts;
use bits::Number;

// What a call answers: a number; the bytes that it changed; `none`.
// Kept: three answers, one with a number, so no Option.
#[derive(Clone, Copy)]
pub enum Said {
    Number(u64),
    Bytes,
    Nothing,
}

// Why there is no answer: it does not take these numbers; or there is no such call.
#[derive(Clone, Copy)]
pub enum Untaken {
    Range,
    Unknown,
}

// How many bits of `s` a place may be among.
fn reach(s: &[u8]) -> usize
    ensures bytes { result ≤ 8 * length s.now }
    ensures most { result ≤ 2 ^ 32 }
{
    if s.len() < 1 << 29 {
        s.len() * 8
    } else {
        1 << 32
    }
}

// Holds the bits from `from` up to `to` against `s`.
fn held(s: &[u8], from: usize, to: usize) -> Result<(), Untaken>
    ensures { OnOk result (Inside (length s.now) from to) }
{
    if to < from || reach(s) < to {
        return Err(Untaken::Range);
    }
    Ok(())
}

// Holds a width against the most that is taken.
fn narrow(w: usize, most: usize) -> Result<(), Untaken>
    ensures { OnOk result (w ≤ most) }
{
    if most < w {
        return Err(Untaken::Range);
    }
    Ok(())
}

// get, as a type that takes `most` bits.
pub(crate) fn get<T: Number>(most: usize, s: &[u8], at: usize, w: usize) -> Result<Said, Untaken>
where
    u64: From<T>,
    requires place { at ≤ 65535 }
    requires most { most ≤ T.most }
    requires few { most ≤ 56 }
{
    narrow(w, most)?;
    held(s, at, at + w)?;
    Ok(Said::Number(u64::from(bits::get::<T>(s, at, w))))
}

pub(crate) fn put(out: &mut [u8], at: usize, w: usize, v: u64) -> Result<Said, Untaken>
    requires { at ≤ 65535 }
{
    narrow(w, 56)?;
    held(out, at, at + w)?;
    let kept = parts::low(v, w);
    if kept != v {
        return Err(Untaken::Range);
    }
    bits::put(out, at, w, kept);
    Ok(Said::Bytes)
}

fn put_parts(out: &mut [u8], at: usize, widths: &[u8], values: &[u64]) -> Result<Said, Untaken>
    requires place { at ≤ 65535 }
    requires pairs { length widths.now ≡ length values.now }
    requires few { length widths.now ≤ 32 }
{
    let n = parts::measure(widths, values).ok_or(Untaken::Range)?;
    held(out, at, at + n)?;
    bits::put_all(out, at, widths, values);
    Ok(Said::Bytes)
}

// The parts in `t`: a byte for each width, and after these eight bytes for each value.
pub(crate) fn put_all(out: &mut [u8], at: usize, t: &[u8]) -> Result<Said, Untaken>
    requires { at ≤ 65535 }
{
    let n = t.len() / 9;
    narrow(n, 32)?;
    let mut values = [0u64; 32];
    parts::values(&t[n..], &mut values);
    put_parts(out, at, &t[..n], &values[..n])
}

pub(crate) fn copy(
    src: &[u8],
    from: usize,
    dst: &mut [u8],
    to: usize,
    n: usize,
) -> Result<Said, Untaken>
    requires from { from ≤ 65535 }
    requires to { to ≤ 65535 }
    requires few { n ≤ 65535 }
{
    held(src, from, from + n)?;
    held(dst, to, to + n)?;
    bits::copy(src, from, dst, to, n);
    Ok(Said::Bytes)
}

pub(crate) fn clear(s: &mut [u8], from: usize, to: usize) -> Result<Said, Untaken> {
    held(s, from, to)?;
    bits::clear(s, from, to);
    Ok(Said::Bytes)
}

pub(crate) fn fill(s: &mut [u8], from: usize, to: usize) -> Result<Said, Untaken> {
    held(s, from, to)?;
    bits::fill(s, from, to);
    Ok(Said::Bytes)
}

pub(crate) fn last_one(s: &[u8], from: usize, to: usize) -> Result<Said, Untaken> {
    held(s, from, to)?;
    // Kept: `i as u64`, since `u64` is not made `From` a `usize`.
    Ok(match bits::last_one(s, from, to) {
        Some(i) => Said::Number(i as u64),
        None => Said::Nothing,
    })
}

// A DMAC-END that carries `n` bits of `t` from bit `from` on: PDU type 01, subtype 1, fill indication 1, the bits, fill
// up to bit 268.
pub(crate) fn end(block: &mut [u8], t: &[u8], from: usize, n: usize) -> Result<Said, Untaken>
    requires block { 34 ≤ length block.old }
    requires from { from ≤ 65535 }
{
    narrow(n, 263)?;
    held(t, from, from + n)?;
    bits::put_all(block, 0, &[2, 1, 1], &[1, 1, 1]);
    bits::copy(t, from, block, 4, n);
    bits::fill(block, 4 + n, 268);
    Ok(Said::Bytes)
}
