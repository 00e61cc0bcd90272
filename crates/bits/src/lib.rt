// Bit strings over lent bytes: eight bits to a byte, the first bit highest.
// Kept: a place is lent bytes and one or two bits of them, `at` and `w` or `from` and `to`, in every function: the
// crates above reckon with such numbers, and a struct of them would be made at each call and taken apart in it, which
// is no plainer. That `w` is at most 56, and `v` below 2^w, is asked in each contract: a type of such numbers would ask
// callers to make one first.
#![tactic(auto)]

ghost use Rattle.std.specs.Prelude.{◌≡◌, false, leb, length, take, drop, replicate};
ghost use Rattle.std.specs.Prelude.{ℕ, ◌+◌, ◌-◌, ◌*◌, ◌/◌, ◌%◌, ◌^◌, ◌≤◌, ◌<◌, min};
ghost use Rattle.std.proofs.Math.Seq.{slice};
ghost use Rattle.std.proofs.Common.{rules};
ghost use Rattle.bits.specs.Bits.{num, bits_n, bits_of, over, Inside, Got};
ghost use Rattle.bits.specs.Layout.{total, parts_with, AllFit, AllNarrow, pack};
ghost use Rattle.bits.specs.Fill.{strip, found_at, fill_bits};

// The smaller of two numbers.
pub fn least(a: usize, b: usize) -> usize
    ensures { result ≡ min a b }
{
    a.min(b)
}

// The most bits of a field: eight bytes hold it wherever it starts.
const FIELD: usize = 56;

// Whether n bits are among those of so many bytes.
pub fn bits_lent(n: usize, bytes: usize) -> bool
    ensures { result ≡ leb n (8 * bytes) }
{
    let whole = n / 8;
    if n % 8 == 0 {
        return whole <= bytes;
    }
    whole < bytes
}

// The bytes, eight at most, as one number, the first byte highest.
fn load(s: &[u8]) -> u64
    requires { length s.now ≤ 8 }
    ensures { result ≡ num (bits_of s.now) }
{
    let mut acc: u64 = 0;
    for (i, &x) in s.iter().rev().enumerate() {
        acc |= u64::from(x) << (8 * i);
    }
    acc
}

// Puts the low bits of `v`, eight to a byte, into the bytes, eight at most.
fn store(out: &mut [u8], v: u64)
    requires { length out.old ≤ 8 }
    ensures { bits_of out.new ≡ bits_n (8 * length out.old) v }
{
    let unused = 8 - out.len();
    out.copy_from_slice(&v.to_be_bytes()[unused..]);
}

// The mask of the low `w` bits.
fn mask(w: usize) -> u64
    requires { w ≤ 56 }
    ensures { result ≡ 2 ^ w - 1 }
{
    (1 << w) - 1
}

// The `w` bits of `whole` that `after` bits follow.
fn cut(whole: u64, after: usize, w: usize) -> u64
    requires { (after + w ≤ 64) × (w ≤ 56) }
    ensures { result ≡ whole / 2 ^ after % 2 ^ w }
{
    (whole >> (after & 63)) & mask(w)
}

// `whole` with `v` for these bits.
fn pasted(whole: u64, after: usize, w: usize, v: u64) -> u64
    requires { (after + w ≤ 64) × (w ≤ 56) × (v < 2 ^ w) }
    ensures { result ≡ whole / 2 ^ (w + after) * 2 ^ (w + after) + (v * 2 ^ after + whole % 2 ^ after) }
{
    (whole & !(mask(w) << (after & 63))) | (v << (after & 63))
}

// The `k` bits that end with bit `last`, all of one byte.
fn get_in_byte(s: &[u8], last: usize, k: usize) -> u64
    requires { (last < 8 * length s.now) × (k ≤ last % 8 + 1) }
    ensures { Got (bits_of s.now) (last + 1 - k) k result }
{
    cut(u64::from(s[last >> 3]), 7 - (last & 7), k)
}

// How many of the `w` bits that end with bit `last` are of its byte.
fn ending(last: usize, w: usize) -> usize
    ensures { result ≡ min w (last % 8 + 1) }
{
    w.min((last & 7) + 1)
}

// `get` byte by byte: for fewer than eight bytes.
fn get_few(s: &[u8], at: usize, w: usize) -> u64
    requires { Inside (length s.now) at (at + w) × (w ≤ 56) }
    ensures { Got (bits_of s.now) at w result }
{
    if w == 0 {
        return 0;
    }
    let last = at + w - 1;
    let k = ending(last, w);
    (get_few(s, at, w - k) << k) | get_in_byte(s, last, k)
}

// `put` for eight bytes at most.
fn put_through(out: &mut [u8], at: usize, w: usize, v: u64)
    requires { (length out.old ≤ 8) × (at + w ≤ 8 * length out.old) × (w ≤ 56) × (v < 2 ^ w) }
    ensures { bits_of out.new ≡ over at (bits_n w v) (bits_of out.old) }
{
    let whole = load(out);
    let after = (out.len() << 3) - (at + w);
    store(out, pasted(whole, after, w, v));
}

// The `w` bits from bit `at` on, as a number.
fn field(s: &[u8], at: usize, w: usize) -> u64
    requires { Inside (length s.now) at (at + w) × (w ≤ 56) }
    ensures { Got (bits_of s.now) at w result }
{
    if s.len() < 8 {
        return get_few(s, at, w);
    }
    let first = (at >> 3).min(s.len() - 8);
    cut(load(&s[first..first + 8]), (first << 3) + 64 - (at + w), w)
}

// A type of numbers that a field of at most `most` bits is taken as.
pub trait Number {
    ghost most: { ℕ };

    ghost value: { Self → ℕ };

    fn narrowed(x: u64) -> Self
        requires { x < 2 ^ most }
        ensures { value result ≡ x };

    ghost most_of_a_field: { most ≤ 56 };
}

impl Number for u8 {
    ghost most = { 8 };

    ghost value = { λ x. x };

    ghost most_of_a_field = { Prim.search rules };

    fn narrowed(x: u64) -> u8 {
        x as u8
    }
}

impl Number for u32 {
    ghost most = { 32 };

    ghost value = { λ x. x };

    ghost most_of_a_field = { Prim.search rules };

    fn narrowed(x: u64) -> u32 {
        x as u32
    }
}

impl Number for u64 {
    ghost most = { 56 };

    ghost value = { λ x. x };

    ghost most_of_a_field = { Prim.search rules };

    fn narrowed(x: u64) -> u64 {
        x
    }
}

// The `w` bits from bit `at` on: eight at most as a `u8`, 32 as a `u32`, 56 as a `u64`.
pub fn get<T: Number>(s: &[u8], at: usize, w: usize) -> T
    requires { Inside (length s.now) at (at + w) × (w ≤ T.most) }
    ensures { Got (bits_of s.now) at w (T.value result) }
{
    T::narrowed(field(s, at, w))
}

// Puts the `w` bits of `v` at bit `at`; every other bit stays.
pub fn put(out: &mut [u8], at: usize, w: usize, v: u64)
    requires { Inside (length out.old) at (at + w) × (w ≤ 56) × (v < 2 ^ w) }
    ensures { bits_of out.new ≡ over at (bits_n w v) (bits_of out.old) }
{
    if out.len() < 8 {
        put_through(out, at, w, v);
        return;
    }
    let first = (at >> 3).min(out.len() - 8);
    put_through(&mut out[first..first + 8], at - (first << 3), w, v);
}

// Puts each value into its width of bits, side by side from bit `at` on: `n` bits, the number `acc`, wait to be put
// together.
pub fn put_all(out: &mut [u8], at: usize, widths: &[u8], values: &[u64])
    requires { (length widths.now ≡ length values.now) × AllNarrow widths.now
        × AllFit (parts_with widths.now values.now)
        × Inside (length out.old) at (at + total (parts_with widths.now values.now)) }
    ensures { bits_of out.new
        ≡ over at (pack (parts_with widths.now values.now)) (bits_of out.old) }
{
    let mut to = at;
    let mut acc: u64 = 0;
    let mut n: usize = 0;
    for (&width, &v) in widths.iter().zip(values) {
        let w = usize::from(width);
        if FIELD < n + w {
            put(out, to, n, acc);
            to += n;
            acc = v;
            n = w;
        } else {
            acc = (acc << w) | v;
            n += w;
        }
    }
    put(out, to, n, acc);
}

// Copies `n` bits of `src` from bit `from` on to `dst` at bit `to`, a field at a time.
pub fn copy(src: &[u8], from: usize, dst: &mut [u8], to: usize, n: usize)
    requires { Inside (length src.now) from (from + n) × Inside (length dst.old) to (to + n) }
    ensures { bits_of dst.new
        ≡ over to (take n (drop from (bits_of src.now))) (bits_of dst.old) }
{
    for i in (0..n).step_by(FIELD) {
        let w = (n - i).min(FIELD);
        put(dst, to + i, w, field(src, from + i, w));
    }
}

// 0s from bit `from` up to `to`, a field at a time.
pub fn clear(out: &mut [u8], from: usize, to: usize)
    requires { Inside (length out.old) from to }
    ensures { bits_of out.new ≡ over from (replicate (to - from) false) (bits_of out.old) }
{
    for i in (from..to).step_by(FIELD) {
        let w = (to - i).min(FIELD);
        put(out, i, w, 0);
    }
}

// Fills the bits left from bit `from` up to `to`: a 1, and 0s after it; nothing where none is left.
pub fn fill(out: &mut [u8], from: usize, to: usize)
    requires { Inside (length out.old) from to }
    ensures { bits_of out.new ≡ over from (fill_bits (to - from)) (bits_of out.old) }
{
    if from < to {
        let w = (to - from).min(FIELD);
        put(out, from, w, 1 << (w - 1));
        clear(out, from + w, to);
    }
}

// The last bit that is 1 of those from `from` up to `to`, byte by byte from the end. Of the last byte the bits after
// the room are left out; in the first one a 1 before the room is none of its own. It calls itself where the room starts
// within a byte, and so stands in the image once (decision 12).
pub fn last_one(s: &[u8], from: usize, to: usize) -> Option<usize>
    requires { Inside (length s.now) from to }
    ensures { result ≡ found_at from (strip (slice from to (bits_of s.now))) }
{
    let before = from & 7;
    if before != 0 {
        let at = last_one(s, from - before, to)?;
        if at < from {
            return None;
        }
        return Some(at);
    }
    let first = from >> 3;
    let last = (to + 7) >> 3;
    let mut after = (last << 3) - to;
    for i in (first..last).rev() {
        let byte = s[i] >> after;
        if byte != 0 {
            return Some((i << 3) + 7 - after - (byte.trailing_zeros() as usize));
        }
        after = 0;
    }
    None
}
