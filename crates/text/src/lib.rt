// Text in ASCII, written at a place of lent bytes: each function answers the place after what it wrote, and leaves
// every other byte.
// Kept: `out` and `at` side by side, and no struct of both, since docs/PROMISES.md has each call and its `Wrote` by
// these names, and `lines` and `slotlog` write bytes of their own at the places between.
#![tactic(auto)]

ghost use Rattle.std.specs.Prelude.{◌+◌, ◌*◌, ◌≤◌, ◌<◌, ◌≡◌, length};
ghost use Rattle.text.specs.Text.{Wrote, decimal_of, spaced, hex_of};
ghost use Rattle.text.specs.Text.{hex_digit as Text·hexDigit};

// The decimal digits of `n`.
pub fn decimal(out: &mut [u8], at: usize, n: u64) -> usize
    requires { at + length (decimal_of n) ≤ length out.old }
    ensures { Wrote out.old at (decimal_of n) out.new result }
{
    if n < 10 {
        out[at] = b'0' + n as u8;
        return at + 1;
    }
    let next = decimal(out, at, n / 10);
    out[next] = b'0' + (n % 10) as u8;
    next + 1
}

// The bytes of `s`.
#[tactic(auto, using(crate::proofs::Writing::wrote_copy))]
pub fn copy(out: &mut [u8], at: usize, s: &[u8]) -> usize
    requires { at + length s.now ≤ length out.old }
    ensures { Wrote out.old at s.now out.new result }
{
    let end = at + s.len();
    out[at..end].copy_from_slice(s);
    end
}

// Numbers in decimal, a space before each.
pub fn numbers(out: &mut [u8], at: usize, ns: &[u64]) -> usize
    requires { at + 21 * length ns.now ≤ length out.old }
    ensures { Wrote out.old at (spaced ns.now) out.new result
        × (result ≤ at + 21 * length ns.now) }
{
    let mut next = at;
    for n in ns {
        out[next] = b' ';
        next = decimal(out, next + 1, *n);
    }
    next
}

fn hex_digit(d: u8) -> u8
    requires { d < 16 }
    ensures { result ≡ Text·hexDigit d }
{
    if d < 10 { b'0' + d } else { b'a' + (d - 10) }
}

// Two hexadecimal digits for each byte of `s`.
pub fn hex(out: &mut [u8], at: usize, s: &[u8]) -> usize
    requires { at + 2 * length s.now ≤ length out.old }
    ensures { Wrote out.old at (hex_of s.now) out.new result
        × (result ≡ at + 2 * length s.now) }
{
    let mut next = at;
    for b in s {
        out[next] = hex_digit(*b / 16);
        out[next + 1] = hex_digit(*b % 16);
        next += 2;
    }
    next
}
