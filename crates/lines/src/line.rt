// Lines, put together in a buffer.
ghost use Rattle.std.specs.Prelude.{◌≡◌, true, false, [], ◌∷◌, ◌++◌, ◌+◌, ◌*◌, ◌≤◌, ◌<◌, length, drop};
ghost use Rattle.std.specs.Io.KnownBytes.{Appends};
ghost use Rattle.text.specs.Text.{Wrote, decimal_of, hex_of};
ghost use Rattle.std.specs.Prelude.{IsSomeAnd, replicate};
ghost use Rattle.std.proofs.Math.Option.{none};
ghost use Rattle.records.specs.Numbers.{two_at};
ghost use Rattle.lines.specs.Built.{Callable, Lent};
ghost use Rattle.lines.specs.Lines.{Stands, Says, start_of, line_of, line_with, line_then};
ghost use Rattle.lines.specs.Lines.{hex_text, rest_of, shown_of, unknown_line};

use std::io::Write;

// Kept: buffer, word and numbers are arguments of each line, and what each asks of the buffer is its own sum: these
// functions could not fail, so nothing here takes memory (no String), and a struct of the three would be made at each
// call and taken apart in it, no plainer.

// What is kept after a record, and how many bytes of a buffer are its line; none where it is too short for its kind.
#[derive(Clone, Copy)]
pub struct Told<S> {
    pub state: S,
    pub line: Option<usize>,
}

// What every lent output is filled with before its call.
pub const BEFORE: u8 = 0x5A;

// A word and numbers in decimal after it, a space before each.
fn start(out: &mut [u8], word: &[u8], ns: &[u64]) -> usize
    requires { length word.now + 21 * length ns.now ≤ length out.old }
    ensures { Wrote out.old 0 (start_of word.now ns.now) out.new result
        × (result ≤ length word.now + 21 * length ns.now) }
{
    let at = text::copy(out, 0, word);
    text::numbers(out, at, ns)
}

// The same, and a line end.
pub fn line_of(out: &mut [u8], word: &[u8], ns: &[u64]) -> usize
    requires { length word.now + 21 * length ns.now < length out.old }
    ensures { Stands out.old (line_of word.now ns.now) out.new result }
{
    let end = start(out, word, ns);
    out[end] = b'\n';
    end + 1
}

// Two digits for each byte, `-` for none.
fn hex(out: &mut [u8], at: usize, s: &[u8]) -> usize
    requires { at + 2 * length s.now < length out.old }
    ensures { Wrote out.old at (hex_text s.now) out.new result
        × (result ≤ at + 2 * length s.now + 1) }
{
    if s.is_empty() {
        out[at] = b'-';
        return at + 1;
    }
    text::hex(out, at, s)
}

// 1 if these bytes of a lent output are all as before the call, else 0.
fn rest(s: &[u8]) -> u64
    ensures { result ≡ rest_of s.now }
{
    u64::from(s.iter().all(|b| *b == BEFORE))
}

// The first `n` bytes of a lent output, and what is said of the rest, a space before each.
fn shown(out: &mut [u8], at: usize, s: &[u8], n: usize) -> usize
    requires { (n ≤ length s.now) × (at + 2 * n + 23 ≤ length out.old) }
    ensures { Wrote out.old at (shown_of n s.now) out.new result
        × (result ≤ at + 2 * n + 23) }
{
    out[at] = b' ';
    let end = hex(out, at + 1, &s[..n]);
    let ns = [rest(&s[n..])];
    text::numbers(out, end, &ns)
}

// A word, numbers, the first `n` bytes of a lent output with what is said of the rest, and a line end.
// Kept: `s` and `n` side by side, here and below, since the bytes of `s` after the first `n` are told of too.
pub fn line_with(out: &mut [u8], word: &[u8], ns: &[u64], s: &[u8], n: usize) -> usize
    requires { (n ≤ length s.now) × (length word.now + 21 * length ns.now + 2 * n + 23 < length out.old) }
    ensures { Stands out.old (line_with word.now ns.now n s.now)
        out.new result }
{
    line_then(out, word, ns, s, n, &[])
}

// The same, and more numbers before the line end.
pub fn line_then(out: &mut [u8], word: &[u8], ns: &[u64], s: &[u8], n: usize, more: &[u64]) -> usize
    requires { (n ≤ length s.now)
        × (length word.now + 21 * length ns.now + 2 * n + 23 + 21 * length more.now < length out.old) }
    ensures { Stands out.old
        (line_then word.now ns.now n s.now more.now) out.new result }
{
    let at = start(out, word, ns);
    let after = shown(out, at, s, n);
    let end = text::numbers(out, after, more);
    out[end] = b'\n';
    end + 1
}

// A number alone, and a line end.
pub fn number(out: &mut [u8], n: u64) -> usize
    requires { 20 < length out.old }
    ensures { Stands out.old (decimal_of n ++ (10 ∷ [])) out.new result }
{
    let end = text::decimal(out, 0, n);
    out[end] = b'\n';
    end + 1
}

// Two digits for each byte of `s`, and a line end.
pub fn bytes(out: &mut [u8], s: &[u8]) -> usize
    requires { 2 * length s.now < length out.old }
    ensures { Stands out.old (hex_of s.now ++ (10 ∷ [])) out.new result }
{
    let end = text::hex(out, 0, s);
    out[end] = b'\n';
    end + 1
}

// The line of a kind that there is not.
pub fn unknown(out: &mut [u8]) -> Option<usize>
    requires { 512 ≤ length out.old }
    ensures { Says out.old unknown_line out.new result }
{
    Some(text::copy(out, 0, b"kind\n"))
}

// The line of a build: `built` puts it together from the body, and is lent as much of `out` as the body says at place
// 33, each byte as before a call. Where `out` is shorter it is of a kind that there is not.
pub fn line_of_build<F: FnOnce(&[u8], &mut [u8], &mut [u8]) -> usize>(
    body: &[u8],
    out: &mut [u8],
    line: &mut [u8],
    built: F,
) -> Option<usize>
    requires room { 4096 ≤ length line.old }
    requires callable { Callable (length out.old) F.FnOnce built }
    ensures short { length body.now < 35 → Says line.old none line.new result }
    ensures unknown { 35 ≤ length body.now → length out.old < two_at body.now 33
        → Says line.old unknown_line line.new result }
    ensures built { 35 ≤ length body.now → two_at body.now 33 ≤ length out.old
        → IsSomeAnd result (λ n. Lent F.FnOnce built body.now (replicate (two_at body.now 33) 90) line.old n line.new) }
{
    if body.len() < 35 {
        return None;
    }
    let lent = usize::from(records::two_at(body, 33));
    if out.len() < lent {
        return unknown(line);
    }
    let output = &mut out[..lent];
    output.fill(BEFORE);
    Some(built(body, output, line))
}

// Writes a line to `to`, as to standard output; false where it takes no more.
// Kept: a `bool`, since no program tells why a write failed: each stops as at its input's end, with status 0.
pub fn say<W: Write>(to: &mut W, line: &[u8]) -> bool
    ensures { result ≡ true → Appends (W.contents to.old) (W.contents to.new) line.now }
{
    to.write_all(line).is_ok()
}

// Says that a record is cut off. Nothing is read after it: false.
pub fn cut<W: Write>(to: &mut W) -> bool
    ensures { result ≡ false }
{
    say(to, b"cut\n");
    false
}
