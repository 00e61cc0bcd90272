// Answers call records on `bits` from standard input, a line for each: what the stored vectors are run by.
//
// A record is two bytes length of what follows, two bytes kind, body; numbers have their low byte first. The kind is
// the call, 1 to 10, and the body has:
//     0 2 4    three numbers of two bytes: x, y, z
//     6        a value of eight bytes: v
//     14       the length of the first of two runs of lent bytes, a byte
//     15       the two runs: s, and t, the rest
// The calls, and what each writes on its line:
//     1 get(s, x, y)   2 get8(s, x, y)   3 get32(s, x, y)    the number
//     4 put(s, x, y, v)   5 put_all(s, x, the parts in t)   6 copy(t, x, s, y, z)   7 clear(s, x, y)
//     8 fill(s, x, y)    the bytes of s
//     9 last_one(s, x, y)    the place, or `none`
//     10 a DMAC-END that carries the y bits of t from bit x on, and fill    its 34 bytes
// `range` stands for what `bits` does not take, `call` for a call that there is not, and `cut` for a record that the
// input cuts off or that is shorter than its runs; nothing is read after that.
#![tactic(auto)]

mod calls;
mod parts;

ghost use Rattle.std.specs.Prelude.{◌+◌, ◌≤◌, length};

use crate::calls::{Said, Untaken};
use lines::input::Taken;
use lines::line;
use std::io::{Read, Write};

// The number of two bytes of a body.
fn number(body: &[u8], at: usize) -> usize
    requires { at + 2 ≤ length body.now }
    ensures { result ≤ 65535 }
{
    usize::from(records::two_at(body, at))
}

// Makes a call on the runs `s` and `t`.
// Kept: a `match` on the call's number, as the table above has it: each call takes other arguments, which a table of
// closures would hide.
fn answer(call: u16, body: &[u8], s: &mut [u8], t: &[u8]) -> Result<Said, Untaken>
    requires { 15 ≤ length body.now }
{
    let x = number(body, 0);
    let y = number(body, 2);
    match call {
        1 => calls::get::<u64>(56, s, x, y),
        2 => calls::get::<u8>(8, s, x, y),
        3 => calls::get::<u32>(32, s, x, y),
        4 => calls::put(s, x, y, records::eight(body, 6)),
        5 => calls::put_all(s, x, t),
        6 => calls::copy(t, x, s, y, number(body, 4)),
        7 => calls::clear(s, x, y),
        8 => calls::fill(s, x, y),
        9 => calls::last_one(s, x, y),
        _ => Err(Untaken::Unknown),
    }
}

// Writes the line of an answer, whose bytes are those of `s`; false where nobody takes it.
fn told<W: Write>(to: &mut W, said: Result<Said, Untaken>, s: &[u8]) -> bool
    requires { length s.now ≤ 255 }
{
    let mut out = [0u8; 512];
    let end = match said {
        Ok(Said::Number(n)) => line::number(&mut out, n),
        Ok(Said::Bytes) => line::bytes(&mut out, s),
        Ok(Said::Nothing) => text::copy(&mut out, 0, b"none\n"),
        Err(Untaken::Range) => text::copy(&mut out, 0, b"range\n"),
        Err(Untaken::Unknown) => text::copy(&mut out, 0, b"call\n"),
    };
    line::say(to, &out[..end])
}

// A DMAC-END in a block of its own.
fn end<W: Write>(to: &mut W, body: &[u8], t: &[u8]) -> bool
    requires { 15 ≤ length body.now }
{
    let mut block = [0u8; 34];
    let said = calls::end(&mut block, t, number(body, 0), number(body, 2));
    told(to, said, &block)
}

// Any other call, on a copy of the first run in `s`.
fn call<W: Write>(to: &mut W, kind: u16, body: &[u8], s: &mut [u8], t: &[u8]) -> bool
    requires { (15 + length s.old ≤ length body.now) × (length s.old ≤ 255) }
{
    let end = 15 + s.len();
    s.copy_from_slice(&body[15..end]);
    let said = answer(kind, body, s, t);
    told(to, said, s)
}

// Answers a record; false where it is cut off, or nobody takes the line. The first run is copied to `room`.
fn answered<W: Write>(to: &mut W, kind: u16, body: &[u8], room: &mut [u8]) -> bool
    requires { 255 ≤ length room.old }
{
    if body.len() < 15 {
        return line::cut(to);
    }
    let n = usize::from(body[14]);
    if body.len() < 15 + n {
        return line::cut(to);
    }
    let t = &body[15 + n..];
    if kind == 10 {
        return end(to, body, t);
    }
    call(to, kind, body, &mut room[..n], t)
}

// Reads one record and answers it; false where there is none, or it is cut off.
fn next<R: Read, W: Write>(input: &mut R, to: &mut W) -> bool {
    let mut body = [0u8; 4096];
    let mut room = [0u8; 255];
    match lines::input::take(input, &mut body) {
        Taken::Record(kind, n) => answered(to, kind, &body[..n], &mut room),
        Taken::Cut => line::cut(to),
        Taken::End => false,
    }
}

// A proved loop has to end, and nothing says that the input does: it has more turns than a run takes.
fn main(rt: HostRuntime) {
    let mut input = rt.stdin();
    let mut to = rt.stdout();
    for _ in 0..u64::MAX {
        if !next(&mut input, &mut to) {
            return;
        }
    }
}
