// SDS-TL messages and bookings, made as records name them: each call with its answer's line.
#![tactic(auto)]

mod body;
mod print;

ghost use Rattle.std.specs.Prelude.{◌≤◌, length};
ghost use Rattle.bookings.specs.Kept.{Reached};
ghost use Rattle.lines.specs.Lines.{Stands, Says};
ghost use Rattle.probe_transport.specs.Calls.{read_line, built_text, build_line};
ghost use Rattle.probe_transport.specs.Calls.{FreshTells, Called, BookTells};

use bookings::Bookings;
use lines::line::{Told, line_of_build};

// Kept: body and line are arguments: a struct of them would be made in `tell` and taken apart here, which is no
// plainer; and what each call asks of the line's buffer is its own sum.

// Reads a message.
pub fn read(body: &[u8], line: &mut [u8]) -> Option<usize>
    requires { 512 ≤ length line.old }
    ensures { Says line.old (read_line body.now) line.new result }
{
    if body.len() < 13 {
        return None;
    }
    let fields = body::fields(0, body);
    // Kept: `as`, since a `usize` is no `From` of a `u32`.
    let n = records::four(body, 9) as usize;
    let t = transport::read(fields, n, &body[13..]);
    Some(print::read(line, t))
}

// Builds a message into this output.
fn built(body: &[u8], out: &mut [u8], line: &mut [u8]) -> usize
    requires { (35 ≤ length body.now) × (length out.old ≤ 1024) × (4096 ≤ length line.old) }
    ensures { Stands line.old (built_text body.now out.old)
        line.new result }
{
    let message = body::message(body);
    // Kept: `as`, since a `usize` is no `From` of a `u32`.
    let n = records::four(body, 29) as usize;
    let b = transport::build(body[0], body[1], message, n, &body[35..], out);
    print::sdu(line, b, out)
}

// Builds a message.
pub fn build(body: &[u8], line: &mut [u8]) -> Option<usize>
    requires { 4096 ≤ length line.old }
    ensures { Says line.old (build_line body.now) line.new result }
{
    let mut out = [0u8; 1024];
    line_of_build(body, &mut out, line, built)
}

// Makes the bookings fresh ones.
pub fn fresh(line: &mut [u8]) -> Told<Bookings>
    requires { 512 ≤ length line.old }
    ensures { Reached result.state × FreshTells line.old line.new result }
{
    let bookings = Bookings::fresh();
    Told {
        state: bookings,
        line: Some(text::copy(line, 0, b"bookings\n")),
    }
}

// Books a message that came from this source.
fn booked(before: Bookings, source: u32, body: &[u8], line: &mut [u8]) -> Told<Bookings>
    requires { Reached before × (13 ≤ length body.now) × (512 ≤ length line.old) }
    ensures { Reached result.state
        × Called before source body.now line.old line.new result }
{
    let fields = body::fields(source, body);
    // Kept: `as`, since a `usize` is no `From` of a `u32`.
    let n = records::four(body, 9) as usize;
    let reply = before.book(fields, n, &body[13..]);
    let after = reply.bookings;
    let answer = reply.booked;
    Told {
        state: after,
        line: Some(print::book(line, answer)),
    }
}

// Books a message.
pub fn book(before: Bookings, body: &[u8], line: &mut [u8]) -> Told<Bookings>
    requires { Reached before × (512 ≤ length line.old) }
    ensures { Reached result.state
        × BookTells before body.now line.old line.new result }
{
    if body.len() < 17 {
        return Told {
            state: before,
            line: None,
        };
    }
    booked(before, records::four(body, 0), &body[4..], line)
}
