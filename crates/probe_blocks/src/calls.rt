// A call for each kind of record: its answer's line.
ghost use Rattle.std.specs.Prelude.{◌≡◌, ◌≤◌, length};
ghost use Rattle.lines.specs.Lines.{Stands, Says};
ghost use Rattle.probe_blocks.specs.Calls.{built_text, build_line, header_line, block_line, frame_line};

use crate::{body, print};
use lines::line::line_of_build;

// A build into this output.
fn built(body: &[u8], out: &mut [u8], line: &mut [u8]) -> usize
    requires { (35 ≤ length body.now) × (length out.old ≤ 1024) × (4096 ≤ length line.old) }
    ensures { Stands line.old (built_text body.now out.old) line.new
        result }
{
    let sync = body::sync(body);
    let fields = body::fields(body);
    // Kept: `as`, since a `usize` is no `From` of a `u32`.
    let n = records::four(body, 29) as usize;
    let b = build::build(sync, body[4], fields, n, &body[35..], out);
    print::build(line, b, out)
}

pub(crate) fn build(body: &[u8], line: &mut [u8]) -> Option<usize>
    requires { 4096 ≤ length line.old }
    ensures { Says line.old (build_line body.now) line.new result }
{
    let mut out = [0u8; 1024];
    line_of_build(body, &mut out, line, built)
}

pub(crate) fn header(body: &[u8], line: &mut [u8]) -> Option<usize>
    requires { 512 ≤ length line.old }
    ensures { Says line.old (header_line body.now) line.new result }
{
    if body.len() < 2 {
        return None;
    }
    let at = 2 + usize::from(body[0]);
    let end = at + usize::from(body[1]);
    if body.len() < end {
        return None;
    }
    let h = blocks::header::read_header(&body[2..at], &body[at..end]);
    Some(print::header(line, h))
}

pub(crate) fn block(body: &[u8], line: &mut [u8]) -> Option<usize>
    requires { 512 ≤ length line.old }
    ensures { Says line.old (block_line body.now) line.new result }
{
    let b = blocks::continuation::read_continuation(body);
    Some(print::block(line, b))
}

pub(crate) fn frame(body: &[u8], line: &mut [u8]) -> Option<usize>
    requires { 512 ≤ length line.old }
    ensures { Says line.old (frame_line body.now) line.new result }
{
    let [x, f, i, ..] = body else {
        return None;
    };
    let d = blocks::slots::due_frame(*x, *f, *i);
    Some(print::frame(line, d))
}
