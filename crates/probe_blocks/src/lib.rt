// The calls that leave a receiver alone, made as records name them: builds, reads and the layout, each with its
// answer's line.
#![tactic(auto)]

mod body;
mod calls;
mod print;

ghost use Rattle.std.specs.Prelude.{◌≤◌, length};
ghost use Rattle.lines.specs.Lines.{Says};
ghost use Rattle.probe_blocks.specs.Calls.{record_line};

use lines::line::unknown;

// The line of a record that leaves the receiver alone.
// Kept: a `match` on the record's kind, a number as `record_line` has it: each kind has its own call, and what each
// asks of the line's buffer is its own.
pub fn answer(kind: u16, body: &[u8], line: &mut [u8]) -> Option<usize>
    requires { 4096 ≤ length line.old }
    ensures { Says line.old (record_line kind body.now) line.new result }
{
    match kind {
        5 => calls::build(body, line),
        6 => calls::header(body, line),
        7 => calls::block(body, line),
        8 => calls::frame(body, line),
        _ => unknown(line),
    }
}
