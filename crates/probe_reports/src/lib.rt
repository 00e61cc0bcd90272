// The calls that give another receiver, made as records name them: settings and slot reports, each with its answer's
// line.
#![tactic(auto)]

ghost use Rattle.std.specs.Prelude.{◌≡◌, ◌≤◌, length};
ghost use Rattle.receiver.specs.Reached.{Reached};
ghost use Rattle.lines.specs.Lines.{Stands};
ghost use Rattle.probe_reports.specs.Reports.{handed_by_reply, answer_numbers, lost_numbers, report_text, unit_text};
ghost use Rattle.probe_reports.specs.Reports.{HeardInto, UnitTells, ReportTells};

use history::Lost;
use lines::line::{BEFORE, Told, line_of, line_then, unknown};
use receiver::Receiver;
use receiver::answer::Answer;

fn unit_line(out: &mut [u8], fault: u8) -> usize
    requires { 512 ≤ length out.old }
    ensures { Stands out.old (unit_text fault) out.new result }
{
    let ns = [u64::from(fault)];
    line_of(out, b"unit", &ns)
}

fn answer_numbers(a: Answer) -> [u64; 12]
    ensures { result ≡ answer_numbers a }
{
    let g = a.fields;
    [
        u64::from(a.outcome),
        u64::from(a.dropped),
        u64::from(a.fault),
        a.bits as u64,
        u64::from(g.destination.kind),
        u64::from(g.destination.ssi),
        u64::from(g.source.kind),
        u64::from(g.source.ssi),
        u64::from(g.mni),
        u64::from(g.message),
        u64::from(g.width),
        g.elements,
    ]
}

// Of a message that is lost. Kept: `as` of a `usize`, of which a `u64` is no `From`.
fn lost_numbers(x: Lost) -> [u64; 3]
    ensures { result ≡ lost_numbers x }
{
    [u64::from(x.source), u64::from(x.message), x.bits as u64]
}

fn report_line(out: &mut [u8], a: Answer, s: &[u8]) -> usize
    requires { (handed_by_reply a ≤ length s.now) × (length s.now ≤ 1024) × (4096 ≤ length out.old) }
    ensures { Stands out.old (report_text a s.now) out.new result }
{
    let ns = answer_numbers(a);
    let lost = lost_numbers(a.lost);
    line_then(out, b"report", &ns, s, (a.bits + 7) / 8, &lost)
}

// Kept: receiver, body and line are arguments: a struct of them would be made in `tell` and taken apart here, which is
// no plainer. `Reached` stands in each contract, as `hear` asks it.
pub fn unit(before: Receiver, body: &[u8], line: &mut [u8]) -> Told<Receiver>
    requires { Reached before × (512 ≤ length line.old) }
    ensures { Reached result.state
        × UnitTells before body.now line.old line.new result }
{
    if body.len() < 12 {
        return Told {
            state: before,
            line: None,
        };
    }
    let fresh = Receiver::fresh(
        records::four(body, 0),
        records::four(body, 4),
        records::four(body, 8),
    );
    let receiver = fresh.receiver;
    Told {
        state: receiver,
        line: Some(unit_line(line, fresh.fault)),
    }
}

// A report with this buffer for a message.
fn heard(before: Receiver, body: &[u8], message: &mut [u8], line: &mut [u8]) -> Told<Receiver>
    requires { Reached before × (5 ≤ length body.now) × (length message.old ≤ 1024)
        × (4096 ≤ length line.old) }
    ensures { Reached result.state
        × HeardInto before body.now message.old line.old line.new result }
{
    let reply = before.hear(body[0], body[1], body[2], &body[5..], message);
    let after = reply.receiver;
    let answer = reply.answer;
    Told {
        state: after,
        line: Some(report_line(line, answer, message)),
    }
}

pub fn report(before: Receiver, body: &[u8], line: &mut [u8]) -> Told<Receiver>
    requires { Reached before × (4096 ≤ length line.old) }
    ensures { Reached result.state
        × ReportTells before body.now line.old line.new result }
{
    if body.len() < 5 {
        return Told {
            state: before,
            line: None,
        };
    }
    let lent = usize::from(records::two_at(body, 3));
    if 1024 < lent {
        return Told {
            state: before,
            line: unknown(line),
        };
    }
    // Kept: lent here and not by `line_of_build`, since a report goes to a receiver too, and a buffer that is too long
    // leaves that as it was.
    let mut message = [BEFORE; 1024];
    heard(before, body, &mut message[..lent], line)
}
