// The answers' lines.
// Kept: a function for each kind, since word and numbers are all that is in one; `as` of a `usize`, of which a `u64` is
// no `From`.
ghost use Rattle.std.specs.Prelude.{◌≡◌, ◌≤◌, length};
ghost use Rattle.lines.specs.Lines.{Stands};
ghost use Rattle.probe_transport.specs.Calls.{transport_numbers, transport_text, written_by, sdu_text, book_text};

use bookings::Booked;
use lines::line::{line_of, line_with};
use transport::{Sdu, Transport};

fn transport_numbers(t: Transport) -> [u64; 17]
    ensures { result ≡ transport_numbers t }
{
    let m = t.message;
    [
        u64::from(t.fault),
        u64::from(m.kind),
        u64::from(m.addressed),
        u64::from(m.mni),
        u64::from(m.ssi),
        u64::from(m.protocol),
        u64::from(m.request),
        u64::from(m.short),
        u64::from(m.required),
        u64::from(m.storage),
        u64::from(m.status),
        u64::from(m.reference),
        u64::from(m.validity),
        u64::from(m.forward),
        m.address,
        t.first as u64,
        t.bits as u64,
    ]
}

pub(crate) fn read(out: &mut [u8], t: Transport) -> usize
    requires { 512 ≤ length out.old }
    ensures { Stands out.old (transport_text t) out.new result }
{
    let ns = transport_numbers(t);
    line_of(out, b"transport", &ns)
}

pub(crate) fn sdu(out: &mut [u8], b: Sdu, s: &[u8]) -> usize
    requires { (written_by b ≤ length s.now) × (length s.now ≤ 1024) × (4096 ≤ length out.old) }
    ensures { Stands out.old (sdu_text b s.now) out.new result }
{
    let ns = [u64::from(b.fault), b.bits as u64];
    line_with(out, b"sdu", &ns, s, (b.bits + 7) / 8)
}

pub(crate) fn book(out: &mut [u8], b: Booked) -> usize
    requires { 512 ≤ length out.old }
    ensures { Stands out.old (book_text b) out.new result }
{
    let t = b.transport;
    let ns = [
        u64::from(t.fault),
        u64::from(b.mark),
        u64::from(t.message.kind),
        u64::from(t.message.reference),
    ];
    line_of(out, b"book", &ns)
}
