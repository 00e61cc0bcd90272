// The answers' lines.
// Kept: a function for each kind, since word and numbers are all that is in one; `as` of a `usize`, of which a `u64` is
// no `From`.
ghost use Rattle.std.specs.Prelude.{◌≡◌, ◌≤◌, length};
ghost use Rattle.lines.specs.Lines.{Stands};
ghost use Rattle.probe_blocks.specs.Calls.{written_by, build_text, header_numbers, header_text, block_text, frame_text};

use blocks::continuation::Continuation;
use blocks::header::Header;
use blocks::slots::Due;
use build::Built;
use lines::line::{line_of, line_with};

// How many bytes a build wrote.
fn built_bytes(b: Built) -> usize
    ensures { result ≡ written_by b }
{
    if b.fault != 0 {
        return 0;
    }
    24 + 34 * usize::from(b.blocks)
}

pub(crate) fn build(out: &mut [u8], b: Built, s: &[u8]) -> usize
    requires { (written_by b ≤ length s.now) × (length s.now ≤ 1024) × (4096 ≤ length out.old) }
    ensures { Stands out.old (build_text b s.now) out.new result }
{
    let ns = [u64::from(b.fault), u64::from(b.blocks)];
    line_with(out, b"build", &ns, s, built_bytes(b))
}

fn header_numbers(h: Header) -> [u64; 18]
    ensures { result ≡ header_numbers h }
{
    let sync = h.sync;
    let fields = h.fields;
    [
        u64::from(h.fault),
        u64::from(sync.system),
        u64::from(sync.usage),
        u64::from(sync.slot),
        u64::from(sync.frame),
        u64::from(h.fragmented),
        u64::from(h.count),
        u64::from(h.countdown),
        u64::from(fields.destination.kind),
        u64::from(fields.destination.ssi),
        u64::from(fields.source.kind),
        u64::from(fields.source.ssi),
        u64::from(fields.mni),
        u64::from(fields.message),
        u64::from(fields.width),
        fields.elements,
        h.first as u64,
        h.bits as u64,
    ]
}

pub(crate) fn header(out: &mut [u8], h: Header) -> usize
    requires { 512 ≤ length out.old }
    ensures { Stands out.old (header_text h) out.new result }
{
    let ns = header_numbers(h);
    line_of(out, b"header", &ns)
}

pub(crate) fn block(out: &mut [u8], b: Continuation) -> usize
    requires { 512 ≤ length out.old }
    ensures { Stands out.old (block_text b) out.new result }
{
    let ns = [
        u64::from(b.fault),
        u64::from(b.last),
        b.first as u64,
        b.bits as u64,
    ];
    line_of(out, b"block", &ns)
}

pub(crate) fn frame(out: &mut [u8], d: Due) -> usize
    requires { 512 ≤ length out.old }
    ensures { Stands out.old (frame_text d) out.new result }
{
    let ns = [u64::from(d.fault), u64::from(d.frame)];
    line_of(out, b"frame", &ns)
}
