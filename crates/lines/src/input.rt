// Records from standard input: two bytes length of what follows, two bytes kind, body.
ghost use Rattle.std.specs.Prelude.{◌≤◌, take};
ghost use Rattle.std.specs.Io.KnownBytes.{Consumes};
ghost use Rattle.lines.specs.Lines.{IsPrefixLen, Held};
ghost use Rattle.lines.specs.Input.{Took};

use records::two_at;
use std::io::Read;

// What was read: a record's kind and the length of its body, which stands at the buffer's start.
// Kept: an enum of its own, since there are three cases; `Result<Option<..>, ..>` would say `Cut` by an error's name.
#[derive(Clone, Copy)]
pub enum Taken {
    Record(u16, usize),
    Cut,
    End,
}

// Reads until `run` is full, the input ends or a read fails, and answers how many bytes it put at the start of `run`.
// On an empty `run` it makes no call.
pub fn read_full<R: Read>(input: &mut R, run: &mut [u8]) -> usize
    ensures in_bounds { IsPrefixLen result run.new }
    ensures bytes { Consumes (R.remaining input.old) (R.remaining input.new) (take result run.new) }
{
    // Kept: no index is counted here; a read says how many bytes to go on by, and std's `read_exact` does not.
    let mut done = 0;
    while done < run.len() {
        match input.read(&mut run[done..]) {
            Ok(0) => break,
            Ok(n) => done += n,
            Err(_) => break,
        }
    }
    done
}

// Reads `n` bytes to the start of `run`, and answers how many of them were there; 0 where `run` is shorter.
// Kept: `n` beside `run`, since a record may tell of more bytes than `run` has.
fn fill<R: Read>(input: &mut R, run: &mut [u8], n: usize) -> usize
    ensures in_bounds { IsPrefixLen result run.new }
    ensures at_most { result ≤ n }
    ensures bytes { Consumes (R.remaining input.old) (R.remaining input.new) (take result run.new) }
{
    if run.len() < n {
        return 0;
    }
    read_full(input, &mut run[..n])
}

// Takes the next record. `Cut` is one that is cut off, has a length below 2, or a body that is longer than the
// buffer. A buffer below four bytes takes none.
pub fn take<R: Read>(input: &mut R, body: &mut [u8]) -> Taken
    ensures held { Held result body.new }
    ensures took { Took (R.remaining input.old) (R.remaining input.new) result body.new }
{
    let got = fill(input, body, 4);
    if got == 0 {
        return Taken::End;
    }
    if got < 4 {
        return Taken::Cut;
    }
    let length = usize::from(two_at(body, 0));
    let kind = two_at(body, 2);
    if length < 2 {
        return Taken::Cut;
    }
    let n = length - 2;
    let came = fill(input, body, n);
    if came != n {
        return Taken::Cut;
    }
    Taken::Record(kind, came)
}
