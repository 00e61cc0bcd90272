// A reader over a lent block that remembers its bit position.
#![tactic(auto)]

ghost use Rattle.std.specs.Prelude.{◌≡◌, ◌*◌, ◌^◌, min, length};
ghost use Rattle.reader.specs.Reading.{number_of, left_of, step_of, taken_at, skipped_at, step_by, answer_of, moved_to};
ghost use Rattle.reader.specs.Reading.{By, number_answer, skip_answer};

// A lent block, and a position in it, counted in bits.
#[derive(Clone, Copy)]
pub struct Reader<'a> {
    pub block: &'a [u8],
    pub at: usize,
}

// A step from a position: fault 0, a number, and the position after it. A refusal has its fault number, no number (0),
// and the position as it was.
// Kept: fault and value are the C interface's.
#[repr(C)]
#[derive(Clone, Copy)]
pub struct Step {
    pub fault: u8,
    pub value: u64,
    pub at: usize,
}

// Why a step is refused, by its fault number.
#[derive(Clone, Copy, PartialEq, Eq)]
pub enum Refusal {
    // Fewer bits are left.
    Short = 1,

    // A width above 56.
    Wide = 13,
}

impl Refusal {
    // Its fault number.
    pub fn number(self) -> u8
        ensures { result ≡ number_of self }
    {
        self as u8
    }
}

// A step that is made: a number, and the position after it.
#[derive(Clone, Copy)]
struct Made {
    value: u64,
    at: usize,
}

// As many bits of a block count, and so many bytes have them.
const MOST: usize = 1 << 32;

const MOST_BYTES: usize = MOST / 8;

// How many bits can be read: those of the block, but no more than 2^32.
fn bits_in(s: &[u8]) -> usize
    ensures { result ≡ min (8 * length s.now) (2 ^ 32) }
{
    if s.len() < MOST_BYTES {
        8 * s.len()
    } else {
        MOST
    }
}

// How many bits are left from bit `at` on: none past the end. Of a block above 2^29 bytes only the first 2^32 bits
// count.
#[tactic(auto, unfolding(crate::specs::Reading::left_of))]
// Kept: a block and a bit of it, here and below, as C hands them over.
pub fn left_at(s: &[u8], at: usize) -> usize
    ensures { result ≡ left_of s.now at }
{
    bits_in(s).saturating_sub(at)
}

// A step past the `n` bits from bit `at` on: `Short` where fewer are left.
#[tactic(auto, unfolding(crate::specs::Reading::skipped_at, crate::specs::Reading::left_of))]
fn skipped(s: &[u8], at: usize, n: usize) -> Result<Made, Refusal>
    ensures { step_of at result ≡ skipped_at s.now at n }
{
    if left_at(s, at) < n {
        return Err(Refusal::Short);
    }
    Ok(Made {
        value: 0,
        at: at + n,
    })
}

// A step past the `w` bits from bit `at` on, with their number: `Wide` where `w` is above 56, then `Short` where fewer
// are left.
#[tactic(auto, unfolding(crate::specs::Reading::taken_at, crate::specs::Reading::skipped_at))]
fn taken(s: &[u8], at: usize, w: usize) -> Result<Made, Refusal>
    ensures { step_of at result ≡ taken_at s.now at w }
{
    if 56 < w {
        return Err(Refusal::Wide);
    }
    let past = skipped(s, at, w)?;
    // It takes no bits, and may stand past the end.
    if w == 0 {
        return Ok(past);
    }
    let to = past.at;
    Ok(Made {
        value: bits::get(s, at, w),
        at: to,
    })
}

// The step as C has it, from bit `at` on.
fn stepped(at: usize, made: Result<Made, Refusal>) -> Step
    ensures { result ≡ step_of at made }
{
    match made {
        Ok(to) => Step {
            fault: 0,
            value: to.value,
            at: to.at,
        },
        Err(refusal) => Step {
            fault: refusal.number(),
            value: 0,
            at,
        },
    }
}

// A step past the `n` bits from bit `at` on. Refused with 1 where fewer are left.
pub fn skip_at(s: &[u8], at: usize, n: usize) -> Step
    ensures { result ≡ skipped_at s.now at n }
{
    stepped(at, skipped(s, at, n))
}

// A step past the `w` bits from bit `at` on, with their number. Refused with 13 where `w` is above 56, then with 1
// where fewer are left.
pub fn take_at(s: &[u8], at: usize, w: usize) -> Step
    ensures { result ≡ taken_at s.now at w }
{
    stepped(at, taken(s, at, w))
}

// A reader at the first bit of a block.
pub fn over<'a>(block: &'a [u8]) -> Reader<'a>
    ensures { (result.block ≡ block.entry) × (result.at ≡ 0) }
{
    Reader { block, at: 0 }
}

impl<'a> Reader<'a> {
    // Moves by a step from where it stands, and answers the step's number. A refusal leaves the reader where it is.
    fn by<F: Fn(&[u8], usize, usize) -> Result<Made, Refusal>>(
        &mut self,
        step: F,
        n: usize,
    ) -> Result<u64, Refusal>
        requires { F.IsAlwaysCallable step }
        ensures { (r : _) × F.post step self.old.block self.old.at n r × By r self.old result self.new }
    {
        let made = step(self.block, self.at, n)?;
        self.at = made.at;
        Ok(made.value)
    }

    // Moves by any step over block, position and number, to where the step says, made or refused, and answers the step.
    pub fn move_by<F: FnOnce(&[u8], usize, usize) -> Step>(&mut self, step: F, n: usize) -> Step
        requires { F.IsAlwaysCallable step }
        ensures answer { F.post step self.old.block self.old.at n result }
        ensures moved { self.new ≡ moved_to result self.old }
    {
        let to = step(self.block, self.at, n);
        self.at = to.at;
        to
    }

    // Takes the next `w` bits as a number, by `take_at`, and moves past them. A refusal leaves the reader where it is.
    pub fn take(&mut self, w: usize) -> Result<u64, Refusal>
        ensures answer { number_answer result ≡ answer_of (step_by taken_at self.old w) }
        ensures moved { self.new ≡ moved_to (step_by taken_at self.old w) self.old }
    {
        self.by(taken, w)
    }

    // Moves past the next `n` bits, by `skip_at`. A refusal leaves the reader where it is.
    pub fn skip(&mut self, n: usize) -> Result<(), Refusal>
        ensures answer { skip_answer result ≡ answer_of (step_by skipped_at self.old n) }
        ensures moved { self.new ≡ moved_to (step_by skipped_at self.old n) self.old }
    {
        self.by(skipped, n)?;
        Ok(())
    }

    // How many bits are left.
    pub fn left(&self) -> usize
        ensures { result ≡ left_of self.now.block.now self.now.at }
    {
        left_at(self.block, self.at)
    }
}
