// The layout of a fragmented message over slots.
ghost use Rattle.std.specs.Prelude.{◌≡◌};
ghost use Rattle.blocks.specs.Faults.{refusal, first_of};
ghost use Rattle.blocks.specs.Slots.{frame_number, frames_to, due_frame, due_checks, since1, due_of};

use crate::fault::Fault;

// A frame, or the number of the refusal. Kept: C has this struct.
#[repr(C)]
#[derive(Clone, Copy, Default)]
pub struct Due {
    pub fault: u8,
    pub frame: u8,
}

// Frames 1 to 17 counted on from frame 1, as blocks go in them: how many lie before that of block `i`, from 0, after a
// header in frame `x` with countdown `f`. Kept: three numbers, here and below, as the call for C and the definitions
// have them.
fn since_1(x: u8, f: u8, i: u8) -> u16
    ensures { result ≡ since1 x f i }
{
    (u16::from(x) + u16::from(f)) % 18 + u16::from(i)
}

// The frames from frame `x` to that of block `i`: frame 18 is passed once after each 17.
#[tactic(auto, using(crate::proofs::SlotLaws::frames_counted))]
pub fn frames_to(x: u8, f: u8, i: u8) -> u16
    ensures { result ≡ frames_to x f i }
{
    let passed = since_1(x, f, i) / 17;
    u16::from(f) + u16::from(i) + 1 + passed
}

// That frame's number.
#[tactic(auto, using(crate::proofs::SlotLaws::due_counted))]
pub fn frame_of(x: u8, f: u8, i: u8) -> u8
    ensures { result ≡ due_frame x f i }
{
    (since_1(x, f, i) % 17 + 1) as u8 // Kept: `try_from` has an error that cannot come
}

// The number of the frame that comes `k` frames after frame `x`.
pub fn frame_number(x: u8, k: u16) -> u8
    ensures { result ≡ frame_number x k }
{
    let n = u32::from(x) + u32::from(k);
    if n == 0 {
        return 1;
    }
    ((n - 1) % 18 + 1) as u8 // Kept: as in `frame_of`
}

// The first of the faults 7, 13 and 14 that these numbers give.
fn due_rules(x: u8, f: u8, i: u8) -> Result<(), Fault>
    ensures { refusal result ≡ first_of (due_checks x f i) }
{
    if x < 1 || 18 < x {
        return Err(Fault::Frame);
    }
    if 3 < f {
        return Err(Fault::Range);
    }
    if 14 < i {
        return Err(Fault::TooLong);
    }
    Ok(())
}

// The frame of block `i`, from 0, of a message whose header stands in frame `x` with countdown `f`.
#[tactic(auto, unfolding(crate::specs::Slots::due_of))]
pub fn due_frame(x: u8, f: u8, i: u8) -> Due
    ensures { result ≡ due_of x f i }
{
    match due_rules(x, f, i) {
        Ok(()) => Due {
            fault: 0,
            frame: frame_of(x, f, i),
        },
        Err(fault) => Due {
            fault: fault.number(),
            ..Due::default()
        },
    }
}
