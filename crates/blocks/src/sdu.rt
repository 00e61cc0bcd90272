// The DM-SDU in a block's room.
ghost use Rattle.std.specs.Prelude.{◌≡◌, ◌+◌, ◌∷◌, [], length, IfOk};
ghost use Rattle.std.proofs.Math.Seq.{slice};
ghost use Rattle.bits.specs.Bits.{bits_of, Inside};
ghost use Rattle.blocks.specs.Faults.{refusal, unless, first_of};
ghost use Rattle.blocks.specs.Sdu.{sdu_of, is_there, bits_of_message};

use crate::fault::Fault;

// Where the message ends in the room from bit `from` up to bit `to`, or fault 11, where fill is told of and the room
// holds no 1.
pub(crate) fn sdu_end(s: &[u8], fill: u8, from: usize, to: usize) -> Result<usize, Fault>
    requires { Inside (length s.now) from to }
    ensures faults { refusal result
        ≡ first_of (unless (is_there (sdu_of fill (slice from to (bits_of s.now)))) 11 ∷ []) }
    ensures end { IfOk result (λ n. n ≡ from + length (bits_of_message (sdu_of fill (slice from to (bits_of s.now))))) }
{
    if fill != 1 {
        return Ok(to);
    }
    bits::last_one(s, from, to).ok_or(Fault::Fill)
}
