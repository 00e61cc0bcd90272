// The room that a log is read into, part by part.
ghost use Rattle.std.specs.Prelude.{◌≡◌, ◌++◌, ◌-◌, ◌≤◌, length, take, drop};

// Moves the bytes from place `from` up to place `to` to the start; those after them stay.
pub(crate) fn to_start(room: &mut [u8], from: usize, to: usize)
    requires { (from ≤ to) × (to ≤ length room.old) }
    ensures { room.new
        ≡ take (to - from) (drop from room.old) ++ drop (to - from) room.old }
{
    room.copy_within(from..to, 0);
}
