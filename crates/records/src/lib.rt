// The numbers of a record, the lowest byte first.
#![tactic(auto)]

ghost use Rattle.std.specs.Prelude.{◌≡◌, ◌+◌, ◌*◌, ◌≤◌, length, take, drop};
ghost use Rattle.records.specs.Numbers.{two_at, four_at, eight_at};

// The number of two bytes.
pub fn two(low: u8, high: u8) -> u16
    ensures { result ≡ low + 256 * high }
{
    u16::from_le_bytes([low, high])
}

// The `N` bytes of `body` from place `at` on.
fn bytes_at<const N: usize>(body: &[u8], at: usize) -> [u8; N]
    requires { at + N ≤ length body.now }
    ensures { result ≡ take N (drop at body.now) }
{
    body[at..at + N].try_into().unwrap()
}

// Kept: a body and a place in it, as a record's table names them.
// Kept: three functions by name; one over the type would take a trait with an impl for each width, of these same lines.
// The number of the two bytes of `body` from place `at` on.
pub fn two_at(body: &[u8], at: usize) -> u16
    requires { at + 2 ≤ length body.now }
    ensures { result ≡ two_at body.now at }
{
    u16::from_le_bytes(bytes_at(body, at))
}

// The number of the four bytes of `body` from place `at` on.
pub fn four(body: &[u8], at: usize) -> u32
    requires { at + 4 ≤ length body.now }
    ensures { result ≡ four_at body.now at }
{
    u32::from_le_bytes(bytes_at(body, at))
}

// The number of the eight bytes of `body` from place `at` on.
pub fn eight(body: &[u8], at: usize) -> u64
    requires { at + 8 ≤ length body.now }
    ensures { result ≡ eight_at body.now at }
{
    u64::from_le_bytes(bytes_at(body, at))
}
