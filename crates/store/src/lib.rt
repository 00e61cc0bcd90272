// The store of an assembly, 512 bytes: what goes into it and out of it; and SCH/H but for its countdown, as two
// numbers.
// Kept: a run of bits is three arguments, `s`, `from` and `n`, as `bits::copy` takes them. What a report brings has the
// two numbers already, and its bytes are lent apart: a struct of the three would be made at each call, which is no
// plainer.
#![tactic(auto)]

ghost use Rattle.std.specs.Prelude.{◌≡◌, [], ◌+◌, ◌≤◌, length, take, drop};
ghost use Rattle.bits.specs.Bits.{bits_of, Inside};
ghost use Rattle.store.specs.Store.{store_of, joined_to, first_over, without, same_raw};

// A block of 16 bytes as two numbers: its first 64 bits and the others.
#[repr(C)]
#[derive(Clone, Copy, PartialEq, Eq, Default)]
pub struct Raw {
    pub high: u64,
    pub low: u64,
}

// A store that holds nothing.
#[tactic(auto, using(crate::proofs::Stores::store_nothing))]
pub fn nothing() -> [u8; 512]
    ensures { result ≡ store_of [] }
{
    [0; 512]
}

// Puts `n` bits of `s`, from bit `from` on, into a lent store, after the `at` bits that it holds.
// Kept: a slice with its length in the contract, for the proof over `&mut [u8; 512]` did not close: of a lent array the
// check knows after a call its length alone, and that each of its numbers is below 256 stood open.
pub fn join(store: &mut [u8], at: usize, s: &[u8], from: usize, n: usize)
    requires inside { Inside (length s.now) from (from + n) }
    requires room { at + n ≤ 4096 }
    requires whole { length store.old ≡ 512 }
    ensures { store.new
        ≡ joined_to store.old at (take n (drop from (bits_of s.now))) }
{
    bits::copy(s, from, store, at, n);
}

// Makes a lent store hold nothing.
#[tactic(auto, using(crate::proofs::Stores::store_nothing))]
pub fn wipe(store: &mut [u8])
    requires { length store.old ≡ 512 }
    ensures { store.new ≡ store_of [] }
{
    store.fill(0);
}

// Hands the `n` bits that a store holds over: to the message's start.
// Kept: a loop: of two lent slices the compiler does not know that they are apart, so `copy_from_slice` would take
// `memmove`, and the library for C needs `memcpy` and `memset` alone.
fn hand_over(store: &[u8], n: usize, message: &mut [u8])
    requires few { n ≤ 4096 }
    requires whole { length store.now ≡ 512 }
    requires long { 512 ≤ length message.old }
    ensures { message.new ≡ first_over n store.now message.old }
{
    let whole = (n + 7) / 8;
    for (i, &byte) in store[..whole].iter().enumerate() {
        message[i] = byte;
    }
}

// Hands the `at` bits that a store holds over, and `n` bits of `s`, from bit `from` on, after them.
pub fn hand_joined(store: &[u8], at: usize, s: &[u8], from: usize, n: usize, message: &mut [u8])
    requires inside { Inside (length s.now) from (from + n) }
    requires room { at + n ≤ 4096 }
    requires whole { length store.now ≡ 512 }
    requires long { 512 ≤ length message.old }
    ensures { message.new
        ≡ first_over (at + n) (joined_to store.now at (take n (drop from (bits_of s.now))))
        message.old }
{
    hand_over(store, at + n, message);
    bits::copy(s, from, message, at, n);
}

// Hands `n` bits of `s`, from bit `from` on, over: what a store that held nothing would hold after them.
pub fn hand_block(s: &[u8], from: usize, n: usize, message: &mut [u8])
    requires inside { Inside (length s.now) from (from + n) }
    requires few { n ≤ 4096 }
    requires long { 512 ≤ length message.old }
    ensures { message.new
        ≡ first_over n (joined_to (store_of []) 0 (take n (drop from (bits_of s.now))))
        message.old }
{
    bits::clear(message, 0, (n + 7) / 8 * 8);
    bits::copy(s, from, message, 0, n);
}

// A block of 16 bytes with the two bits from bit `at` on zero, as two numbers.
pub fn without_two(h: &[u8], at: usize) -> Raw
    requires { (length h.now ≡ 16) × (6 ≤ at) × (at ≤ 56) }
    ensures { result ≡ without at h.now }
{
    let high = (bits::get::<u64>(h, 0, at) << (64 - at)) | bits::get::<u64>(h, at + 2, 62 - at);
    let low = (bits::get::<u64>(h, 64, 32) << 32) | bits::get::<u64>(h, 96, 32);
    Raw { high, low }
}

// Whether two such blocks are the same.
pub fn same(a: Raw, b: Raw) -> bool
    ensures { result ≡ same_raw a b }
{
    a == b
}
