// The frame check sequence (EN 300 396-3, Annex B): its long division over a register of 32 bits, the first bit
// highest.
#![tactic(auto)]

ghost use Rattle.std.specs.Prelude.{◌≡◌, ◌≤◌, length, take};
ghost use Rattle.bits.specs.Bits.{num, bits_n, bits_of, Inside};
ghost use Rattle.fcs.specs.Annex.{fcs_of};
ghost use Rattle.fcs.specs.Register.{ones, fed, turns, Fours};

// What a frame of `n` bits begins with.
fn start(n: usize) -> u32
    ensures { result ≡ num (ones 32 n) }
{
    if n < 32 {
        return !(0xffffffff >> n);
    }
    0xffffffff
}

// The remainder of each string of four bits times x^32.
const FOUR: [u32; 16] = [
    0x00000000, 0x04c11db7, 0x09823b6e, 0x0d4326d9, 0x130476dc, 0x17c56b6b, 0x1a864db2, 0x1e475005,
    0x2608edb8, 0x22c9f00f, 0x2f8ad6d6, 0x2b4bcb61, 0x350c9b64, 0x31cd86d3, 0x3c8ea00a, 0x384fbdbd,
];

// Up to four steps of the division at once.
fn turned(table: &[u32; 16], c: u32, k: usize) -> u32
    requires { Fours table.now × (k ≤ 4) }
    ensures { result ≡ num (turns k (bits_n 32 c)) }
{
    table[((c >> 1) >> (31 - k)) as usize] ^ (c << k)
}

// The register after the first `k` bits of a byte.
fn after(table: &[u32; 16], c: u32, x: u8, k: usize) -> u32
    requires { Fours table.now × (1 ≤ k) × (k ≤ 8) }
    ensures { result ≡ num (fed (bits_n 32 c) (take k (bits_n 8 x))) }
{
    let first = k.min(4);
    let full = c ^ ((u32::from(x) >> (8 - k)) << (32 - k));
    turned(table, turned(table, full, first), k - first)
}

// The FCS of the first `n` bits: the table is laid down once, then two steps of four for each byte.
// Kept: `n` beside the bytes: it counts bits, and the last byte may be taken in part.
pub fn fcs_of(s: &[u8], n: usize) -> u32
    requires { Inside (length s.now) 0 n }
    ensures { result ≡ num (fcs_of (take n (bits_of s.now))) }
{
    let table = FOUR;
    let whole = n / 8;
    let mut c = start(n);
    for &x in &s[..whole] {
        c = after(&table, c, x, 8);
    }
    let k = n % 8;
    if k == 0 {
        return !c;
    }
    !after(&table, c, s[whole], k)
}
