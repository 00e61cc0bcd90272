// The widths and values of a call of `put_all`.
ghost use Rattle.std.specs.Prelude.{◌≡◌, ◌^◌, ◌≤◌, ◌<◌, length};
ghost use Rattle.bits_vectors.specs.Measure.{Measured};

// What fits `w` bits of `v`: all of it, where its value does.
pub(crate) fn low(v: u64, w: usize) -> u64
    requires { w ≤ 56 }
    ensures { result < 2 ^ w }
{
    v % (1 << w)
}

// As many numbers of eight bytes, one after another, as `out` takes.
pub(crate) fn values(b: &[u8], out: &mut [u64]) {
    for (value, bytes) in out.iter_mut().zip(b.chunks_exact(8)) {
        *value = records::eight(bytes, 0);
    }
}

// How many bits the parts have together, where each value fits its width and no width is above 56.
pub(crate) fn measure(widths: &[u8], values: &[u64]) -> Option<usize>
    requires pairs { length widths.now ≡ length values.now }
    requires few { length widths.now ≤ 32 }
    ensures { Measured widths.now values.now result }
{
    let mut sum = 0;
    for (&width, &v) in widths.iter().zip(values) {
        let w = usize::from(width);
        if 56 < w || low(v, w) != v {
            return None;
        }
        sum += w;
    }
    Some(sum)
}
