// Bytes as frames and store images use them: big-endian numbers, zero fill, and byte strings
// compared. Each function is total: it answers something defined for any slices.
#![tactic(auto)]

ghost use Rattle.std.specs.Prelude.{◌≡◌, ◌^◌, ◌<◌, ◌≤◌, min, length, take};
ghost use Rattle.wire.specs.Number.{be, num};
ghost use Rattle.wire.specs.Fill.{zeros, padded, field};
ghost use Rattle.wire.specs.Order.{same_bytes, comparison, starts_with};

use std::cmp::Ordering;

// Where a part of a slice stands: `len` bytes from `at` on.
#[derive(Clone, Copy, Debug, PartialEq, Eq)]
pub struct Span {
    pub at: usize,
    pub len: usize,
}

impl Span {
    // That part of `s`, as much of it as there is.
    pub fn of(self, s: &[u8]) -> &[u8]
        ensures { result.now ≡ field self.at self.len s.now }
    {
        part(s, self.at, self.len)
    }
}

// The `len` bytes of `s` from `at` on, as much of them as there is.
pub fn part(s: &[u8], at: usize, len: usize) -> &[u8]
    ensures { result.now ≡ field at len s.now }
{
    let rest = &s[at.min(s.len())..];
    // a test, and no `min`: a part that is all there has a length that the caller knows
    if rest.len() < len {
        return rest;
    }
    &rest[..len]
}

// Fills `out` with `n`, the highest byte first.
pub fn put_be(out: &mut [u8], n: u64)
    ensures { out.new ≡ be (length out.old) n }
{
    let mut x = n;
    for i in (0..out.len()).rev() {
        out[i] = (x % 256) as u8;
        x /= 256;
    }
}

// The number that `s` stands for; of more than eight bytes, the first eight.
pub fn get_be(s: &[u8]) -> u64
    ensures { result ≡ num (take 8 s.now) }
{
    let mut x: u64 = 0;
    for b in &s[..s.len().min(8)] {
        x = x * 256 + *b as u64;
    }
    x
}

// The number in the `width` bytes of `s` from `at` on, as much of them as there is; of more than
// eight bytes, the first eight.
pub fn number_at(s: &[u8], at: usize, width: usize) -> u64
    ensures is { result ≡ num (field at (min width 8) s.now) }
    ensures fits { result < 256 ^ min width 8 }
{
    let cut = part(s, at, width);
    if cut.len() < width {
        return get_be(cut);
    }
    // a width that stands in the call is then the length that is read
    get_be(&cut[..width])
}

// Fills `out` with what of `s` it has room for, and zeros after it.
pub fn put_padded(out: &mut [u8], s: &[u8])
    ensures { out.new ≡ padded (length out.old) s.now }
{
    let n = s.len().min(out.len());
    out[..n].copy_from_slice(&s[..n]);
    out[n..].fill(0);
}

// Whether a few bytes are zeros alone: their sum is 0. No turn depends on a byte, so that the
// compiler can take many at once.
fn block_is_zero(s: &[u8]) -> bool
    requires { length s.now ≤ 64 }
    ensures { result ≡ same_bytes s.now (zeros (length s.now)) }
{
    let mut sum: u64 = 0;
    for b in s {
        sum += *b as u64;
    }
    sum == 0
}

// Whether `s` is zeros alone.
pub fn all_zero(s: &[u8]) -> bool
    ensures { result ≡ same_bytes s.now (zeros (length s.now)) }
{
    // a walk that splits the slice: it counts no index
    let mut rest = s;
    while 64 <= rest.len() {
        let (block, later) = rest.split_at(64);
        if !block_is_zero(block) {
            return false;
        }
        rest = later;
    }
    block_is_zero(rest)
}

// Whether `a` and `b` are the same bytes.
#[tactic(auto, using(crate::proofs::Order::pointwise_same))]
pub fn same(a: &[u8], b: &[u8]) -> bool
    ensures { result ≡ same_bytes a.now b.now }
{
    a == b
}

// Where `a` stands against `b`, by bytes, a prefix before the longer string.
// Most keys differ in their first bytes: to find that a byte a turn costs less than the library's
// strides, which the rest is compared by.
#[inline(always)]
pub fn compare(a: &[u8], b: &[u8]) -> Ordering
    ensures { result ≡ comparison a.now b.now }
{
    for i in 0..a.len().min(b.len()).min(8) {
        if a[i] != b[i] {
            return a[i].cmp(&b[i]);
        }
    }
    a.cmp(b)
}

// Whether `s` begins with `prefix`.
#[tactic(auto, using(crate::proofs::Order::starts_same))]
pub fn starts_with(s: &[u8], prefix: &[u8]) -> bool
    ensures { result ≡ starts_with prefix.now s.now }
{
    s.starts_with(prefix)
}
