// CRC32C, and fmix32, the 32-bit finaliser of MurmurHash3.
#![tactic(auto)]

mod entries;

ghost use Rattle.std.specs.Prelude.{◌≡◌, ◌+◌, ◌%◌, ◌<◌, ◌≤◌, length, take, fold};
ghost use Rattle.checksum.specs.Crc32c.{bit_step, byte_step, crc32c as crc_of};
ghost use Rattle.checksum.specs.Table.{crc_table, entry_of, byte_step_with, little_endian, lanes_with, block_with, PartWith, ChecksumWith};
ghost use Rattle.checksum.specs.Fmix32.{fmix32 as fmix_of, times};

// Sixteen rows of 256 entries, one after another.
pub type Table = [u32; 4096];

// CRC32C of `bytes`. The table is made anew by each call that needs it: where many checksums are
// wanted, make it once and lend it to `crc32c_with`.
pub fn crc32c(bytes: &[u8]) -> u32
    ensures { result ≡ crc_of bytes.now }
{
    if bytes.len() < 32 {
        return bit_run(0xFFFF_FFFF, bytes) ^ 0xFFFF_FFFF;
    }
    let t = table();
    crc32c_with(&t, bytes)
}

// The table of CRC32C as a value. A constant is written out on the stack by each function that
// names it, so it is made once and lent to what reads it.
pub fn table() -> Table
    ensures { result ≡ crc_table }
{
    entries::TABLE
}

// The checksum of `bytes` by `table`; with the table of CRC32C, CRC32C.
pub fn crc32c_with(table: &Table, bytes: &[u8]) -> u32
    ensures { ChecksumWith table.now bytes.now result }
{
    crc32c_part(table, 0xFFFF_FFFF, bytes) ^ 0xFFFF_FFFF
}

// The remainder after `bytes`, from the remainder `start` on: sixteen bytes a turn, then the rest.
// Neither started nor finished with all ones, so that a checksum can go on over several parts.
pub fn crc32c_part(table: &Table, start: u32, bytes: &[u8]) -> u32
    ensures { PartWith table.now start bytes.now result }
{
    let (blocks, rest) = bytes.as_chunks::<16>();
    byte_run(table, block_run(table, start, blocks), rest)
}

// fmix32 of `h`.
pub fn fmix32(h: u32) -> u32
    ensures { result ≡ fmix_of h }
{
    let a = mul_mod_2_32(h ^ (h >> 16), 0x85EB_CA6B);
    let b = mul_mod_2_32(a ^ (a >> 13), 0xC2B2_AE35);
    b ^ (b >> 16)
}

// A product modulo 2^32, by the product in 64 bits: the rules name this form for fmix32, so it is
// not the library's `wrapping_mul`.
fn mul_mod_2_32(a: u32, b: u32) -> u32
    ensures { result ≡ times a b }
{
    ((a as u64) * (b as u64) % 4294967296) as u32
}

// Entry i of row `row`.
fn entry(t: &Table, row: usize, i: usize) -> u32
    requires { (row < 16) × (i < 256) }
    ensures { result ≡ entry_of t.now row i }
{
    t[row * 256 + i]
}

// One byte more, by the first row.
fn byte_step(t: &Table, c: u32, b: u8) -> u32
    ensures { result ≡ byte_step_with t.now c b }
{
    let v = c ^ (b as u32);
    (v >> 8) ^ entry(t, 0, (v % 256) as usize)
}

// All bytes of `s`, one after the other.
fn byte_run(t: &Table, start: u32, s: &[u8]) -> u32
    ensures { result ≡ fold (byte_step_with t.now) start s.now }
{
    s.iter().fold(start, |c, b| byte_step(t, c, *b))
}

// Eight bytes as a number, least significant first.
fn word(s: &[u8; 8]) -> u64
    ensures { result ≡ little_endian s.now }
{
    u64::from_le_bytes(*s)
}

// What the lowest byte of `v` becomes by row `row`.
fn lane(t: &Table, row: usize, v: u64) -> u32
    requires { row < 16 }
    ensures { result ≡ entry_of t.now row (v % 256) }
{
    entry(t, row, (v % 256) as usize)
}

// A number of eight bytes, by eight rows of the table from `base` on, a row for each byte.
fn lanes(t: &Table, base: usize, v: u64) -> u32
    requires { base ≤ 8 }
    ensures { result ≡ lanes_with t.now base 7 v }
{
    let v1 = v / 256;
    let v2 = v1 / 256;
    let v3 = v2 / 256;
    let v4 = v3 / 256;
    let v5 = v4 / 256;
    let v6 = v5 / 256;
    let high = entry(t, base, (v6 / 256) as usize)
        ^ lane(t, base + 1, v6)
        ^ lane(t, base + 2, v5)
        ^ lane(t, base + 3, v4);
    high ^ lane(t, base + 4, v3)
        ^ lane(t, base + 5, v2)
        ^ lane(t, base + 6, v1)
        ^ lane(t, base + 7, v)
}

// Sixteen bytes more.
fn block_step(t: &Table, c: u32, s: &[u8; 16]) -> u32
    ensures { result ≡ block_with t.now c s.now }
{
    let (words, _) = s.as_chunks::<8>();
    lanes(t, 0, word(&words[1])) ^ lanes(t, 8, (c as u64) ^ word(&words[0]))
}

// Each sixteen bytes, one after the other.
fn block_run(t: &Table, start: u32, blocks: &[[u8; 16]]) -> u32
    ensures { result ≡ fold (block_with t.now) start blocks.now }
{
    blocks.iter().fold(start, |c, s| block_step(t, c, s))
}

// One bit.
fn bit_step(c: u32) -> u32
    ensures { result ≡ bit_step c }
{
    (c % 2 * 0x82F6_3B78) ^ (c >> 1)
}

// One byte, by bits.
fn byte_bits(c: u32, b: u8) -> u32
    ensures { result ≡ byte_step c b }
{
    let mut x = c ^ (b as u32);
    for _ in 0..8u32 {
        x = bit_step(x);
    }
    x
}

// All bytes of `s`, by bits: for a few bytes this costs less than the table.
fn bit_run(start: u32, s: &[u8]) -> u32
    ensures { result ≡ fold byte_step start s.now }
{
    s.iter().fold(start, |c, b| byte_bits(c, *b))
}
