// The parts of the writers: fields, the envelope, and the messages that differ in TYPE alone.
ghost use Rattle.std.specs.Prelude.{◌≡◌, [], ◌+◌, ◌≤◌, ◌<◌, length, IfOk};
ghost use Rattle.entry.specs.Order.{least};
ghost use Rattle.entry.specs.Entry.{entry_of, entry_in, refusal_of};
ghost use Rattle.entry.specs.Refusal.{refusal_number};
ghost use Rattle.frame.specs.Message.{put, repl};
ghost use Rattle.frame.specs.Layout.{max_body, counted, key_bytes, stamp_bytes, number_of, body, envelope};
ghost use Rattle.frame.specs.Writing.{WritesFrame, Sealed};

use crate::kind::Kind;
use checksum::crc32c;
use entry::{ACTIVE, Entry, Refusal, Stamp};
use wire::{put_be, put_padded};

// Fills `out` with the length of `s`, in `width` bytes, and `s`.
pub(crate) fn put_counted(out: &mut [u8], width: usize, s: &[u8])
    requires { (width ≤ 2) × (length out.old ≡ width + length s.now) }
    ensures { out.new ≡ counted width s.now }
{
    put_be(&mut out[0..width], s.len() as u64);
    put_padded(&mut out[width..], s);
}

fn put_stamp(out: &mut [u8], stamp: Stamp)
    requires { length out.old ≡ 9 }
    ensures { out.new ≡ stamp_bytes stamp }
{
    let logical = stamp.logical;
    let node = stamp.node;
    put_be(&mut out[0..6], stamp.phys);
    put_be(&mut out[6..8], logical as u64);
    put_be(&mut out[8..9], node as u64);
}

// The body of a PUT.
pub(crate) fn put_pair(out: &mut [u8], key: &[u8], value: &[u8])
    requires { length out.old ≡ length key.now + length value.now + 3 }
    ensures { out.new ≡ body (put key.now value.now) }
{
    let value_at = key.len() + 1;
    put_counted(&mut out[0..value_at], 1, key);
    put_counted(&mut out[value_at..], 2, value);
}

// The body of a REPL.
pub(crate) fn put_entry(out: &mut [u8], entry: Entry<'_>)
    requires { length out.old ≡ length entry.key.now + length entry.value.now + 13 }
    ensures { out.new ≡ body (repl (entry_in entry.entry)) }
{
    let flag_at = entry.key.len() + 1;
    let stamp_at = flag_at + 1;
    let value_at = flag_at + 10;
    put_counted(&mut out[0..flag_at], 1, entry.key);
    put_be(&mut out[flag_at..stamp_at], entry.flag as u64);
    put_stamp(&mut out[stamp_at..value_at], entry.stamp);
    put_counted(&mut out[value_at..], 2, entry.value);
}

// Puts the body of n bytes at offset 4 into its frame, and answers how long that is.
pub(crate) fn seal(out: &mut [u8], kind: Kind, n: usize) -> usize
    requires { (n ≤ max_body) × (n + 8 ≤ length out.old) }
    ensures { Sealed (number_of kind) n out.old result out.new }
{
    let end = n + 4;
    let whole = n + 8;
    put_be(&mut out[0..2], (n + 6) as u64);
    out[2] = u8::from(kind);
    out[3] = 0;
    let sum = crc32c(&out[2..end]);
    put_be(&mut out[end..whole], sum as u64);
    whole
}

// Whether a key and a value can be those of an active entry.
pub(crate) fn judge(key: &[u8], value: &[u8]) -> Result<(), Refusal>
    ensures is { refusal_number result ≡ refusal_of (entry_of key.now value.now 0 least) }
    ensures short { IfOk result (λ u. (length key.now ≤ 64) × (length value.now ≤ 512)) }
{
    let entry = Entry {
        key,
        value,
        flag: ACTIVE,
        stamp: Stamp::LEAST,
    };
    entry.judge()
}

// GET and DEL.
pub(crate) fn write_keyed(key: &[u8], out: &mut [u8], kind: Kind) -> Result<usize, Refusal>
    ensures { WritesFrame (refusal_of (entry_of key.now [] 0 least))
        (envelope (number_of kind) (key_bytes key.now)) out.old result out.new }
{
    judge(key, b"")?;
    let n = key.len() + 1;
    if out.len() < n + 8 {
        return Err(Refusal::NoRoom);
    }
    let end = n + 4;
    put_counted(&mut out[4..end], 1, key);
    Ok(seal(out, kind, n))
}

// OK and NOTFOUND.
pub(crate) fn write_empty(out: &mut [u8], kind: Kind) -> Result<usize, Refusal>
    ensures { WritesFrame 0 (envelope (number_of kind) []) out.old result out.new }
{
    if out.len() < 8 {
        return Err(Refusal::NoRoom);
    }
    Ok(seal(out, kind, 0))
}
