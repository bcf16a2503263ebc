// Frames: LEN(2) TYPE(1) FLAGS(1) BODY CRC32C(4). A reader for any bytes, and a writer for each
// message.
#![tactic(auto)]

mod answer;
mod kind;
mod reading;
mod writing;

ghost use Rattle.std.specs.Prelude.{◌≡◌};
ghost use Rattle.entry.specs.Entry.{entry_in};
ghost use Rattle.frame.specs.Message.{put, get, del, repl, ok, value as value_of, not_found, err};
ghost use Rattle.frame.specs.Reading.{read_answer, read_body};
ghost use Rattle.frame.specs.Writing.{Writes};

pub use answer::Message;
use entry::{Entry, MAX_VALUE, Refusal};
use kind::Kind;
use reading::{envelope_holds, read_body, read_repl};
use wire::put_be;
use writing::{judge, put_counted, put_entry, put_pair, seal, write_empty, write_keyed};

// The longest frame, in bytes.
pub const MAX_FRAME: usize = 600;

// What exactly one frame says: a message, with the offsets of its key and value in the frame, or
// the refusal.
pub fn read(frame: &[u8]) -> Result<Message, Refusal>
    ensures { result ≡ read_answer frame.now }
{
    if !envelope_holds(frame) {
        return Err(Refusal::BadFrame);
    }
    let kind = Kind::try_from(frame[2])?;
    read_body(frame, kind)
}

// What a REPL frame says, with no test of its envelope and its TYPE: for a caller that has read the
// frame before, so that its checksum is not tested twice. Of a REPL frame that `read` reads it
// answers the same; of other bytes it looks at the body alone.
pub fn read_repl_unchecked(frame: &[u8]) -> Result<Message, Refusal>
    ensures { result ≡ read_body 4 frame.now }
{
    if 8 <= frame.len() {
        return read_repl(frame);
    }
    Err(Refusal::BadFrame)
}

// The writers. Each puts the frame of its message at the front of `out`; later bytes stay, and a
// refusal touches none. Each tests its room and fills its body: one function that takes the filling
// as a closure would ask the body's length of it, so it is no plainer.
pub fn write_put(key: &[u8], value: &[u8], out: &mut [u8]) -> Result<usize, Refusal>
    ensures { Writes (put key.now value.now) out.old result out.new }
{
    judge(key, value)?;
    let n = key.len() + value.len() + 3;
    if out.len() < n + 8 {
        return Err(Refusal::NoRoom);
    }
    let end = n + 4;
    put_pair(&mut out[4..end], key, value);
    Ok(seal(out, Kind::Put, n))
}

pub fn write_get(key: &[u8], out: &mut [u8]) -> Result<usize, Refusal>
    ensures { Writes (get key.now) out.old result out.new }
{
    write_keyed(key, out, Kind::Get)
}

pub fn write_del(key: &[u8], out: &mut [u8]) -> Result<usize, Refusal>
    ensures { Writes (del key.now) out.old result out.new }
{
    write_keyed(key, out, Kind::Del)
}

pub fn write_repl(entry: Entry<'_>, out: &mut [u8]) -> Result<usize, Refusal>
    ensures { Writes (repl (entry_in entry.entry)) out.old result out.new }
{
    entry.judge()?;
    let n = entry.key.len() + entry.value.len() + 13;
    if out.len() < n + 8 {
        return Err(Refusal::NoRoom);
    }
    let end = n + 4;
    put_entry(&mut out[4..end], entry);
    Ok(seal(out, Kind::Repl, n))
}

pub fn write_ok(out: &mut [u8]) -> Result<usize, Refusal>
    ensures { Writes ok out.old result out.new }
{
    write_empty(out, Kind::Ok)
}

pub fn write_value(value: &[u8], out: &mut [u8]) -> Result<usize, Refusal>
    ensures { Writes (value_of value.now) out.old result out.new }
{
    if MAX_VALUE < value.len() {
        return Err(Refusal::ValueTooLarge);
    }
    let n = value.len() + 2;
    if out.len() < n + 8 {
        return Err(Refusal::NoRoom);
    }
    let end = n + 4;
    put_counted(&mut out[4..end], 2, value);
    Ok(seal(out, Kind::Value, n))
}

pub fn write_not_found(out: &mut [u8]) -> Result<usize, Refusal>
    ensures { Writes not_found out.old result out.new }
{
    write_empty(out, Kind::NotFound)
}

pub fn write_err(number: u8, out: &mut [u8]) -> Result<usize, Refusal>
    ensures { Writes (err number) out.old result out.new }
{
    if number == 0 {
        return Err(Refusal::BadArgument);
    }
    if out.len() < 9 {
        return Err(Refusal::NoRoom);
    }
    put_be(&mut out[4..5], number as u64);
    Ok(seal(out, Kind::Err, 1))
}
