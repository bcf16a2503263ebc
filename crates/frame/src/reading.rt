// The parts of the reader: the envelope, and the bodies. Offsets are those of the frame, whose
// body begins at 4. Each body asks for the 8 bytes that the envelope has: a type with this fact
// would be opened at each byte that is read, so it is no plainer.
ghost use Rattle.std.specs.Prelude.{◌≡◌, not, true, false, [], ◌+◌, ◌≤◌, ◌<◌, length, IfOk, MatchResult};
ghost use Rattle.entry.specs.Key.{bad_key};
ghost use Rattle.entry.specs.Order.{least};
ghost use Rattle.entry.specs.Entry.{entry_of, bad_flag};
ghost use Rattle.entry.specs.declared.Refusal.TheVariants.{BadFrame};
ghost use Rattle.frame.specs.Message.{too_large};
ghost use Rattle.frame.specs.Layout.{number_of};
ghost use Rattle.frame.specs.Reading.{span, envelope_holds, klen, vlen, stamp_in, value_ends, judged_as, said_as, read_body};
ghost use Rattle.frame.specs.declared.answer.Message.TheVariants.{Get, Del, Ok as OkMessage, NotFound};

use crate::MAX_FRAME;
use crate::answer::Message;
use crate::kind::Kind;
use checksum::crc32c;
use entry::{EntryAt, MAX_VALUE, Refusal, Stamp, TOMBSTONE, is_acceptable_key};
use wire::{Span, number_at};

// Whether LEN, FLAGS and the checksum hold.
pub(crate) fn envelope_holds(frame: &[u8]) -> bool
    ensures { result ≡ envelope_holds frame.now }
{
    let n = frame.len();
    if n < 8 {
        return false;
    }
    if MAX_FRAME < n {
        return false;
    }
    if number_at(frame, 0, 2) != (n - 2) as u64 {
        return false;
    }
    if frame[3] != 0 {
        return false;
    }
    let end = n - 4;
    number_at(frame, end, 4) == crc32c(&frame[2..end]) as u64
}

// The key that a body begins with, as long as the frame says.
fn key_in(frame: &[u8]) -> Span
    requires { 8 ≤ length frame.now }
    ensures is { result ≡ span 5 (klen frame.now) }
    ensures short { (result.at ≡ 5) × (result.len < 256) }
{
    Span {
        at: 5,
        len: frame[4] as usize,
    }
}

// The value whose length stands at an offset, where the body ends with it.
fn value_in(frame: &[u8], at: usize) -> Result<Span, Refusal>
    requires { at < 300 }
    ensures is { MatchResult result (λ v. (value_ends at frame.now ≡ true) × (v ≡ span (at + 2) (vlen at frame.now)))
        (λ e. (value_ends at frame.now ≡ false) × (e ≡ BadFrame)) }
    ensures within { IfOk result (λ v. (v.at ≡ at + 2) × (v.at + v.len + 4 ≡ length frame.now)) }
{
    if frame.len() < at + 6 {
        return Err(Refusal::BadFrame);
    }
    let len = frame.len() - 6 - at;
    if number_at(frame, at, 2) != len as u64 {
        return Err(Refusal::BadFrame);
    }
    Ok(Span { at: at + 2, len })
}

// Whether a flag is 0 or 1, and a tombstone has no value. The stamp is not read yet, so there is no
// `Entry` to ask.
fn flag_holds(flag: u8, value: &[u8]) -> bool
    ensures { result ≡ not (bad_flag (entry_of [] value.now flag least)) }
{
    if flag == TOMBSTONE {
        return value.len() == 0;
    }
    flag < TOMBSTONE
}

// The stamp at an offset.
fn stamp_at(frame: &[u8], at: usize) -> Stamp
    requires { at + 9 ≤ length frame.now }
    ensures { result ≡ stamp_in at frame.now }
{
    let node_at = at + 8;
    let node = frame[node_at];
    let phys = number_at(frame, at, 6);
    let logical = number_at(frame, at + 6, 2) as u16;
    Stamp {
        phys,
        logical,
        node,
    }
}

// Whether the key and the value of a frame that keeps the frame rules are taken.
fn judge(key: &[u8], value: &[u8]) -> Result<(), Refusal>
    ensures { result ≡ judged_as (bad_key key.now) (too_large value.now) tt }
{
    if !is_acceptable_key(key) {
        return Err(Refusal::BadKey);
    }
    if MAX_VALUE < value.len() {
        return Err(Refusal::ValueTooLarge);
    }
    Ok(())
}

fn read_put(frame: &[u8]) -> Result<Message, Refusal>
    requires { 8 ≤ length frame.now }
    ensures { result ≡ read_body 1 frame.now }
{
    let key = key_in(frame);
    let value = value_in(frame, key.len + 5)?;
    judge(key.of(frame), value.of(frame))?;
    Ok(Message::Put { key, value })
}

// The key of a GET or a DEL.
fn read_key(frame: &[u8]) -> Result<Span, Refusal>
    requires { 8 ≤ length frame.now }
    ensures get { said_as Get result ≡ read_body 2 frame.now }
    ensures del { said_as Del result ≡ read_body 3 frame.now }
{
    let key = key_in(frame);
    if frame.len() != key.len + 9 {
        return Err(Refusal::BadFrame);
    }
    judge(key.of(frame), b"")?;
    Ok(key)
}

pub(crate) fn read_repl(frame: &[u8]) -> Result<Message, Refusal>
    requires { 8 ≤ length frame.now }
    ensures { result ≡ read_body 4 frame.now }
{
    let key = key_in(frame);
    let value = value_in(frame, key.len + 15)?;
    let flag = frame[key.len + 5];
    if !flag_holds(flag, value.of(frame)) {
        return Err(Refusal::BadFrame);
    }
    judge(key.of(frame), value.of(frame))?;
    Ok(Message::Repl(EntryAt {
        key,
        value,
        flag,
        stamp: stamp_at(frame, key.len + 6),
    }))
}

// OK and NOTFOUND have no body.
fn read_empty(frame: &[u8]) -> Result<(), Refusal>
    ensures ok { said_as (λ u. OkMessage) result ≡ read_body 16 frame.now }
    ensures not_found { said_as (λ u. NotFound) result ≡ read_body 18 frame.now }
{
    if frame.len() != 8 {
        return Err(Refusal::BadFrame);
    }
    Ok(())
}

fn read_value(frame: &[u8]) -> Result<Message, Refusal>
    ensures { result ≡ read_body 17 frame.now }
{
    let value = value_in(frame, 4)?;
    if MAX_VALUE < value.len {
        return Err(Refusal::ValueTooLarge);
    }
    Ok(Message::Value(value))
}

fn read_err(frame: &[u8]) -> Result<Message, Refusal>
    ensures { result ≡ read_body 20 frame.now }
{
    if frame.len() != 9 {
        return Err(Refusal::BadFrame);
    }
    let number = frame[4];
    if number == 0 {
        return Err(Refusal::BadFrame);
    }
    Ok(Message::Err(number))
}

// The message of a kind, in a frame whose envelope is not looked at.
pub(crate) fn read_body(frame: &[u8], kind: Kind) -> Result<Message, Refusal>
    requires { 8 ≤ length frame.now }
    ensures { result ≡ read_body (number_of kind) frame.now }
{
    match kind {
        Kind::Put => read_put(frame),
        Kind::Get => {
            let key = read_key(frame)?;
            Ok(Message::Get { key })
        }
        Kind::Del => {
            let key = read_key(frame)?;
            Ok(Message::Del { key })
        }
        Kind::Repl => read_repl(frame),
        Kind::Ok => {
            read_empty(frame)?;
            Ok(Message::Ok)
        }
        Kind::Value => read_value(frame),
        Kind::NotFound => {
            read_empty(frame)?;
            Ok(Message::NotFound)
        }
        Kind::Err => read_err(frame),
    }
}
