// The requests, each on a store that is known to be sound, with a reply buffer that has room for
// any frame. A type that says so, `&mut [u8; 600]`, would be split off the buffer and put back at
// each answer, and a struct of the store and the reply would be taken apart in each function:
// neither is plainer.
ghost use Rattle.std.specs.Prelude.{◌≡◌, ◌≤◌, ℕ, true, List, length};
ghost use Rattle.entry.specs.Refusal.{number};
ghost use Rattle.entry.specs.Entry.{entry_in};
ghost use Rattle.clock.specs.Clock.{send_step, receive_step};
ghost use Rattle.frame.specs.Message.{ok, value as value_of, not_found};
ghost use Rattle.frame.specs.Layout.{max_frame};
ghost use Rattle.frame.specs.Reading.{message_in};
ghost use Rattle.frame.specs.Meaning.{Within};
ghost use Rattle.image.specs.Image.{sound};
ghost use Rattle.store.specs.Lookup.{lookup_answer, value_part};
ghost use Rattle.node.specs.Handler.{write_locally, take_replica, gets, serve as serve_of};
ghost use Rattle.node.specs.Request.{Ready, Replies, Refuses, Settles, outcome_of, Does};

use crate::Handled;
use clock::Clock;
use entry::{ACTIVE, Entry, Refusal, TOMBSTONE};
use frame::{Message, write_err, write_not_found, write_ok, write_value};
use store::{Finding, is_overtaken, lookup_unchecked, offer_unchecked};

// A refusal, with its ERR frame in the reply.
pub(crate) fn refuse(clock: Clock, refusal: Refusal, reply: &mut [u8]) -> Handled
    requires { max_frame ≤ length reply.old }
    ensures { Refuses clock (number refusal) reply.old result reply.new }
{
    Handled {
        clock,
        written: write_err(refusal.number(), reply).unwrap_or(0),
        answer: Err(refusal),
    }
}

// A write that was taken, with OK in the reply. The two below differ in their writer and so in
// their clause: one function that takes the writer as a closure would ask for what it writes, no
// plainer.
fn accept(clock: Clock, reply: &mut [u8]) -> Handled
    requires { max_frame ≤ length reply.old }
    ensures { Replies clock ok 0 reply.old result reply.new }
{
    Handled {
        clock,
        written: write_ok(reply).unwrap_or(0),
        answer: Ok(()),
    }
}

// A value that was found, with VALUE in the reply.
fn give_value(clock: Clock, value: &[u8], reply: &mut [u8]) -> Handled
    requires { (max_frame ≤ length reply.old) × (length value.now ≤ 512) }
    ensures { Replies clock (value_of value.now) 0 reply.old result reply.new }
{
    Handled {
        clock,
        written: write_value(value, reply).unwrap_or(0),
        answer: Ok(()),
    }
}

// No value, with NOTFOUND in the reply.
fn give_nothing(clock: Clock, reply: &mut [u8]) -> Handled
    requires { max_frame ≤ length reply.old }
    ensures { Replies clock not_found 0 reply.old result reply.new }
{
    Handled {
        clock,
        written: write_not_found(reply).unwrap_or(0),
        answer: Ok(()),
    }
}

fn get(store: &[u8], clock: Clock, key: &[u8], reply: &mut [u8]) -> Handled
    requires { Ready store.now reply.old }
    ensures { Settles store.now clock reply.old
        (gets store.now clock (value_part store.now key.now) (lookup_answer store.now key.now))
        result store.now reply.new }
{
    match lookup_unchecked(store, key) {
        Ok(Finding::Value(span)) => give_value(clock, span.of(store), reply),
        Ok(Finding::Deleted) => give_nothing(clock, reply),
        Ok(Finding::Never) => give_nothing(clock, reply),
        Err(refusal) => refuse(clock, refusal, reply),
    }
}

// PUT and DEL: sends the clock and offers the entry, unless the held one has overtaken it. The
// answer is the next clock. No Entry comes in: before the clock is sent there is no stamp for one.
fn write_locally(
    store: &mut [u8],
    clock: Clock,
    time: u64,
    key: &[u8],
    value: &[u8],
    flag: u8,
) -> Result<Clock, Refusal>
    requires { sound store.old ≡ true }
    ensures { Does store.old
        (write_locally store.old key.now value.now flag (send_step clock time))
        result store.new }
{
    let sent = clock.send(time);
    let stamp = sent.answer?;
    if is_overtaken(store, key, stamp) {
        return Err(Refusal::Overtaken);
    }
    let entry = Entry {
        key,
        value,
        flag,
        stamp,
    };
    offer_unchecked(store, entry)?;
    Ok(sent.clock)
}

// REPL: receives the stamp and offers the entry as it came. The answer is the next clock.
fn take_replica(
    store: &mut [u8],
    clock: Clock,
    time: u64,
    entry: Entry<'_>,
) -> Result<Clock, Refusal>
    requires { sound store.old ≡ true }
    ensures { Does store.old
        (take_replica store.old (entry_in entry.entry) (receive_step clock entry.entry.stamp.phys entry.entry.stamp.logical time))
        result store.new }
{
    let receipt = clock.receive(entry.stamp.phys, entry.stamp.logical, time);
    receipt.answer?;
    offer_unchecked(store, entry)?;
    Ok(receipt.clock)
}

// What is replied to a write: OK also where the held entry stays. The clock goes on to the next
// one unless the write is refused.
fn reply_to_write(done: Result<Clock, Refusal>, clock: Clock, reply: &mut [u8]) -> Handled
    requires { max_frame ≤ length reply.old }
    ensures { (store : List ℕ) → Settles store clock reply.old (outcome_of store done) result store reply.new }
{
    match done {
        Ok(next) => accept(next, reply),
        Err(why) => refuse(clock, why, reply),
    }
}

// Serves a message that was read from a frame.
pub(crate) fn serve(
    store: &mut [u8],
    clock: Clock,
    time: u64,
    frame: &[u8],
    message: Message,
    reply: &mut [u8],
) -> Handled
    requires ready { Ready store.old reply.old }
    requires within { Within frame.now message }
    ensures { Settles store.old clock reply.old
        (serve_of store.old clock time (message_in frame.now message))
        result store.new reply.new }
{
    match message {
        Message::Put { key, value } => {
            let (key, value) = (key.of(frame), value.of(frame));
            let done = write_locally(store, clock, time, key, value, ACTIVE);
            reply_to_write(done, clock, reply)
        }
        Message::Get { key } => get(store, clock, key.of(frame), reply),
        Message::Del { key } => {
            let done = write_locally(store, clock, time, key.of(frame), b"", TOMBSTONE);
            reply_to_write(done, clock, reply)
        }
        Message::Repl(entry) => {
            let done = take_replica(store, clock, time, entry.of(frame));
            reply_to_write(done, clock, reply)
        }
        // the types of a reply, which `handle` has refused before
        _ => refuse(clock, Refusal::BadFrame, reply),
    }
}
