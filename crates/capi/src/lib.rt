// The C interface of the checksums, the clock, frames, the store and the handler, over numbers and
// slices of numbers: each function reads its arguments, calls the function that is proved below,
// and packs the answer.
#![tactic(auto, using(crate::proofs::Rules::rules), unfolding(frame::specs::Writing::write_refusal, frame::specs::Writing::after_write))]

mod words;

ghost use Rattle.std.specs.Prelude.{◌≡◌, Ok};
ghost use Rattle.checksum.specs.Crc32c.{crc32c};
ghost use Rattle.checksum.specs.Fmix32.{fmix32};
ghost use Rattle.entry.specs.Entry.{entry_of};
ghost use Rattle.clock.specs.Clock.{fresh_clock, send_step, receive_step};
ghost use Rattle.frame.specs.Message.{put, get, del, repl, ok, value as value_of, not_found, err};
ghost use Rattle.frame.specs.Reading.{read_answer};
ghost use Rattle.frame.specs.Writing.{write_refusal, after_write};
ghost use Rattle.image.specs.Image.{sound as sound_store};
ghost use Rattle.store.specs.Create.{create_refusal, after_create};
ghost use Rattle.store.specs.Answer.{answer_of};
ghost use Rattle.store.specs.Lookup.{finding_of, lookup_answer};
ghost use Rattle.store.specs.Listing.{entry_answer};
ghost use Rattle.store.specs.Offer.{offer_answer, after_offer};
ghost use Rattle.store.specs.Merge.{merge_answer, after_merge};
ghost use Rattle.store.specs.Purge.{purge_answer, after_purge};
ghost use Rattle.capi_words.specs.Result.{packed, flag as flag_of};
ghost use Rattle.capi.specs.Words.{clock_words, stamp_from};
ghost use Rattle.capi.specs.Clock.{step_refusal, step_words};
ghost use Rattle.capi.specs.Handle.{handle_word, handle_store, handle_clock, handle_reply};
ghost use Rattle.capi.specs.Frame.{read_refusal, read_words, write_word, write_bytes};
ghost use Rattle.capi.specs.Store.{store_word, look_refusal, look_number, place_words, lookup_word, list_refusal, list_words, line_refusal, line_words};

use capi_words::{byte_of, counted, done, flag, put_front, refused};
use clock::Clock;
use entry::{Entry, Refusal, Stamp};
use store::{Finding, Offered};
use words::{clock_of, clock_words, field_words, repl_words};

// ---- Checksums

#[unsafe(no_mangle)]
pub extern "C" fn sp_crc32c(bytes: &[u8]) -> u32
    ensures { result ≡ crc32c bytes.now }
{
    checksum::crc32c(bytes)
}

#[unsafe(no_mangle)]
pub extern "C" fn sp_fmix32(h: u32) -> u32
    ensures { result ≡ fmix32 h }
{
    checksum::fmix32(h)
}

// ---- The clock

// A new clock of a node.
#[unsafe(no_mangle)]
pub extern "C" fn sp_clock_fresh(node: u8, clock: &mut [u64]) -> u32
    ensures told { result ≡ packed (write_refusal 0 (clock_words (fresh_clock node)) clock.old) 0 }
    ensures left { clock.new ≡ after_write 0 (clock_words (fresh_clock node)) clock.old }
{
    put_front(clock, &clock_words(Clock::fresh(node)))
}

// Moves the clock on for a local write at the reading `time`.
#[tactic(auto, using(crate::proofs::Clocks::step_rules), unfolding(crate::specs::Clock::step_refusal, crate::specs::Clock::step_words))]
#[unsafe(no_mangle)]
pub extern "C" fn sp_clock_send(time: u64, clock: &mut [u64]) -> u32
    ensures told { result ≡ packed (step_refusal (λ c. send_step c time) clock.old) 0 }
    ensures left { clock.new ≡ step_words (λ c. send_step c time) clock.old }
{
    let Some(held) = clock_of(clock) else {
        return refused(Refusal::BadArgument);
    };
    let sent = held.send(time);
    put_front(clock, &clock_words(sent.clock));
    done(sent.answer)
}

// Moves the clock on for a received stamp at the reading `time`.
#[tactic(auto, using(crate::proofs::Clocks::step_rules), unfolding(crate::specs::Clock::step_refusal, crate::specs::Clock::step_words))]
#[unsafe(no_mangle)]
pub extern "C" fn sp_clock_receive(phys: u64, logical: u16, time: u64, clock: &mut [u64]) -> u32
    ensures told { result ≡ packed (step_refusal (λ c. receive_step c phys logical time) clock.old) 0 }
    ensures left { clock.new ≡ step_words (λ c. receive_step c phys logical time) clock.old }
{
    let Some(held) = clock_of(clock) else {
        return refused(Refusal::BadArgument);
    };
    let receipt = held.receive(phys, logical, time);
    put_front(clock, &clock_words(receipt.clock));
    done(receipt.answer)
}

// ---- Frames

// What a frame says, at the front of `fields`. `sp_store_entry` answers alike; one function of the
// words for both would be as long as the two matches, so it is no plainer.
#[unsafe(no_mangle)]
pub extern "C" fn sp_frame_read(frame: &[u8], fields: &mut [u64]) -> u32
    ensures told { result ≡ packed (write_refusal (read_refusal (read_answer frame.now)) (read_words (read_answer frame.now)) fields.old) 0 }
    ensures left { fields.new ≡ after_write (read_refusal (read_answer frame.now)) (read_words (read_answer frame.now)) fields.old }
{
    match frame::read(frame) {
        Ok(message) => put_front(fields, &field_words(message)),
        Err(why) => refused(why),
    }
}

#[unsafe(no_mangle)]
pub extern "C" fn sp_write_put(key: &[u8], value: &[u8], out: &mut [u8]) -> u32
    ensures told { result ≡ write_word (put key.now value.now) out.old }
    ensures left { out.new ≡ write_bytes (put key.now value.now) out.old }
{
    counted(frame::write_put(key, value, out))
}

#[unsafe(no_mangle)]
pub extern "C" fn sp_write_get(key: &[u8], out: &mut [u8]) -> u32
    ensures told { result ≡ write_word (get key.now) out.old }
    ensures left { out.new ≡ write_bytes (get key.now) out.old }
{
    counted(frame::write_get(key, out))
}

#[unsafe(no_mangle)]
pub extern "C" fn sp_write_del(key: &[u8], out: &mut [u8]) -> u32
    ensures told { result ≡ write_word (del key.now) out.old }
    ensures left { out.new ≡ write_bytes (del key.now) out.old }
{
    counted(frame::write_del(key, out))
}

// The entry is made of numbers that C passes one by one, here and in `sp_store_offer`.
#[unsafe(no_mangle)]
pub extern "C" fn sp_write_repl(
    key: &[u8],
    value: &[u8],
    flag: u32,
    phys: u64,
    logical: u16,
    node: u8,
    out: &mut [u8],
) -> u32
    ensures told { result ≡ write_word (repl (entry_of key.now value.now flag (stamp_from phys logical node))) out.old }
    ensures left { out.new ≡ write_bytes (repl (entry_of key.now value.now flag (stamp_from phys logical node))) out.old }
{
    let stamp = Stamp {
        phys,
        logical,
        node,
    };
    let entry = Entry {
        key,
        value,
        flag: byte_of(flag),
        stamp,
    };
    counted(frame::write_repl(entry, out))
}

#[unsafe(no_mangle)]
pub extern "C" fn sp_write_ok(out: &mut [u8]) -> u32
    ensures told { result ≡ write_word ok out.old }
    ensures left { out.new ≡ write_bytes ok out.old }
{
    counted(frame::write_ok(out))
}

#[unsafe(no_mangle)]
pub extern "C" fn sp_write_value(value: &[u8], out: &mut [u8]) -> u32
    ensures told { result ≡ write_word (value_of value.now) out.old }
    ensures left { out.new ≡ write_bytes (value_of value.now) out.old }
{
    counted(frame::write_value(value, out))
}

#[unsafe(no_mangle)]
pub extern "C" fn sp_write_not_found(out: &mut [u8]) -> u32
    ensures told { result ≡ write_word not_found out.old }
    ensures left { out.new ≡ write_bytes not_found out.old }
{
    counted(frame::write_not_found(out))
}

#[unsafe(no_mangle)]
pub extern "C" fn sp_write_err(number: u32, out: &mut [u8]) -> u32
    ensures told { result ≡ write_word (err number) out.old }
    ensures left { out.new ≡ write_bytes (err number) out.old }
{
    // 255 is an ERR number; 0 is none, and is refused as each number above is.
    counted(frame::write_err(u8::try_from(number).unwrap_or(0), out))
}

// ---- The store

// Makes the buffer a store that holds nothing.
#[unsafe(no_mangle)]
pub extern "C" fn sp_store_create(store: &mut [u8], slots: usize) -> u32
    ensures told { result ≡ packed (create_refusal store.old slots) 0 }
    ensures left { store.new ≡ after_create store.old slots }
{
    done(store::create(store, slots))
}

#[unsafe(no_mangle)]
pub extern "C" fn sp_store_is_sound(store: &[u8]) -> u32
    ensures { result ≡ flag_of (sound_store store.now) }
{
    flag(image::is_sound(store))
}

// Where the value stands in the store, and its length; 0 and 0 where there is none.
fn place_of(what: Finding) -> [u64; 2]
    ensures { result ≡ place_words (finding_of (Ok what)) }
{
    match what {
        Finding::Value(span) => [span.at as u64, span.len as u64],
        Finding::Deleted | Finding::Never => [0; 2],
    }
}

// What the store says of the key, as a number.
fn found(what: Finding) -> u32
    ensures { result ≡ look_number (finding_of (Ok what)) }
{
    match what {
        Finding::Value(_) => 0,
        Finding::Deleted => 1,
        Finding::Never => 2,
    }
}

// What the store says of a key, and where its value stands.
#[tactic(auto, using(crate::proofs::Rules::rules), unfolding(frame::specs::Writing::write_refusal, frame::specs::Writing::after_write, crate::specs::Store::place_refusal, crate::specs::Store::found_number))]
#[unsafe(no_mangle)]
pub extern "C" fn sp_store_lookup(store: &[u8], key: &[u8], place: &mut [u64]) -> u32
    ensures told { result ≡ lookup_word store.now key.now place.old }
    ensures left { place.new ≡ after_write (look_refusal (lookup_answer store.now key.now)) (place_words (lookup_answer store.now key.now)) place.old }
{
    match store::lookup(store, key) {
        Ok(_) if place.len() < 2 => refused(Refusal::NoRoom),
        Ok(what) => {
            put_front(place, &place_of(what));
            found(what)
        }
        Err(why) => refused(why),
    }
}

// The i-th entry that a store holds, in key order, counted from 0, at the front of `fields`: as
// `sp_frame_read` gives a REPL, with places in the store.
#[unsafe(no_mangle)]
pub extern "C" fn sp_store_entry(store: &[u8], i: usize, fields: &mut [u64]) -> u32
    ensures told { result ≡ packed (write_refusal (list_refusal (entry_answer store.now i)) (list_words (entry_answer store.now i)) fields.old) 0 }
    ensures left { fields.new ≡ after_write (list_refusal (entry_answer store.now i)) (list_words (entry_answer store.now i)) fields.old }
{
    match store::entry_at(store, i) {
        Ok(entry) => put_front(fields, &repl_words(entry)),
        Err(why) => refused(why),
    }
}

// What became of an offer.
fn offered(answer: Result<Offered, Refusal>) -> u32
    ensures { result ≡ store_word (answer_of answer) }
{
    match answer {
        Ok(Offered::Stored) => 0,
        Ok(Offered::Replaced) => 1,
        Ok(Offered::Kept) => 2,
        Err(why) => refused(why),
    }
}

// Offers an entry.
#[unsafe(no_mangle)]
pub extern "C" fn sp_store_offer(
    store: &mut [u8],
    key: &[u8],
    value: &[u8],
    flag: u32,
    phys: u64,
    logical: u16,
    node: u8,
) -> u32
    ensures told { result ≡ store_word (offer_answer store.old (entry_of key.now value.now flag (stamp_from phys logical node))) }
    ensures left { store.new ≡ after_offer store.old (entry_of key.now value.now flag (stamp_from phys logical node)) }
{
    let stamp = Stamp {
        phys,
        logical,
        node,
    };
    let entry = Entry {
        key,
        value,
        flag: byte_of(flag),
        stamp,
    };
    offered(store::offer(store, entry))
}

// Offers each of the giver's entries to the receiver, all or none; says how many were passed over.
#[unsafe(no_mangle)]
pub extern "C" fn sp_store_merge(receiver: &mut [u8], giver: &[u8]) -> u32
    ensures told { result ≡ store_word (merge_answer receiver.old giver.now) }
    ensures left { receiver.new ≡ after_merge receiver.old giver.now }
{
    counted(store::merge(receiver, giver))
}

// The store's purge line, written to the first word.
#[unsafe(no_mangle)]
pub extern "C" fn sp_store_line(store: &[u8], line: &mut [u64]) -> u32
    ensures told { result ≡ packed (write_refusal (line_refusal store.now) (line_words store.now) line.old) 0 }
    ensures left { line.new ≡ after_write (line_refusal store.now) (line_words store.now) line.old }
{
    if !image::is_sound(store) {
        return refused(Refusal::BadStore);
    }
    put_front(line, &[image::purge_line(store)])
}

// Removes the tombstones below the line, and sets the line; says how many were removed.
#[unsafe(no_mangle)]
pub extern "C" fn sp_store_purge(store: &mut [u8], line: u64) -> u32
    ensures told { result ≡ store_word (purge_answer store.old line) }
    ensures left { store.new ≡ after_purge store.old line }
{
    counted(store::purge(store, line))
}

// ---- The request handler

// Answers one request frame.
#[tactic(auto, using(crate::proofs::Handles::handle_rules), unfolding(crate::specs::Handle::handle_refusal, crate::specs::Handle::handle_length, crate::specs::Handle::handle_store, crate::specs::Handle::handle_clock, crate::specs::Handle::handle_reply))]
#[unsafe(no_mangle)]
pub extern "C" fn sp_handle(
    store: &mut [u8],
    clock: &mut [u64],
    time: u64,
    frame: &[u8],
    reply: &mut [u8],
) -> u32
    ensures told { result ≡ handle_word store.old clock.old time frame.now reply.old }
    ensures stored { store.new ≡ handle_store store.old clock.old time frame.now reply.old }
    ensures moved { clock.new ≡ handle_clock store.old clock.old time frame.now reply.old }
    ensures written { reply.new ≡ handle_reply store.old clock.old time frame.now reply.old }
{
    let Some(held) = clock_of(clock) else {
        return refused(Refusal::BadArgument);
    };
    let handled = node::handle(store, held, time, frame, reply);
    put_front(clock, &clock_words(handled.clock));
    done(handled.answer) + handled.written as u32
}
