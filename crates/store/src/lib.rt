// The entry store: a new store, looking a key up, offering an entry, merging one store into
// another, and purging one of old tombstones.
#![tactic(auto)]

mod clear;
mod write;

ghost use Rattle.std.specs.Prelude.{◌≡◌, true, false, length, MatchResult};
ghost use Rattle.entry.specs.Refusal.{refusal_number};
ghost use Rattle.entry.specs.Entry.{entry_in};
ghost use Rattle.image.specs.Layout.{slot_width};
ghost use Rattle.image.specs.Image.{slot_entry, line_of, entries_of, sound};
ghost use Rattle.store.specs.Answer.{answer_of, merge_answer_of, purge_answer_of};
ghost use Rattle.store.specs.Create.{create_refusal, after_create};
ghost use Rattle.store.specs.Lookup.{finding_of, lookup_answer, value_part};
ghost use Rattle.store.specs.Listing.{listing_of, entry_answer};
ghost use Rattle.store.specs.Offer.{offer_answer, after_offer};
ghost use Rattle.store.specs.Merge.{merge_answer, after_merge};
ghost use Rattle.store.specs.Purge.{purge_answer, after_purge};
ghost use Rattle.store.specs.Overtaken.{overtaken_unchecked};
ghost use Rattle.store.specs.Unchecked.{Placed, placement, told_of, written_at, after_placed, after_all, Counted, lookup_unchecked, offer_unchecked, after_offer_unchecked};

use clear::clear;
use entry::{Entry, EntryAt, Refusal, Stamp, TIME_LIMIT, TOMBSTONE, is_acceptable_key};
use image::layout::{
    HEADER_FILL_AT, HEADER_WIDTH, KEY_AT, LINE_AT, MAX_SLOTS, SLOT_WIDTH, VALUE_AT,
};
use image::{
    has_slot, is_sound, purge_line, put_header, slot, slot_count, slot_entry, slot_flag, slot_key,
    slot_stamp, slot_value, used_count,
};
use std::cmp::Ordering;
use wire::{Span, compare, put_be};
use write::{open_slot, write_entry, write_slot};

// What a store says of a key.
#[derive(Clone, Copy, Debug, PartialEq, Eq)]
pub enum Finding {
    // Its value stands in this part of the store.
    Value(Span),
    Deleted,
    Never,
}

// What became of an entry that was offered.
#[derive(Clone, Copy, Debug, PartialEq, Eq)]
pub enum Offered {
    Stored,
    Replaced,
    Kept,
}

// Of a giver's entries with a key that is new to the receiver, how many are taken, and how many are
// passed over.
#[derive(Clone, Copy)]
struct Counts {
    new: usize,
    passed: usize,
}

// Where an entry goes in a store.
#[derive(Clone, Copy)]
enum Placement {
    // Into a new slot before this one.
    Insert(usize),
    // Over this slot.
    Replace(usize),
    // Nowhere, since the held one stays.
    Kept,
}

// Makes a buffer a store of `slots` slots that holds nothing.
pub fn create(buffer: &mut [u8], slots: usize) -> Result<(), Refusal>
    ensures told { refusal_number result ≡ create_refusal buffer.old slots }
    ensures left { buffer.new ≡ after_create buffer.old slots }
{
    if slots < 1 || MAX_SLOTS < slots {
        return Err(Refusal::BadArgument);
    }
    let n = buffer.len();
    if n != HEADER_WIDTH + SLOT_WIDTH * slots {
        return Err(Refusal::NoRoom);
    }
    put_header(&mut buffer[0..HEADER_WIDTH], slots);
    buffer[HEADER_WIDTH..n].fill(0);
    Ok(())
}

// Where a key stands in a store: the slot that holds it, or else the slot before which it would go.
// The keys stand in the slots' bytes, so there is no slice of them for the library's search.
fn seek(store: &[u8], key: &[u8]) -> Result<usize, usize>
    ensures { MatchResult result (λ i. Placed key.now (entries_of store.now) i true) (λ i. Placed key.now (entries_of store.now) i false) }
{
    let used = used_count(store);
    for i in 0..used {
        match compare(key, slot_key(slot(store, i))) {
            Ordering::Less => return Err(i),
            Ordering::Equal => return Ok(i),
            Ordering::Greater => {}
        }
    }
    Err(used)
}

// What a store says of a key, with no test of soundness: for a caller that has tested it, and no
// entry point of the module. On a sound store it is `lookup`. On other bytes it follows the slots
// as they stand: it may answer VALUE, DELETED or NEVER of any key, with a place past the end where
// a slot is cut.
pub fn lookup_unchecked(store: &[u8], key: &[u8]) -> Result<Finding, Refusal>
    ensures { finding_of result ≡ lookup_unchecked store.now key.now }
{
    if !is_acceptable_key(key) {
        return Err(Refusal::BadKey);
    }
    let Ok(i) = seek(store, key) else {
        return Ok(Finding::Never);
    };
    let held = slot(store, i);
    if slot_flag(held) == TOMBSTONE {
        return Ok(Finding::Deleted);
    }
    let at = HEADER_WIDTH + SLOT_WIDTH * i + VALUE_AT;
    let len = slot_value(held).len();
    Ok(Finding::Value(Span { at, len }))
}

// What a store says of a key.
pub fn lookup(store: &[u8], key: &[u8]) -> Result<Finding, Refusal>
    ensures { finding_of result ≡ lookup_answer store.now key.now }
{
    if !is_sound(store) {
        return Err(Refusal::BadStore);
    }
    lookup_unchecked(store, key)
}

// The value of a key, as a part of the store; empty where there is none.
pub fn value<'a>(store: &'a [u8], key: &[u8]) -> &'a [u8]
    ensures { result.now ≡ value_part store.now key.now }
{
    match lookup(store, key) {
        Ok(Finding::Value(span)) => span.of(store),
        _ => &store[0..0],
    }
}

// The i-th of the entries that a store holds, in key order, counted from 0.
pub fn entry_at(store: &[u8], i: usize) -> Result<EntryAt, Refusal>
    ensures { listing_of result ≡ entry_answer store.now i }
{
    if !is_sound(store) {
        return Err(Refusal::BadStore);
    }
    if used_count(store) <= i {
        return Err(Refusal::BadArgument);
    }
    let at = HEADER_WIDTH + SLOT_WIDTH * i;
    let found = slot_entry(slot(store, i));
    Ok(EntryAt {
        key: Span {
            at: at + KEY_AT,
            len: found.key.len(),
        },
        value: Span {
            at: at + VALUE_AT,
            len: found.value.len(),
        },
        flag: found.flag,
        stamp: found.stamp,
    })
}

// Where an acceptable entry goes in a store.
fn placement_of(store: &[u8], entry: Entry<'_>) -> Result<Placement, Refusal>
    ensures { result ≡ placement store.now (entry_in entry.entry) }
{
    match seek(store, entry.key) {
        Ok(at) => {
            if !entry.beats(slot_entry(slot(store, at))) {
                return Ok(Placement::Kept);
            }
            if !has_slot(store, at) {
                return Err(Refusal::BadStore);
            }
            Ok(Placement::Replace(at))
        }
        Err(at) => {
            if entry.stamp.phys < purge_line(store) {
                return Err(Refusal::BelowLine);
            }
            let used = used_count(store);
            if slot_count(store) <= used {
                return Err(Refusal::StoreFull);
            }
            if !has_slot(store, used) {
                return Err(Refusal::BadStore);
            }
            Ok(Placement::Insert(at))
        }
    }
}

// Offers an acceptable entry to a store.
fn place_entry(store: &mut [u8], entry: Entry<'_>) -> Result<Offered, Refusal>
    ensures told { answer_of result ≡ told_of (placement store.old (entry_in entry.entry)) }
    ensures left { store.new ≡ after_placed store.old (entry_in entry.entry) }
{
    match placement_of(store, entry)? {
        Placement::Insert(at) => {
            open_slot(store, at);
            write_entry(store, at, entry);
            Ok(Offered::Stored)
        }
        Placement::Replace(at) => {
            write_entry(store, at, entry);
            Ok(Offered::Replaced)
        }
        Placement::Kept => Ok(Offered::Kept),
    }
}

// Offers an entry with no test of soundness: for a caller that has tested it, and no entry point of
// the module. On a sound store it is `offer`. On other bytes it follows the slots as they stand:
// the entry may go to a wrong place among them, or be refused with BelowLine or StoreFull, or with
// BadStore where the bytes do not have the slot that is to be written. It answers Stored or
// Replaced only if the entry was written.
pub fn offer_unchecked(store: &mut [u8], entry: Entry<'_>) -> Result<Offered, Refusal>
    ensures told { answer_of result ≡ offer_unchecked store.old (entry_in entry.entry) }
    ensures left { store.new ≡ after_offer_unchecked store.old (entry_in entry.entry) }
{
    entry.judge()?;
    place_entry(store, entry)
}

// Offers an entry to a store.
pub fn offer(store: &mut [u8], entry: Entry<'_>) -> Result<Offered, Refusal>
    ensures told { answer_of result ≡ offer_answer store.old (entry_in entry.entry) }
    ensures left { store.new ≡ after_offer store.old (entry_in entry.entry) }
{
    if !is_sound(store) {
        return Err(Refusal::BadStore);
    }
    offer_unchecked(store, entry)
}

// Counts the giver's entries whose key the receiver does not hold: those at or above its purge
// line, and those below.
fn count_new(receiver: &[u8], giver: &[u8]) -> Counts
    ensures { Counted (line_of receiver.now) (entries_of receiver.now) (entries_of giver.now) result.new result.passed }
{
    let line = purge_line(receiver);
    let mut new: usize = 0;
    let mut passed: usize = 0;
    for j in 0..used_count(giver) {
        let given = slot(giver, j);
        if seek(receiver, slot_key(given)).is_ok() {
            continue;
        }
        if slot_stamp(given).phys < line {
            passed += 1;
        } else {
            new += 1;
        }
    }
    Counts { new, passed }
}

// Offers the entry of a giver's slot to the receiver. The slot's bytes are copied as they stand.
fn give(receiver: &mut [u8], slot: &[u8])
    requires { length slot.now ≡ slot_width }
    ensures { receiver.new ≡ written_at (placement receiver.old (slot_entry slot.now)) slot.now receiver.old }
{
    match placement_of(receiver, slot_entry(slot)) {
        Ok(Placement::Insert(at)) => {
            open_slot(receiver, at);
            write_slot(receiver, at, slot);
        }
        Ok(Placement::Replace(at)) => write_slot(receiver, at, slot),
        Ok(Placement::Kept) | Err(_) => {}
    }
}

// Offers each of a sound giver's entries to the receiver. Those that are passed over are refused
// there, with BelowLine.
fn give_all(receiver: &mut [u8], giver: &[u8])
    requires { sound giver.now ≡ true }
    ensures { receiver.new ≡ after_all (entries_of giver.now) receiver.old }
{
    for i in 0..used_count(giver) {
        give(receiver, slot(giver, i));
    }
}

// Merges the giver into the receiver, which has the same purge line: all of its entries but those
// below the line for keys that are not held, or none.
pub fn merge(receiver: &mut [u8], giver: &[u8]) -> Result<usize, Refusal>
    ensures told { merge_answer_of result ≡ merge_answer receiver.old giver.now }
    ensures left { receiver.new ≡ after_merge receiver.old giver.now }
{
    if !is_sound(receiver) {
        return Err(Refusal::BadStore);
    }
    if !is_sound(giver) {
        return Err(Refusal::BadStore);
    }
    if purge_line(receiver) != purge_line(giver) {
        return Err(Refusal::UnequalLines);
    }
    let counts = count_new(receiver, giver);
    if slot_count(receiver) < used_count(receiver) + counts.new {
        return Err(Refusal::StoreFull);
    }
    give_all(receiver, giver);
    Ok(counts.passed)
}

// Removes the tombstones whose time is below the line, and sets the line.
pub fn purge(store: &mut [u8], line: u64) -> Result<usize, Refusal>
    ensures told { purge_answer_of result ≡ purge_answer store.old line }
    ensures left { store.new ≡ after_purge store.old line }
{
    if !is_sound(store) {
        return Err(Refusal::BadStore);
    }
    if TIME_LIMIT <= line {
        return Err(Refusal::BadTime);
    }
    if line < purge_line(store) {
        return Err(Refusal::LowerLine);
    }
    let removed = clear(store, line);
    put_be(&mut store[LINE_AT..HEADER_FILL_AT], line);
    Ok(removed)
}

// Whether a stamp is overtaken by that of the entry held for a key, in a store that is known to
// be sound.
pub fn is_overtaken(store: &[u8], key: &[u8], stamp: Stamp) -> bool
    ensures { result ≡ overtaken_unchecked store.now key.now stamp }
{
    match seek(store, key) {
        Ok(at) => !slot_stamp(slot(store, at)).is_below(stamp),
        Err(_) => false,
    }
}
