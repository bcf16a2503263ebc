// The store image: its layout, its header and slots read and written, and whether it is sound. Each
// public function is total.
#![tactic(auto)]

pub mod layout;

ghost use Rattle.std.specs.Prelude.{◌≡◌, ◌^◌, ◌<◌, length, drop};
ghost use Rattle.checksum.specs.Crc32c.{crc32c as crc_of};
ghost use Rattle.checksum.specs.Table.{crc_table};
ghost use Rattle.entry.specs.Entry.{entry_in};
ghost use Rattle.image.specs.Layout.{header_width, key_at};
ghost use Rattle.image.specs.Image.{slot_head, key_in, flag_in, value_in, stamp_in, slots_of, used_of, line_of, slot_entry, entries_of, ascending, sound};
ghost use Rattle.image.specs.Slot.{slot_at, has_slot, slot_with, header_with};
ghost use Rattle.image.specs.Check.{Lengths, sealed, slot_sound, slots_sound, shaped};

use checksum::{Table, crc32c, crc32c_with, table};
use entry::{Entry, MAX_KEY, MAX_VALUE, Stamp};
use layout::{
    BODY_WIDTH, FIRST_AT, FLAG_AT, HEADER_FILL_AT, HEADER_WIDTH, KEY_AT, KLEN_AT, LINE_AT,
    LOGICAL_AT, MAX_SLOTS, NODE_AT, PHYS_AT, SLOT_FILL_AT, SLOT_WIDTH, SLOTS_AT, USED_AT, VALUE_AT,
    VLEN_AT, WIDTH_AT,
};
use wire::{all_zero, compare, number_at, part, put_be, put_padded};

// The table of CRC32C, made once for a test of soundness.
#[derive(Drop)]
struct Crcs {
    table: Table,
    ghost of_crc32c: { table ≡ crc_table },
}

impl Crcs {
    fn new() -> Crcs {
        Crcs { table: table() }
    }

    fn sum(&self, bytes: &[u8]) -> u32
        ensures { result ≡ crc_of bytes.now }
    {
        crc32c_with(&self.table, bytes)
    }
}

// How many slots a store says it has.
#[tactic(auto, unfolding(crate::specs::Image::slots_of))]
pub fn slot_count(store: &[u8]) -> usize
    ensures is { result ≡ slots_of store.now }
    ensures small { result < 65536 }
{
    number_at(store, SLOTS_AT, 2) as usize
}

// How many of them it says are used.
#[tactic(auto, unfolding(crate::specs::Image::used_of))]
pub fn used_count(store: &[u8]) -> usize
    ensures is { result ≡ used_of store.now }
    ensures small { result < 65536 }
{
    number_at(store, USED_AT, 2) as usize
}

// The purge line that a store says it has.
#[tactic(auto, unfolding(crate::specs::Image::line_of))]
pub fn purge_line(store: &[u8]) -> u64
    ensures is { result ≡ line_of store.now }
    ensures small { result < 2 ^ 48 }
{
    number_at(store, LINE_AT, 6)
}

// Slot i of a store, as much of it as there is.
pub fn slot(store: &[u8], i: usize) -> &[u8]
    ensures { result.now ≡ slot_at i store.now }
{
    let n = store.len();
    if n < HEADER_WIDTH {
        return &store[n..n];
    }
    if (n - HEADER_WIDTH) / SLOT_WIDTH < i {
        return &store[n..n];
    }
    part(store, HEADER_WIDTH + SLOT_WIDTH * i, SLOT_WIDTH)
}

// Whether the bytes of a store have slot i whole.
pub fn has_slot(store: &[u8], i: usize) -> bool
    ensures { result ≡ has_slot i store.now }
{
    slot(store, i).len() == SLOT_WIDTH
}

// The key that a slot holds. The value below is read alike; one function for both would take five
// offsets, so it is no plainer.
pub fn slot_key(slot: &[u8]) -> &[u8]
    ensures { result.now ≡ key_in slot.now }
{
    let n = number_at(slot, KLEN_AT, 1) as usize;
    part(part(slot, KEY_AT, MAX_KEY), 0, n)
}

// The flag that a slot holds.
#[tactic(auto, unfolding(crate::specs::Image::flag_in))]
pub fn slot_flag(slot: &[u8]) -> u8
    ensures { result ≡ flag_in slot.now }
{
    number_at(slot, FLAG_AT, 1) as u8
}

// The value that a slot holds.
pub fn slot_value(slot: &[u8]) -> &[u8]
    ensures { result.now ≡ value_in slot.now }
{
    let n = number_at(slot, VLEN_AT, 2) as usize;
    part(part(slot, VALUE_AT, MAX_VALUE), 0, n)
}

// The stamp that a slot holds.
#[tactic(auto, unfolding(crate::specs::Image::stamp_in))]
pub fn slot_stamp(slot: &[u8]) -> Stamp
    ensures { result ≡ stamp_in slot.now }
{
    let phys = number_at(slot, PHYS_AT, 6);
    let logical = number_at(slot, LOGICAL_AT, 2) as u16;
    let node = number_at(slot, NODE_AT, 1) as u8;
    Stamp {
        phys,
        logical,
        node,
    }
}

// The entry that a slot holds.
#[tactic(auto, unfolding(crate::specs::Image::slot_entry))]
pub fn slot_entry(slot: &[u8]) -> Entry<'_>
    ensures { entry_in result ≡ slot_entry slot.now }
{
    Entry {
        key: slot_key(slot),
        value: slot_value(slot),
        flag: slot_flag(slot),
        stamp: slot_stamp(slot),
    }
}

// Writes a slot's bytes before the key.
fn put_head(head: &mut [u8], entry: Entry<'_>)
    requires { length head.old ≡ key_at }
    ensures { head.new ≡ slot_head (entry_in entry.entry) }
{
    let stamp = entry.stamp;
    put_be(&mut head[KLEN_AT..FLAG_AT], entry.key.len() as u64);
    put_be(&mut head[FLAG_AT..VLEN_AT], entry.flag as u64);
    put_be(&mut head[VLEN_AT..PHYS_AT], entry.value.len() as u64);
    put_be(&mut head[PHYS_AT..LOGICAL_AT], stamp.phys);
    put_be(&mut head[LOGICAL_AT..NODE_AT], stamp.logical as u64);
    put_be(&mut head[NODE_AT..SLOT_FILL_AT], stamp.node as u64);
    head[SLOT_FILL_AT..KEY_AT].fill(0);
}

// Writes an entry over a slot. Bytes that are no slot stay as they are.
pub fn put_slot(slot: &mut [u8], entry: Entry<'_>)
    ensures { slot.new ≡ slot_with (entry_in entry.entry) slot.old }
{
    if slot.len() != SLOT_WIDTH {
        return;
    }
    put_head(&mut slot[0..KEY_AT], entry);
    put_padded(&mut slot[KEY_AT..VALUE_AT], entry.key);
    put_padded(&mut slot[VALUE_AT..BODY_WIDTH], entry.value);
    let sum = crc32c(&slot[0..BODY_WIDTH]);
    put_be(&mut slot[BODY_WIDTH..SLOT_WIDTH], sum as u64);
}

// Whether the zero fill and the checksum of a slot are right, its lengths being within their
// fields.
fn is_sealed(crcs: &Crcs, slot: &[u8], klen: usize, vlen: usize) -> bool
    requires { Lengths slot.now klen vlen }
    ensures { result ≡ sealed slot.now }
{
    if !all_zero(part(slot, SLOT_FILL_AT, 3)) {
        return false;
    }
    if !all_zero(part(slot, KEY_AT + klen, MAX_KEY - klen)) {
        return false;
    }
    if !all_zero(part(slot, VALUE_AT + vlen, MAX_VALUE - vlen)) {
        return false;
    }
    crcs.sum(part(slot, 0, BODY_WIDTH)) as u64 == number_at(slot, BODY_WIDTH, 4)
}

// Whether a slot is sound: its entry is acceptable, and its bytes are those of the entry's slot.
fn is_sound_slot(crcs: &Crcs, slot: &[u8]) -> bool
    ensures { result ≡ slot_sound slot.now }
{
    if slot.len() != SLOT_WIDTH {
        return false;
    }
    let klen = number_at(slot, KLEN_AT, 1) as usize;
    let vlen = number_at(slot, VLEN_AT, 2) as usize;
    if MAX_KEY < klen {
        return false;
    }
    if MAX_VALUE < vlen {
        return false;
    }
    if slot_entry(slot).judge().is_err() {
        return false;
    }
    is_sealed(crcs, slot, klen, vlen)
}

// Whether each used slot is sound.
fn slots_sound(crcs: &Crcs, store: &[u8]) -> bool
    ensures { result ≡ slots_sound (used_of store.now) (drop header_width store.now) }
{
    (0..used_count(store)).all(|i| is_sound_slot(crcs, slot(store, i)))
}

// Whether the keys of the used slots are strictly ascending.
fn keys_ascend(store: &[u8]) -> bool
    ensures { result ≡ ascending (entries_of store.now) }
{
    (1..used_count(store)).all(|i| {
        let order = compare(slot_key(slot(store, i - 1)), slot_key(slot(store, i)));
        order.is_lt()
    })
}

// Writes the header of a store of `slots` slots, none of them used, that was never purged. Bytes
// that are no header stay as they are.
pub fn put_header(head: &mut [u8], slots: usize)
    ensures { head.new ≡ header_with slots 0 0 head.old }
{
    if head.len() != HEADER_WIDTH {
        return;
    }
    put_be(&mut head[SLOTS_AT..USED_AT], slots as u64);
    put_be(&mut head[USED_AT..WIDTH_AT], 0);
    put_be(&mut head[WIDTH_AT..FIRST_AT], SLOT_WIDTH as u64);
    put_be(&mut head[FIRST_AT..LINE_AT], HEADER_WIDTH as u64);
    put_be(&mut head[LINE_AT..HEADER_FILL_AT], 0);
    head[HEADER_FILL_AT..HEADER_WIDTH].fill(0);
}

// Whether the header is right, and the buffer as long as its slots ask.
fn is_shaped(store: &[u8]) -> bool
    ensures { result ≡ shaped store.now }
{
    let slots = slot_count(store);
    if slots < 1 {
        return false;
    }
    if MAX_SLOTS < slots {
        return false;
    }
    if slots < used_count(store) {
        return false;
    }
    if store.len() != HEADER_WIDTH + SLOT_WIDTH * slots {
        return false;
    }
    if number_at(store, WIDTH_AT, 2) != SLOT_WIDTH as u64 {
        return false;
    }
    if number_at(store, FIRST_AT, 2) != HEADER_WIDTH as u64 {
        return false;
    }
    all_zero(part(store, HEADER_FILL_AT, 2))
}

// Whether a store is sound.
pub fn is_sound(store: &[u8]) -> bool
    ensures { result ≡ sound store.now }
{
    if !is_shaped(store) {
        return false;
    }
    let crcs = Crcs::new();
    if !slots_sound(&crcs, store) {
        return false;
    }
    if !keys_ascend(store) {
        return false;
    }
    let unused = HEADER_WIDTH + SLOT_WIDTH * used_count(store);
    all_zero(part(store, unused, store.len()))
}
