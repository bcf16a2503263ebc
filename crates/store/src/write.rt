// The slots of a store written, where its bytes have them.
ghost use Rattle.std.specs.Prelude.{◌≡◌, ◌+◌, ◌-◌, ◌≤◌, ◌++◌, length, take};
ghost use Rattle.entry.specs.Entry.{entry_in};
ghost use Rattle.image.specs.Layout.{slot_width, slot_start};
ghost use Rattle.image.specs.Image.{slot_bytes, used_of};
ghost use Rattle.image.specs.Slot.{slot_at};
ghost use Rattle.store.specs.Unchecked.{replace_at, insert_at};

use entry::Entry;
use image::layout::{HEADER_WIDTH, SLOT_WIDTH, USED_AT, WIDTH_AT};
use image::{put_slot, used_count};
use wire::put_be;

// Moves all but the last slot's bytes up by a slot's width. The first slot's bytes stay.
fn shift_up(part: &mut [u8])
    requires { slot_width ≤ length part.old }
    ensures { part.new ≡ take slot_width part.old ++ take (length part.old - slot_width) part.old }
{
    part.copy_within(0..part.len() - SLOT_WIDTH, SLOT_WIDTH);
}

// Counts one slot more, and moves the used slots from slot `at` on up by one. The bytes of slot
// `at` stay, to be written over.
pub(crate) fn open_slot(store: &mut [u8], at: usize)
    requires { (at ≤ used_of store.old) × (slot_start (used_of store.old + 1) ≤ length store.old) }
    ensures { store.new ≡ insert_at at (slot_at at store.old) store.old }
{
    let count = used_count(store) + 1;
    put_be(&mut store[USED_AT..WIDTH_AT], count as u64);
    let start = HEADER_WIDTH + SLOT_WIDTH * at;
    let end = HEADER_WIDTH + SLOT_WIDTH * count;
    shift_up(&mut store[start..end]);
}

// Writes an entry over slot `at`.
pub(crate) fn write_entry(store: &mut [u8], at: usize, entry: Entry<'_>)
    requires { slot_start (at + 1) ≤ length store.old }
    ensures { store.new ≡ replace_at at (slot_bytes (entry_in entry.entry)) store.old }
{
    let start = HEADER_WIDTH + SLOT_WIDTH * at;
    let end = start + SLOT_WIDTH;
    put_slot(&mut store[start..end], entry);
}

// Copies a slot over slot `at`.
pub(crate) fn write_slot(store: &mut [u8], at: usize, slot: &[u8])
    requires { (slot_start (at + 1) ≤ length store.old) × (length slot.now ≡ slot_width) }
    ensures { store.new ≡ replace_at at slot.now store.old }
{
    let start = HEADER_WIDTH + SLOT_WIDTH * at;
    let end = start + SLOT_WIDTH;
    store[start..end].copy_from_slice(slot);
}
