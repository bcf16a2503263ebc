// The slots of old tombstones removed from a sound store.
ghost use Rattle.std.specs.Prelude.{◌≡◌, true, ◌≤◌, ◌<◌, ◌++◌, length, drop};
ghost use Rattle.wire.specs.Fill.{zeros};
ghost use Rattle.image.specs.Layout.{slot_width, slot_start};
ghost use Rattle.image.specs.Image.{image, slot_entry, slots_of, used_of, line_of, entries_of, sound};
ghost use Rattle.store.specs.Purge.{cleared, remaining, removed, remove_at};

use entry::TOMBSTONE;
use image::layout::{HEADER_WIDTH, SLOT_WIDTH, USED_AT, WIDTH_AT};
use image::{slot, slot_flag, slot_stamp, used_count};
use wire::put_be;

// Moves all but the first slot's bytes down by a slot's width. The last slot's bytes become zero.
fn shift_down(part: &mut [u8])
    requires { slot_width ≤ length part.old }
    ensures { part.new ≡ drop slot_width part.old ++ zeros slot_width }
{
    let n = part.len();
    part.copy_within(SLOT_WIDTH..n, 0);
    part[n - SLOT_WIDTH..n].fill(0);
}

// Counts one slot less, and moves the used slots after slot `at` down by one, over it.
pub(crate) fn close_slot(store: &mut [u8], at: usize)
    requires { (at < used_of store.old) × (slot_start (used_of store.old) ≤ length store.old) }
    ensures { store.new ≡ remove_at at store.old }
{
    let used = used_count(store);
    let count = used - 1;
    put_be(&mut store[USED_AT..WIDTH_AT], count as u64);
    let start = HEADER_WIDTH + SLOT_WIDTH * at;
    let end = HEADER_WIDTH + SLOT_WIDTH * used;
    shift_down(&mut store[start..end]);
}

// Whether a slot holds a tombstone whose time is below the line.
fn is_cleared(slot: &[u8], line: u64) -> bool
    ensures { result ≡ cleared line (slot_entry slot.now) }
{
    slot_flag(slot) == TOMBSTONE && slot_stamp(slot).phys < line
}

// Removes each slot of a sound store that holds such a tombstone, and tells how many there were.
// It goes from the last used slot down, so that the slots still to be looked at stay in place.
pub(crate) fn clear(store: &mut [u8], line: u64) -> usize
    requires { sound store.old ≡ true }
    ensures told { result ≡ removed line (entries_of store.old) }
    ensures left { store.new
        ≡ image (slots_of store.old) (line_of store.old) (remaining line (entries_of store.old)) }
{
    let mut count: usize = 0;
    for i in (0..used_count(store)).rev() {
        if is_cleared(slot(store, i), line) {
            close_slot(store, i);
            count += 1;
        }
    }
    count
}
