// The layout of a store image: where each part stands, and how many bytes it has.
use entry::{MAX_KEY, MAX_VALUE};

// The header: the slots, how many are used, a slot's width, where the first slot starts, the purge
// line, zeros.
pub const SLOTS_AT: usize = 0;

pub const USED_AT: usize = 2;

pub const WIDTH_AT: usize = 4;

pub const FIRST_AT: usize = 6;

pub const LINE_AT: usize = 8;

pub const HEADER_FILL_AT: usize = 14;

pub const HEADER_WIDTH: usize = 16;

// A slot: the key's length, the flag, the value's length, the stamp, zeros, the key, the value, the
// checksum.
pub const KLEN_AT: usize = 0;

pub const FLAG_AT: usize = 1;

pub const VLEN_AT: usize = 2;

pub const PHYS_AT: usize = 4;

pub const LOGICAL_AT: usize = 10;

pub const NODE_AT: usize = 12;

pub const SLOT_FILL_AT: usize = 13;

pub const KEY_AT: usize = 16;

pub const VALUE_AT: usize = KEY_AT + MAX_KEY;
// The bytes that the checksum covers, and so where it stands.
pub const BODY_WIDTH: usize = VALUE_AT + MAX_VALUE;

pub const SLOT_WIDTH: usize = BODY_WIDTH + 4;

// The most slots of a store.
pub const MAX_SLOTS: usize = 100;
