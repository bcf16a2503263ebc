// What every part of the store shares: the refusal numbers, the limits, the key rule, stamps, when
// an entry is acceptable, and which of two entries of a key wins.
#![tactic(auto)]

ghost use Rattle.std.specs.Prelude.{◌≡◌, not, List, ℕ};
ghost use Rattle.entry.specs.Refusal.{number, refusal_number};
ghost use Rattle.entry.specs.Key.{reserved, bad_key};
ghost use Rattle.entry.specs.Order.{least, stamp_below};
ghost use Rattle.entry.specs.Entry.{entry_of, entry_in, refusal_of, beats};
ghost use Rattle.wire.specs.Fill.{field};

use std::error::Error;
use std::fmt;
use wire::{Span, compare, starts_with};

// The longest key and value, in bytes.
pub const MAX_KEY: usize = 64;

pub const MAX_VALUE: usize = 512;
// Times are milliseconds below this, 2^48.
pub const TIME_LIMIT: u64 = 281_474_976_710_656;
// An entry's flag. Any flag may be given and 2 or more is refused (17, `judge`), so it is a number.
pub const ACTIVE: u8 = 0;

pub const TOMBSTONE: u8 = 1;

// Why a call is refused: a case for each number, in the order of the numbers.
#[derive(Clone, Copy, Debug, PartialEq, Eq)]
pub enum Refusal {
    BadKey,
    ValueTooLarge,
    BadFrame,
    NoRoom,
    BadStore,
    StoreFull,
    Overtaken,
    ClockSpent,
    BadTime,
    TooFew,
    UnknownPeer,
    Stale,
    TableFull,
    PeerKnown,
    // SELF: an event, other than adding, about the own id
    OwnPeer,
    BadRing,
    BadArgument,
    // a purge to a line below the held one
    LowerLine,
    // an entry below the purge line, for a key that is not held
    BelowLine,
    // a merge of stores with unequal lines
    UnequalLines,
}

impl Refusal {
    // A match, and not numbers at the cases: a program that gives two refusals one number has to be
    // refused by the proof (`below_line_told_as_lower_line`).
    pub fn number(self) -> u8
        ensures { result ≡ number self }
    {
        match self {
            Refusal::BadKey => 1,
            Refusal::ValueTooLarge => 2,
            Refusal::BadFrame => 3,
            Refusal::NoRoom => 4,
            Refusal::BadStore => 5,
            Refusal::StoreFull => 6,
            Refusal::Overtaken => 7,
            Refusal::ClockSpent => 8,
            Refusal::BadTime => 9,
            Refusal::TooFew => 10,
            Refusal::UnknownPeer => 11,
            Refusal::Stale => 12,
            Refusal::TableFull => 13,
            Refusal::PeerKnown => 14,
            Refusal::OwnPeer => 15,
            Refusal::BadRing => 16,
            Refusal::BadArgument => 17,
            Refusal::LowerLine => 33,
            Refusal::BelowLine => 34,
            Refusal::UnequalLines => 35,
        }
    }
}

impl fmt::Display for Refusal {
    fn fmt<W: fmt::Write>(&self, f: &mut fmt::Formatter<W>) -> fmt::Result {
        write!(f, "refusal {}", self.number())
    }
}

impl Error for Refusal {}

// When and where an entry was written: a hybrid logical time and the node. Stamps are ordered by
// their fields, in this order.
#[derive(Clone, Copy, Debug, PartialEq, Eq, PartialOrd, Ord)]
pub struct Stamp {
    pub phys: u64,
    pub logical: u16,
    pub node: u8,
}

impl Stamp {
    pub const LEAST: Stamp = Stamp {
        phys: 0,
        logical: 0,
        node: 0,
    };

    // LEAST, with a contract: a constant has none of its own.
    pub fn least() -> Stamp
        ensures { result ≡ least }
    {
        Stamp::LEAST
    }

    pub fn is_below(self, other: Stamp) -> bool
        ensures { result ≡ stamp_below self other }
    {
        self < other
    }
}

fn is_reserved(key: &[u8]) -> bool
    ensures { result ≡ reserved key.now }
{
    if starts_with(key, b"_sys:") {
        return true;
    }
    if starts_with(key, b"_ring:") {
        return true;
    }
    if starts_with(key, b"_hint:") {
        return true;
    }
    starts_with(key, b"_gossip:")
}

pub fn is_acceptable_key(key: &[u8]) -> bool
    ensures { result ≡ not (bad_key key.now) }
{
    if key.len() == 0 {
        return false;
    }
    if MAX_KEY < key.len() {
        return false;
    }
    !is_reserved(key)
}

// An entry as it is lent: its key and value stand in the caller's bytes. Any flag may be given, so
// it is a number.
#[derive(Clone, Copy)]
pub struct Entry<'a> {
    pub key: &'a [u8],
    pub value: &'a [u8],
    pub stamp: Stamp,
    // last, so that what is copied with an entry is whole words up to it
    pub flag: u8,
}

impl Entry<'_> {
    // The first of an offer's checks 9, 1, 2 and 17 that the entry fails.
    pub fn judge(self) -> Result<(), Refusal>
        ensures { refusal_number result ≡ refusal_of (entry_in self.entry) }
    {
        if TIME_LIMIT <= self.stamp.phys {
            return Err(Refusal::BadTime);
        }
        if !is_acceptable_key(self.key) {
            return Err(Refusal::BadKey);
        }
        if MAX_VALUE < self.value.len() {
            return Err(Refusal::ValueTooLarge);
        }
        if TOMBSTONE < self.flag {
            return Err(Refusal::BadArgument);
        }
        // a tombstone has no value
        if self.flag != ACTIVE {
            if 0 < self.value.len() {
                return Err(Refusal::BadArgument);
            }
        }
        Ok(())
    }

    // Whether this entry wins over another of its key: by the stamp, and at equal stamps by the
    // contents. The keys have no part in it.
    pub fn beats(self, other: Entry<'_>) -> bool
        ensures { (j k : List ℕ)
            → result ≡ beats (entry_of j self.entry.value.now self.entry.flag self.entry.stamp) (entry_of k other.entry.value.now other.entry.flag other.entry.stamp) }
    {
        if other.stamp.is_below(self.stamp) {
            return true;
        }
        if self.stamp.is_below(other.stamp) {
            return false;
        }
        if other.flag != self.flag {
            return other.flag < self.flag;
        }
        compare(other.value, self.value).is_lt()
    }
}

// Where an entry's key and value stand in a slice, with its flag and stamp.
#[derive(Clone, Copy, Debug, PartialEq, Eq)]
pub struct EntryAt {
    pub key: Span,
    pub value: Span,
    pub stamp: Stamp,
    pub flag: u8,
}

impl EntryAt {
    // That entry of `s`, as much of its key and value as there is.
    pub fn of(self, s: &[u8]) -> Entry<'_>
        ensures { entry_in result
            ≡ entry_of (field self.key.at self.key.len s.now) (field self.value.at self.value.len s.now) self.flag self.stamp }
    {
        Entry {
            key: self.key.of(s),
            value: self.value.of(s),
            flag: self.flag,
            stamp: self.stamp,
        }
    }
}
