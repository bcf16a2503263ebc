// A clock as four words, and a message as ten.
ghost use Rattle.std.specs.Prelude.{◌≡◌};
ghost use Rattle.capi.specs.Words.{clock_in, clock_words};
ghost use Rattle.capi.specs.Frame.{part_words, repl_words, field_words};

use clock::Clock;
use entry::EntryAt;
use frame::Message;
use wire::Span;

const CLOCK_WORDS: usize = 4;

// The clock that words stand for, if there are four and each fits its field.
#[tactic(auto, using(std::proofs::lemmas::Bool::Decides::nat_tests), unfolding(crate::specs::Words::clock_in, crate::specs::Words::is_clock, crate::specs::Words::clock_of))]
pub(crate) fn clock_of(words: &[u64]) -> Option<Clock>
    ensures { result ≡ clock_in words.now }
{
    let [phys, logical, node, skew] = words else {
        return None;
    };
    Some(Clock {
        phys: *phys,
        logical: u16::try_from(*logical).ok()?,
        node: u8::try_from(*node).ok()?,
        skew: u32::try_from(*skew).ok()?,
    })
}

// The words of a clock.
pub(crate) fn clock_words(clock: Clock) -> [u64; CLOCK_WORDS]
    ensures { result ≡ clock_words clock }
{
    [
        clock.phys,
        clock.logical as u64,
        clock.node as u64,
        clock.skew as u64,
    ]
}

// The ten words of a REPL.
pub(crate) fn repl_words(entry: EntryAt) -> [u64; 10]
    ensures { result ≡ repl_words entry }
{
    [
        4,
        entry.key.at as u64,
        entry.key.len as u64,
        entry.value.at as u64,
        entry.value.len as u64,
        entry.flag as u64,
        entry.stamp.phys,
        entry.stamp.logical as u64,
        entry.stamp.node as u64,
        0,
    ]
}

// The ten words of a message that has no more than a key and a value.
fn part_words(kind: u64, key: Span, value: Span) -> [u64; 10]
    ensures { result ≡ part_words kind key value }
{
    [
        kind,
        key.at as u64,
        key.len as u64,
        value.at as u64,
        value.len as u64,
        0,
        0,
        0,
        0,
        0,
    ]
}

// A message that was read of a frame, as ten words.
pub(crate) fn field_words(message: Message) -> [u64; 10]
    ensures { result ≡ field_words message }
{
    let none = Span { at: 0, len: 0 };
    match message {
        Message::Put { key, value } => part_words(1, key, value),
        Message::Get { key } => part_words(2, key, none),
        Message::Del { key } => part_words(3, key, none),
        Message::Repl(entry) => repl_words(entry),
        Message::Ok => part_words(16, none, none),
        Message::Value(value) => part_words(17, none, value),
        Message::NotFound => part_words(18, none, none),
        Message::Err(number) => [20, 0, 0, 0, 0, 0, 0, 0, 0, number as u64],
    }
}
