// What the functions for C share: results, numbers that pass in 32 bits, and words put to the front
// of a lent slice.
#![tactic(auto)]

ghost use Rattle.std.specs.Prelude.{◌≡◌};
ghost use Rattle.entry.specs.Refusal.{refusal_number, number};
ghost use Rattle.frame.specs.Writing.{write_refusal, after_write};
ghost use Rattle.capi_words.specs.Result.{packed, count_in, flag as flag_of};
ghost use Rattle.capi_words.specs.Words.{byte_of};

use entry::Refusal;

// The words of 8 bits are below this.
pub const BYTE_LIMIT: u64 = 256;

// The most that the lower 16 bits of a result count.
const MAX_COUNT: usize = 65_535;

// A refusal alone.
pub fn refused(why: Refusal) -> u32
    ensures { result ≡ packed (number why) 0 }
{
    (why.number() as u32) * 65_536
}

// Whether something was done.
pub fn done<T: Drop>(answer: Result<T, Refusal>) -> u32
    ensures { result ≡ packed (refusal_number answer) 0 }
{
    match answer {
        Ok(_) => 0,
        Err(why) => refused(why),
    }
}

// How many were counted. No count of the functions below is so large that it is cut.
pub fn counted(answer: Result<usize, Refusal>) -> u32
    ensures { result ≡ packed (refusal_number answer) (count_in answer) }
{
    match answer {
        Ok(n) => n.min(MAX_COUNT) as u32,
        Err(why) => refused(why),
    }
}

// 1 for true and 0 for false.
pub fn flag(holds: bool) -> u32
    ensures { result ≡ flag_of holds }
{
    holds as u32
}

// A number that C passes in 32 bits, as a byte: 255 where it does not fit. A state, a flag, a
// number of vnodes or of owners is refused if it is 255, as any number above is.
pub fn byte_of(n: u32) -> u8
    ensures { result ≡ byte_of n }
{
    u8::try_from(n).unwrap_or(255)
}

// Puts words to the front of `out`, if there is room; the later ones stay.
#[tactic(auto, unfolding(frame::specs::Writing::write_refusal, frame::specs::Writing::after_write))]
pub fn put_front(out: &mut [u64], words: &[u64]) -> u32
    ensures told { result ≡ packed (write_refusal 0 words.now out.old) 0 }
    ensures left { out.new ≡ after_write 0 words.now out.old }
{
    if out.len() < words.len() {
        return refused(Refusal::NoRoom);
    }
    out[..words.len()].copy_from_slice(words);
    0
}
