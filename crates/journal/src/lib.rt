// A journal is a run of records, each a time (6 bytes) and a frame. This cuts the first record from
// the bytes at hand.
#![tactic(auto)]

ghost use Rattle.std.specs.Prelude.{◌≡◌};
ghost use Rattle.journal.specs.Journal.{meaning, piece_of};

use frame::MAX_FRAME;
use wire::get_be;

// The greatest LEN, which counts what follows it.
const MAX_LEN: usize = MAX_FRAME - 2;

// What stands at the front of some bytes of a journal: four outcomes, and so no Option or Result.
#[derive(Clone, Copy, PartialEq, Eq, Debug)]
pub enum Cut {
    // Nothing: a clean end, if no more bytes follow.
    End,
    // A record that is not whole: an end inside it, if no more bytes follow.
    Short,
    // A LEN out of range.
    Broken,
    // A whole record: its time; its frame stands from byte 6 to `end`.
    Record { time: u64, end: usize },
}

#[tactic(auto, using(crate::proofs::Cutting::cut_rules), unfolding(crate::specs::Journal::piece_of))]
pub fn cut_record(bytes: &[u8]) -> Cut
    ensures { meaning result ≡ piece_of bytes.now }
{
    if bytes.is_empty() {
        return Cut::End;
    }
    if bytes.len() < 8 {
        return Cut::Short;
    }
    let len = get_be(&bytes[6..8]) as usize;
    if len < 6 || MAX_LEN < len {
        return Cut::Broken;
    }
    let end = 8 + len;
    if bytes.len() < end {
        return Cut::Short;
    }
    let time = get_be(&bytes[..6]);
    Cut::Record { time, end }
}
