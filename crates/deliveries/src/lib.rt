// A list of deliveries: the REPL frames that a module received, one behind the other. This cuts the
// first one off, and counts them.
#![tactic(auto)]

ghost use Rattle.std.specs.Prelude.{◌≡◌, ◌≤◌, length};
ghost use Rattle.deliveries.specs.Cut.{first_length, cut_in, cut_answer, cut_unchecked};
ghost use Rattle.deliveries.specs.List.{count_of, count_answer};

use entry::{EntryAt, Refusal};
use frame::{Message, read, read_repl_unchecked};
use wire::get_be;

// The most deliveries of a list.
const MAX_DELIVERIES: usize = 1000;

// The delivery at the front of a list: where its entry stands, and where the next one begins.
#[derive(Clone, Copy, Debug, PartialEq, Eq)]
pub struct Delivery {
    pub entry: EntryAt,
    pub end: usize,
}

// The bytes of the frame at the front, as its LEN says, or all that are left if those are fewer.
fn first_length(list: &[u8]) -> usize
    ensures { (result ≡ first_length list.now) × (result ≤ length list.now) }
{
    let n = list.len();
    if n < 2 {
        return n;
    }
    let len = get_be(&list[0..2]) as usize;
    if n - 2 < len { n } else { len + 2 }
}

// What a frame of `end` bytes at the front says, if it is a REPL.
fn cut_in(said: Result<Message, Refusal>, end: usize) -> Option<Delivery>
    ensures { result ≡ cut_in end said }
{
    match said {
        Ok(Message::Repl(entry)) => Some(Delivery { entry, end }),
        _ => None,
    }
}

// The delivery at the front of a list, if it can be read.
fn cut_delivery(list: &[u8]) -> Option<Delivery>
    ensures { result ≡ cut_answer list.now }
{
    let end = first_length(list);
    cut_in(read(&list[0..end]), end)
}

// The delivery at the front of a list that is known to be readable: its checksum is not tested
// again. Other bytes are taken as they stand.
pub fn cut_unchecked(list: &[u8]) -> Option<Delivery>
    ensures { result ≡ cut_unchecked list.now }
{
    let end = first_length(list);
    cut_in(read_repl_unchecked(&list[0..end]), end)
}

// How many deliveries a list has; 17 if it is not readable.
#[tactic(auto, using(crate::proofs::Runs::turn_full))]
pub fn count(list: &[u8]) -> Result<usize, Refusal>
    ensures { count_of result ≡ count_answer list.now }
{
    let mut at: usize = 0;
    let mut n: usize = 0;
    // a walk over frames of varying length: it counts no index
    while at < list.len() {
        if n == MAX_DELIVERIES {
            return Err(Refusal::BadArgument);
        }
        let Some(front) = cut_delivery(&list[at..]) else {
            return Err(Refusal::BadArgument);
        };
        at += front.end;
        n += 1;
    }
    Ok(n)
}
