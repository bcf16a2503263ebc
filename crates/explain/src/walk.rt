// Walks over a readable list: the winning delivery, and the byte of each.
ghost use Rattle.std.specs.Prelude.{◌≡◌, ◌≤◌, length};
ghost use Rattle.entry.specs.Entry.{entry_in};
ghost use Rattle.explain.specs.Winner.{winner};
ghost use Rattle.explain.specs.Reason.{byte, reason};
ghost use Rattle.explain.specs.Explain.{reported};
ghost use Rattle.explain.specs.Walk.{entries_in, Readable, seen, behind, lent, placed, best_with, byte_by};

use deliveries::cut_unchecked;
use entry::Entry;
use wire::same;

// Why a delivery lost, or that it won or is of another key; as a byte it is its number.
#[derive(Clone, Copy, Debug, PartialEq, Eq)]
pub(crate) enum Reason {
    Won = 0,
    EarlierTime = 1,
    LowerCount = 2,
    LowerNode = 3,
    SameEntry = 4,
    OtherKey = 5,
    LowerContent = 6,
}

impl From<Reason> for u8 {
    ghost from_gives = { λ reason n. n ≡ byte reason };

    fn from(reason: Reason) -> u8 {
        reason as u8
    }
}

// What a walk sees of a delivery: its entry, if it is of the key, and where the next one begins.
#[derive(Clone, Copy)]
pub(crate) struct Seen<'a> {
    pub(crate) entry: Option<Entry<'a>>,
    pub(crate) next: usize,
}

// The best delivery of the key so far, and its place.
#[derive(Clone, Copy)]
pub(crate) struct Best<'a> {
    pub(crate) place: usize,
    pub(crate) entry: Entry<'a>,
}

// What is seen of the delivery at an offset. Bytes that do not begin with one are of no key, and
// are passed over whole.
pub(crate) fn peek<'a>(list: &'a [u8], at: usize, key: &[u8]) -> Seen<'a>
    requires { at ≤ length list.now }
    ensures entry { lent result.entry ≡ seen list.now at key.now }
    ensures next { (result.next ≡ behind list.now at) × (result.next ≤ length list.now) }
{
    let rest = &list[at..];
    let Some(front) = cut_unchecked(rest) else {
        return Seen {
            entry: None,
            next: list.len(),
        };
    };
    let next = at + front.end;
    let entry = front.entry.of(rest);
    if !same(key, entry.key) {
        return Seen { entry: None, next };
    }
    Seen {
        entry: Some(entry),
        next,
    }
}

// The best so far after the delivery at a place was seen: it, if it is of the key, and is the first
// of it or beats the best before it.
fn best_with<'a>(best: Option<Best<'a>>, place: usize, seen: Option<Entry<'a>>) -> Option<Best<'a>>
    ensures { placed result ≡ best_with (placed best.entry) place (lent seen.entry) }
{
    let Some(entry) = seen else {
        return best;
    };
    if let Some(held) = best {
        if !entry.beats(held.entry) {
            return best;
        }
    }
    Some(Best { place, entry })
}

// The winning delivery of a readable list.
pub(crate) fn find_winner<'a>(list: &'a [u8], key: &[u8]) -> Option<Best<'a>>
    requires { Readable list.now }
    ensures { placed result ≡ winner key.now (entries_in list.now) }
{
    let mut best = None;
    let mut at = 0;
    let mut place = 0;
    // a walk over frames of varying length: it counts no index
    while at < list.len() {
        let seen = peek(list, at, key);
        best = best_with(best, place, seen.entry);
        at = seen.next;
        place += 1;
    }
    best
}

// Why a delivery of the key lost to the winner: the first field of the stamp in which they differ,
// or its lower contents; or it is the winner's entry again.
fn reason_for(winner: Entry<'_>, entry: Entry<'_>) -> Reason
    ensures { byte result ≡ reason (entry_in winner.entry) (entry_in entry.entry) }
{
    if entry.stamp.phys != winner.stamp.phys {
        return Reason::EarlierTime;
    }
    if entry.stamp.logical != winner.stamp.logical {
        return Reason::LowerCount;
    }
    if entry.stamp.node != winner.stamp.node {
        return Reason::LowerNode;
    }
    if winner.beats(entry) {
        return Reason::LowerContent;
    }
    Reason::SameEntry
}

// What the report says of the delivery at a place.
fn reason_at(best: Option<Best<'_>>, place: usize, seen: Option<Entry<'_>>) -> Reason
    ensures { byte result ≡ byte_by (placed best.entry) place (lent seen.entry) }
{
    let (Some(best), Some(entry)) = (best, seen) else {
        return Reason::OtherKey;
    };
    if place == best.place {
        return Reason::Won;
    }
    reason_for(best.entry, entry)
}

// Writes the byte of each delivery of a readable list to the front of `reasons`.
// It walks as `find_winner` does, with another body: with a closure for the body the facts that the
// walk keeps would stand in its contract, so it is no plainer.
pub(crate) fn write_reasons(list: &[u8], key: &[u8], best: Option<Best<'_>>, reasons: &mut [u8])
    requires { Readable list.now × (length (entries_in list.now) ≤ length reasons.old)
        × (placed best ≡ winner key.now (entries_in list.now)) }
    ensures { reasons.new ≡ reported key.now (entries_in list.now) reasons.old }
{
    let mut at = 0;
    let mut place = 0;
    // a walk over frames of varying length: it counts no index
    while at < list.len() {
        let seen = peek(list, at, key);
        reasons[place] = u8::from(reason_at(best, place, seen.entry));
        at = seen.next;
        place += 1;
    }
}
