// The owner walk over flags: where it starts, what it meets, and what it writes.
ghost use Rattle.std.specs.Prelude.{◌≡◌, ◌++◌, ◌<◌, ◌≤◌, length, take, drop, get_or, ◌/◌, nat_lt};
ghost use Rattle.std.specs.List.{prefix_len};
ghost use Rattle.ring.specs.Owners.{bad_request};
ghost use Rattle.ring.specs.Helpers.{turned, Walked};

use crate::MAX_OWNERS;
use peers::{Flags, PeerTable};

// The nodes that a walk has taken: the first `count` of `nodes` (an array with its length, since
// there is no heap, and `out` may not be written before the walk has found enough).
#[derive(Clone, Copy, Debug, PartialEq, Eq)]
pub(crate) struct Taken {
    pub(crate) nodes: [u8; 3],
    pub(crate) count: usize,
}

// Whether `count` is outside 1 to 3 or the peer table is not sound.
#[tactic(auto, unfolding(crate::specs::Owners::bad_request))]
pub(crate) fn bad_request(peers: PeerTable, count: u8) -> bool
    ensures { result ≡ bad_request peers count }
{
    count < 1 || MAX_OWNERS < count || !peers.is_sound()
}

// How many places stand before the first whose token is at or above the position.
pub(crate) fn start(ring: &[u64], position: u32) -> usize
    ensures { result ≡ prefix_len (λ p. nat_lt (p / 65536) position) ring.now }
{
    ring.iter()
        .take_while(|p| **p / 65536 < u64::from(position))
        .count()
}

// The place that is met after `j` others, from the place at `start` on and round.
fn place_at(ring: &[u64], start: usize, j: usize) -> u64
    requires { (start ≤ length ring.now) × (j < length ring.now) }
    ensures { result ≡ get_or (turned start ring.now) j 0 }
{
    let left = ring.len() - start;
    if j < left {
        ring[start + j]
    } else {
        ring[j - left]
    }
}

// The first `r` flagged nodes from the place at `start` on and round, each the first time it is
// met: its flag is cleared then.
pub(crate) fn walk(ring: &[u64], start: usize, flags: Flags, r: usize) -> Taken
    requires { (start ≤ length ring.now) × (r ≤ 3) }
    ensures { Walked flags start r ring.now result.nodes result.count }
{
    let mut free = flags;
    let mut nodes = [0u8; 3];
    let mut count: usize = 0;
    for j in 0..ring.len() {
        if count == r {
            return Taken { nodes, count };
        }
        let n = (place_at(ring, start, j) / 256 % 256) as usize;
        if free[n] {
            free[n] = false;
            nodes[count] = n as u8;
            count += 1;
        }
    }
    Taken { nodes, count }
}

// Writes the nodes taken to the front of `out`.
pub(crate) fn put(out: &mut [u8], t: Taken)
    requires { (t.count ≤ length out.old) × (t.count ≤ 3) × (length t.nodes ≡ 3) }
    ensures { out.new ≡ take t.count t.nodes ++ drop t.count out.old }
{
    out[..t.count].copy_from_slice(&t.nodes[..t.count]);
}
