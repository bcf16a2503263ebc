// The hash ring: tokens, key positions, ring building, soundness, and the owner walk.
#![tactic(auto)]

mod building;
mod checking;
mod walking;

ghost use Rattle.std.specs.Prelude.{◌≡◌};
ghost use Rattle.ring.specs.Answer.{meaning};
ghost use Rattle.ring.specs.Place.{token_of, position_answer};
ghost use Rattle.ring.specs.Build.{build_answer, build_output};
ghost use Rattle.ring.specs.Sound.{sound_ring};
ghost use Rattle.ring.specs.Owners.{owners_answer, owners_output};

use building::{bad_arguments, fill};
use checking::{all_in_range, is_ascending};
use entry::{Refusal, is_acceptable_key};
use peers::{Admission, PeerTable};
use walking::{bad_request, put, start, walk};

// The most ids of a ring, vnodes of an id, and places.
pub const MAX_IDS: usize = 10;

pub const MAX_VNODES: u8 = 64;

pub const MAX_PLACES: usize = 640;
// The most owners of a position.
pub const MAX_OWNERS: u8 = 3;

// The token of a node's vnode.
#[tactic(auto, unfolding(crate::specs::Place::token_of))]
pub fn token(node: u8, vnode: u8, salt: u32) -> u32
    ensures { result ≡ token_of node vnode salt }
{
    let pair = [node, vnode];
    let e = checksum::crc32c(&pair);
    let mixed = checksum::fmix32(256 * u32::from(node) + u32::from(vnode));
    checksum::fmix32(e ^ mixed ^ salt)
}

// A key's position on the ring.
pub fn key_position(key: &[u8], salt: u32) -> Result<u32, Refusal>
    ensures { meaning result ≡ position_answer key.now salt }
{
    if !is_acceptable_key(key) {
        return Err(Refusal::BadKey);
    }
    Ok(checksum::fmix32(checksum::crc32c(key) ^ salt))
}

// Builds the ring of the ids, with `vnodes` places each, at the front of `ring`. How many places
// were built.
pub fn build(ids: &[u8], vnodes: u8, salt: u32, ring: &mut [u64]) -> Result<usize, Refusal>
    ensures answer { meaning result ≡ build_answer ids.now vnodes ring.old }
    ensures output { ring.new ≡ build_output ids.now vnodes salt ring.old }
{
    if bad_arguments(ids, vnodes) {
        return Err(Refusal::BadArgument);
    }
    let places = ids.len() * (vnodes as usize);
    if ring.len() < places {
        return Err(Refusal::NoRoom);
    }
    fill(ids, vnodes, salt, ring);
    Ok(places)
}

// Whether `ring` is sound: at most 640 places, strictly ascending, each below 2^48, vnode
// below 64.
#[tactic(auto, unfolding(crate::specs::Sound::sound_ring))]
pub fn is_sound(ring: &[u64]) -> bool
    ensures { result ≡ sound_ring ring.now }
{
    ring.len() <= MAX_PLACES && is_ascending(ring) && all_in_range(ring)
}

// Finds the owners of a position: the first `count` admitted nodes that the walk from it meets,
// written to the front of `out`. How many were found.
pub fn owners(
    ring: &[u64],
    peers: PeerTable,
    position: u32,
    admission: Admission,
    count: u8,
    out: &mut [u8],
) -> Result<u8, Refusal>
    ensures answer { meaning result ≡ owners_answer ring.now peers admission count out.old }
    ensures output { out.new ≡ owners_output ring.now peers position admission count out.old }
{
    if bad_request(peers, count) {
        return Err(Refusal::BadArgument);
    }
    if !is_sound(ring) {
        return Err(Refusal::BadRing);
    }
    let wanted = count as usize;
    let flags = peers.admitted(admission);
    let taken = walk(ring, start(ring, position), flags, wanted);
    let met = taken.count;
    if met < wanted {
        return Err(Refusal::TooFew);
    }
    if out.len() < wanted {
        return Err(Refusal::NoRoom);
    }
    put(out, taken);
    Ok(count)
}
