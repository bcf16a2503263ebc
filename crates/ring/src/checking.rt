// The tests of a ring slice, place by place.
ghost use Rattle.std.specs.Prelude.{◌≡◌};
ghost use Rattle.ring.specs.Lists.{ascending};
ghost use Rattle.ring.specs.Sound.{in_range};

// 2^48.
const PLACE_LIMIT: u64 = 281_474_976_710_656;

const VNODE_LIMIT: u64 = 64;

// Whether the places are strictly ascending.
pub(crate) fn is_ascending(ring: &[u64]) -> bool
    ensures { result ≡ ascending ring.now }
{
    for i in 1..ring.len() {
        if ring[i] <= ring[i - 1] {
            return false;
        }
    }
    true
}

// Whether each place is below 2^48 and has a vnode below 64.
pub(crate) fn all_in_range(ring: &[u64]) -> bool
    ensures { result ≡ in_range ring.now }
{
    ring.iter()
        .all(|p| *p < PLACE_LIMIT && *p % 256 < VNODE_LIMIT)
}
