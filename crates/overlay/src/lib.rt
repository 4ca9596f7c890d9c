// Union, common part and difference of two settled sets of tiles: what GIS calls the overlay of two layers. It is made of the locations
// of their tiles alone. No entry is tested here and nothing is refused.
#![tactic(auto)]

ghost use Rattle.std.specs.Prelude.{◌≡◌, ◌*◌, ◌≤◌, ltb, length, take, drop};
ghost use Rattle.constants.specs.Limits.{max_entries};
ghost use Rattle.overlay.specs.Overlay.{TwoSets, union_set, common_set, left_entries, LeftIn};
ghost use Rattle.tile_list.specs.Finish.{Listed};

use constants::MAX_ZOOM;
use quadtree::Key;

// `keys`, `n` and `both` stay apart: these contracts are public and fixed, and speak of all of `keys`, before and after.

// What lies in either set. The first `both` keys are the locations of the two, the first n of them the first set's. In the end all keys
// are scratch: the more there are, the faster the last sort.
pub fn union(keys: &mut [u64], n: usize, both: usize, out: &mut [u64]) -> usize
    requires { (both ≤ length keys.old) × TwoSets (take both keys.old) n × (both ≡ length out.old) }
    ensures { Listed (union_set (take n (take both keys.old)) (drop n (take both keys.old)))
        out.new result }
{
    let (first, second) = keys[..both].split_at(n);
    exchange::merge(first, second, out);
    let count = settle::settle(out, 0);
    tile_list::finish(out, count, keys, Key::Location)
}

// What lies in both sets.
pub fn common_part(keys: &mut [u64], n: usize, both: usize, out: &mut [u64]) -> usize
    requires { (both ≤ length keys.old) × TwoSets (take both keys.old) n × (both ≡ length out.old) }
    ensures { Listed (common_set (take n (take both keys.old)) (drop n (take both keys.old)))
        out.new result }
{
    let (first, second) = keys[..both].split_at(n);
    let count = common::common(first, second, out);
    tile_list::finish(out, count, keys, Key::Location)
}

// How many places `difference` needs, where the room is less than it can ever need. Where it is not, the most that it can need, without
// a walk.
pub fn left_places(locations: &[u64], n: usize, room: usize) -> usize
    requires { TwoSets locations.now n × (length locations.now ≤ 2 * max_entries) }
    ensures { ltb room result ≡ ltb room (length (left_entries (take n locations.now) (drop n locations.now))) }
{
    let (first, second) = locations.split_at(n);
    let most = n + 3 * (MAX_ZOOM as usize * second.len());
    if most <= room {
        return most;
    }
    difference::left(first, second, &mut [])
}

// What lies in the first set and not in the second. Memory behind it stays as it was.
pub fn difference(keys: &mut [u64], n: usize, both: usize, out: &mut [u64]) -> usize
    requires { (both ≤ length keys.old) × TwoSets (take both keys.old) n
        × (length (left_entries (take n (take both keys.old)) (drop n (take both keys.old))) ≤ length out.old) }
    ensures { LeftIn (take n (take both keys.old)) (drop n (take both keys.old)) out.old
        out.new result }
{
    let (first, second) = keys[..both].split_at(n);
    let count = difference::left(first, second, out);
    tile_list::finish(&mut out[..count], count, keys, Key::Location)
}
