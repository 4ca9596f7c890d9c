// One pass over the locations of tiles in order: tiles that lie in others are dropped, and families are joined until none is left.
#![tactic(auto)]

ghost use Rattle.std.specs.Prelude.{◌≡◌, true, ◌↔◌, ◌≤◌, length};
ghost use Rattle.constants.specs.Limits.{max_zoom};
ghost use Rattle.quadtree.specs.Lists.{TileNumbers};
ghost use Rattle.quadtree.specs.Numbers.{morton_of, location_of, location_tile};
ghost use Rattle.sort.specs.Sort.{By};
ghost use Rattle.tile.specs.declared.Tile.{Tile};
ghost use Rattle.tile_list.specs.Finish.{Listed};
ghost use Rattle.tile_list.specs.List.{named};
ghost use Rattle.tile_set.specs.Set.{simplified};
ghost use Rattle.quadtree.specs.Locations.{IsLocation, tiles};
ghost use Rattle.settle.specs.Settle.{Settles, Stand, Popped, Family, Joins};

use constants::MAX_ZOOM;
use quadtree::Key;

// `simplify`, from the locations of a set's tiles to the settled set as a list.
pub fn simplified(locations: &mut [u64], out: &mut [u64], m: u8) -> usize
    requires { TileNumbers location_of locations.old × (length locations.old ≡ length out.old) }
    ensures { Listed (simplified max_zoom m (named location_tile locations.old)) out.new result }
{
    sort::sort_into(locations, out);
    let count = settle(out, m);
    tile_list::finish(out, count, locations, Key::Location)
}

// The first `count` locations are a stack of what is kept, and `end` is where the last of them ends. The answer is the stack's length.
pub fn settle(locations: &mut [u64], m: u8) -> usize
    requires { TileNumbers location_of locations.old × By (λ n. n) locations.old }
    ensures { Settles m locations.old locations.new result }
{
    let mut count = 0;
    let mut end = 0;
    // It writes into the slice that it goes over, so the index is needed.
    for i in 0..locations.len() {
        let k = locations[i];
        if end <= k {
            let low = quadtree::low_bit(k);
            let kept = popped(locations, count, k - low);
            let top = joined(locations, kept, k, m);
            locations[top.count] = top.location;
            count = top.count + 1;
            end = k + low;
        }
    }
    count
}

// A location that goes on top of `count` others. It lives for one turn of `settle`; with the slice in it, that could not be written.
#[derive(Clone, Copy)]
struct Top {
    count: usize,
    location: u64,
}

// The zoom of the tile of a location.
pub fn zoom(k: u64) -> u8
    requires { IsLocation k }
    ensures { result ≡ (location_tile k).z }
{
    MAX_ZOOM - (u64::trailing_zeros(k) / 2) as u8
}

// The Morton code of the tile of a location.
pub fn morton(k: u64) -> u64
    requires { IsLocation k }
    ensures { result ≡ morton_of (location_tile k) }
{
    k >> (u64::trailing_zeros(k) + 1)
}

// These and `family` take the stack as `locations` and its `count`, as the contract of `family` has them, which is public and fixed.

// How many of `count` locations are left when those above `start` are taken off the top.
fn popped(locations: &[u64], count: usize, start: u64) -> usize
    requires { count ≤ length locations.now }
    ensures { Popped locations.now start count result }
{
    // This loop and that of `joined` count no index: they go on while a test of the stack's top holds.
    let mut left = count;
    while left > 0 && start < locations[left - 1] {
        left -= 1;
    }
    left
}

// k on top of `count` locations, when each family that it completes has become its parent.
fn joined(locations: &[u64], count: usize, k: u64, m: u8) -> Top
    requires { Stand locations.now count k }
    ensures { Joins m locations.now result.count result.location count k }
{
    let mut left = count;
    let mut top = k;
    while family(locations, left, top, m) {
        top -= 3 * quadtree::low_bit(top);
        left -= 3;
    }
    Top {
        count: left,
        location: top,
    }
}

// Whether k and the three locations below it are the children of one tile, and deeper than zoom m. Four tiles of one zoom in a row are
// looked for first, and are seldom there; they are one family where k is left by the last digit.
pub fn family(locations: &[u64], count: usize, k: u64, m: u8) -> bool
    requires { Stand locations.now count k }
    ensures { result ≡ true ↔ ((p : Tile) × Family m (tiles locations.now) count (location_tile k) p) }
{
    let [.., first, second, third] = &locations[..count] else {
        return false;
    };
    let step = 2 * quadtree::low_bit(k);
    if *third + step != k || *second + 2 * step != k || *first + 3 * step != k {
        return false;
    }
    if zoom(k) <= m {
        return false;
    }
    child_digit::of_morton(morton(k)) == b'3'
}
