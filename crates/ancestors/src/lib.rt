// `simplify_v1`: a tile goes if the list holds an ancestor of it far enough above, and then families are joined until nothing changes.
#![tactic(auto)]

ghost use Rattle.std.specs.Prelude.{◌≡◌, ◌+◌, ◌/◌, ◌^◌, ◌<◌, length};
ghost use Rattle.constants.specs.Limits.{max_zoom};
ghost use Rattle.quadtree.specs.Lists.{TileNumbers};
ghost use Rattle.quadtree.specs.Numbers.{location_of, location_tile};
ghost use Rattle.quadtree.specs.Locations.{IsLocation, end_of};
ghost use Rattle.sort.specs.Sort.{By};
ghost use Rattle.tile_list.specs.Finish.{Listed};
ghost use Rattle.tile_list.specs.List.{named};
ghost use Rattle.tile_set.specs.Set.{simplified_v1};
ghost use Rattle.ancestors.specs.Laws.{AncestorsTested};
ghost use Rattle.ancestors.specs.Tops.{Tops, Ahead, FirstTop, Uncovers};

use quadtree::Key;

// No zoom is above it, so settling at this minimum zoom joins nothing and leaves the topmost tiles.
const NO_ZOOM: u8 = 255;

// From the locations of a set's tiles to the simplified set as a list.
pub fn simplified_v1(locations: &mut [u64], out: &mut [u64], m: u8) -> usize
    requires { TileNumbers location_of locations.old × (length locations.old ≡ length out.old) }
    ensures { Listed (simplified_v1 max_zoom m (named location_tile locations.old)) out.new result }
{
    let left = uncovered_codes(locations, out, m);
    let count = families::passes(out, left, locations, m);
    tile_list::finish(out, count, locations, Key::Morton)
}

// The Morton codes of the tiles that stay, at the front of `out`. The answer says how many there are.
fn uncovered_codes(locations: &mut [u64], out: &mut [u64], m: u8) -> usize
    requires { TileNumbers location_of locations.old × (length locations.old ≡ length out.old) }
    ensures { Uncovers m locations.old out.new result }
{
    sort::sort_into(locations, out);
    sort::copy(out, locations);
    let tops = settle::settle(locations, NO_ZOOM);
    uncovered(out, &locations[..tops], m)
}

// The tops are the topmost tiles. A tile has an ancestor of zoom s or less in the list exactly when the top that holds it has such a zoom.
fn uncovered(locations: &mut [u64], tops: &[u64], m: u8) -> usize
    requires tile_numbers { TileNumbers location_of locations.old × By (λ n. n) locations.old }
    requires tops { Tops locations.old tops.now }
    ensures { Uncovers m locations.old locations.new result }
{
    let mut count = 0;
    let mut top = 0;
    // It writes into the slice that it goes over, so the index is needed.
    'tiles: for i in 0..locations.len() {
        let k = locations[i];
        top = top_of(tops, top, k);
        let highest = settle::morton(tops[top]);
        let morton = settle::morton(k);
        for steps in (m..steps_to_test(k, morton, highest)).rev() {
            if ancestor(morton, steps) == highest {
                continue 'tiles;
            }
        }
        locations[count] = morton;
        count += 1;
    }
    count
}

// How many of the ancestors of k's tile may be the top that holds it: none where it is that top.
fn steps_to_test(k: u64, morton: u64, highest: u64) -> u8
    requires { IsLocation k × (0 < morton) }
    ensures { AncestorsTested morton highest (location_tile k).z result }
{
    if morton == highest {
        return 0;
    }
    settle::zoom(k)
}

// The first of the tops from `from` on whose run ends behind k.
fn top_of(tops: &[u64], from: usize, k: u64) -> usize
    requires { TileNumbers location_of tops.now × Ahead tops.now from k }
    ensures { FirstTop tops.now from k result }
{
    let mut top = from;
    // One of them is known to end behind k, so the walk needs no last place to count to. It is mostly near: a search by halves reads more.
    while end(tops[top]) <= k {
        top += 1;
    }
    top
}

// Where the run of a tile ends.
fn end(k: u64) -> u64
    requires { IsLocation k }
    ensures { result ≡ end_of (location_tile k) }
{
    k + quadtree::low_bit(k)
}

// The Morton code of the ancestor at `steps`, as `parent` counts them: 0 is the parent.
fn ancestor(morton: u64, steps: u8) -> u64
    requires { steps < 31 }
    ensures { result ≡ morton / 4 ^ (steps + 1) }
{
    morton >> (2 * (steps + 1))
}
