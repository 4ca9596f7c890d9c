// Whether a list is settled, by the locations of its tiles along the quadtree.
#![tactic(auto)]

ghost use Rattle.std.specs.Prelude.{◌≡◌, true, map};
ghost use Rattle.bits.specs.Tests.{all_of};
ghost use Rattle.ids.specs.Entry.{is_entry};
ghost use Rattle.quadtree.specs.Lists.{entry_key, TileNumbers};
ghost use Rattle.quadtree.specs.Numbers.{location_of};
ghost use Rattle.quadtree.specs.declared.Key.TheVariants.{Location};
ghost use Rattle.settled.specs.Answers.{Lone, Tested};
ghost use Rattle.settled.specs.Settled.{strictly_in_order};

use tile::Tile;

// Whether the entries stand strictly in the order of tiles.
pub fn strictly_in_order(list: &[u64]) -> bool
    requires { all_of is_entry list.now ≡ true }
    ensures { result ≡ strictly_in_order list.now }
{
    // Each entry is decoded once, and may be refused: `is_sorted_by` or windows of two would decode it twice.
    let mut last: Option<Tile> = None;
    for entry in list {
        let Ok(t) = ids::entry_tile(*entry) else {
            return false;
        };
        if let Some(before) = last {
            if t <= before {
                return false;
            }
        }
        last = Some(t);
    }
    true
}

// Whether the tiles of locations lie apart, one behind the other, with no four siblings among them.
pub fn apart(locations: &[u64]) -> bool
    requires { TileNumbers location_of locations.now }
    ensures { Lone locations.now result }
{
    let mut end = 0;
    for (i, location) in locations.iter().enumerate() {
        let k = *location;
        let low = quadtree::low_bit(k);
        if k - low < end {
            return false;
        }
        if settle::family(locations, i, k, 0) {
            return false;
        }
        end = k + low;
    }
    true
}

// Puts the locations of a list's tiles in order, by way of scratch of any length, and says whether the list is settled.
pub fn settled(list: &[u64], locations: &mut [u64], scratch: &mut [u64]) -> bool
    requires { (all_of is_entry list.now ≡ true) × (locations.old ≡ map (entry_key Location) list.now) }
    ensures { Tested list.now locations.new result }
{
    if !strictly_in_order(list) {
        return false;
    }
    exchange::sort(locations, scratch);
    apart(locations)
}
