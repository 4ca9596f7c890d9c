// From the sort keys of a set's tiles to the set as a list in lent memory: entries in list order, each once, and 0 behind them.
#![tactic(auto)]

ghost use Rattle.std.specs.Prelude.{◌≡◌, map, ◌≤◌, length, take};
ghost use Rattle.quadtree.specs.Lists.{sort_key, sort_tile, TileNumbers};
ghost use Rattle.tile_list.specs.Finish.{finished, Listed};
ghost use Rattle.tile_list.specs.List.{named};

use quadtree::Key;

// The first `count` keys become the list of their tiles. The answer says how many entries that is. Scratch may be of any length;
// with a place for each key the sort is faster.
pub fn finish(keys: &mut [u64], count: usize, scratch: &mut [u64], by: Key) -> usize
    requires count_in_bounds { count ≤ length keys.old }
    requires tile_numbers { TileNumbers (sort_key by) (take count keys.old) }
    ensures { Listed (named (sort_tile by) (take count keys.old)) keys.new result }
{
    let listed = entries(&mut keys[..count], scratch, by);
    keys[listed..].fill(0);
    listed
}

fn entries(keys: &mut [u64], scratch: &mut [u64], by: Key) -> usize
    requires { TileNumbers (sort_key by) keys.old }
    ensures { (result ≤ length keys.new) × (take result keys.new ≡ finished (map (sort_tile by) keys.old)) }
{
    quadtree::ranks(keys, by);
    exchange::sort(keys, scratch);
    let once = sort::once(keys);
    quadtree::entries(&mut keys[..once]);
    once
}
