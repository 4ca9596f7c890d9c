// Numbers of tiles by which lists are sorted, and whole lists turned from one number to the next.
#![tactic(auto)]

ghost use Rattle.std.specs.Prelude.{◌≡◌, map, ◌<◌, length};
ghost use Rattle.quadtree.specs.Digits.{apart};
ghost use Rattle.quadtree.specs.Lists.{sort_key, key_rank, rank_entry, TileNumber, TileNumbers, Keyed};
ghost use Rattle.quadtree.specs.Locations.{IsLocation, low_of};
ghost use Rattle.quadtree.specs.Numbers.{OfMap, morton_of, location_of, rank_of, zoom_in, even_bits, morton_tile, location_tile};

use constants::MAX_ZOOM;
use tile::Tile;

// The number of a tile that a list is sorted by. The contracts of all that sort by it name it as a value, so it is no function that is
// passed.
#[derive(Clone, Copy, Debug, PartialEq, Eq)]
pub enum Key {
    Location,
    Morton,
}

// The bits of n with a 0 between each two: its halves move apart, then their halves. A table would be copied to the stack at each call.
fn spread(n: u32) -> u64
    ensures { result ≡ apart 1 32 n }
{
    let v = n as u64;
    let v = (v | (v << 16)) & 0x0000_ffff_0000_ffff;
    let v = (v | (v << 8)) & 0x00ff_00ff_00ff_00ff;
    let v = (v | (v << 4)) & 0x0f0f_0f0f_0f0f_0f0f;
    let v = (v | (v << 2)) & 0x3333_3333_3333_3333;
    (v | (v << 1)) & 0x5555_5555_5555_5555
}

// Every second bit of n, from bit 0 on: pairs move together, then pairs of pairs.
fn gather(n: u64) -> u64
    ensures { result ≡ even_bits 32 n }
{
    let v = n & 0x5555_5555_5555_5555;
    let v = (v | (v >> 1)) & 0x3333_3333_3333_3333;
    let v = (v | (v >> 2)) & 0x0f0f_0f0f_0f0f_0f0f;
    let v = (v | (v >> 4)) & 0x00ff_00ff_00ff_00ff;
    let v = (v | (v >> 8)) & 0x0000_ffff_0000_ffff;
    (v | (v >> 16)) & 0x0000_0000_ffff_ffff
}

// The zoom of a Morton code or a rank.
fn zoom_in(n: u64) -> u8
    requires { 0 < n }
    ensures { result ≡ zoom_in n }
{
    ((63 - u64::leading_zeros(n)) / 2) as u8
}

// The same, quicker where it is the one expected.
fn zoom_from(n: u64, expected: u8) -> u8
    requires { (0 < n) × (expected < 32) }
    ensures { result ≡ zoom_in n }
{
    if n >> (2 * expected) == 1 {
        return expected;
    }
    zoom_in(n)
}

// The rank of the tile of a Morton code.
pub fn rank_of_morton(q: u64) -> u64
    requires { TileNumber morton_of q }
    ensures { result ≡ rank_of (morton_tile q) }
{
    rank_at(q, zoom_in(q))
}

// The same, where the zoom is known.
fn rank_at(q: u64, z: u8) -> u64
    requires { TileNumber morton_of q × (z ≡ zoom_in q) }
    ensures { result ≡ rank_of (morton_tile q) }
{
    (gather(q) << z) + gather(q >> 1)
}

// The rank of the tile of a location, whose lowest set bit says its zoom.
pub fn rank_of_location(p: u64) -> u64
    requires { TileNumber location_of p }
    ensures { result ≡ rank_of (location_tile p) }
{
    let low = u64::trailing_zeros(p);
    rank_at(p >> (low + 1), MAX_ZOOM - (low / 2) as u8)
}

// The location of a tile is the Morton code of the first of the deepest tiles inside it, and half of the tile's run; the tile's own code
// stands above its lowest set bit. The column moves up to the deepest zoom before its bits are spread, the row after: then both are spread
// by the same steps, which the compiler takes at once.
fn key_of(t: Tile, by: Key) -> u64
    requires { OfMap t }
    ensures { result ≡ sort_key by t }
{
    let below = MAX_ZOOM - t.z;
    let digits = spread(t.x << below) + (spread(t.y) << (2 * below + 1));
    let p = 2 * (digits + (1u64 << (2 * MAX_ZOOM))) + (1u64 << (2 * below));
    match by {
        Key::Location => p,
        Key::Morton => p >> (2 * below + 1),
    }
}

fn rank(k: u64, by: Key) -> u64
    requires { TileNumber (sort_key by) k }
    ensures { result ≡ key_rank by k }
{
    match by {
        Key::Location => rank_of_location(k),
        Key::Morton => rank_of_morton(k),
    }
}

fn entry_of_rank(r: u64, z: u8) -> u64
    requires { TileNumber rank_of r × (z ≡ zoom_in r) }
    ensures { result ≡ rank_entry r }
{
    let column = r >> z;
    ids::entry((column - (1 << z)) as u32, (r - (column << z)) as u32, z)
}

// The keys of a list's tiles, and whether all of the list are entries; it stops at the first that is none.
pub fn keys(list: &[u64], keys: &mut [u64], by: Key) -> bool
    requires { length list.now ≡ length keys.old }
    ensures { Keyed by list.now keys.new result }
{
    // What is proved is how far the keys have come, so the index is named; a `zip` with the keys would be no plainer.
    for (i, entry) in list.iter().enumerate() {
        let Ok(t) = ids::entry_tile(*entry) else {
            return false;
        };
        keys[i] = key_of(t, by);
    }
    true
}

// These two, as much in the crates above, require `TileNumbers`: as the ghost field of a struct it would have to be true at each write.

// Keys become ranks.
pub fn ranks(keys: &mut [u64], by: Key)
    requires { TileNumbers (sort_key by) keys.old }
    ensures { keys.new ≡ map (key_rank by) keys.old }
{
    for key in keys.iter_mut() {
        *key = rank(*key, by);
    }
}

// Ranks become entries. They mostly come in order, and so by zooms.
pub fn entries(ranks: &mut [u64])
    requires { TileNumbers rank_of ranks.old }
    ensures { ranks.new ≡ map rank_entry ranks.old }
{
    let mut z = 0;
    for number in ranks.iter_mut() {
        let r = *number;
        z = zoom_from(r, z);
        *number = entry_of_rank(r, z);
    }
}

// Half the length of the tile's run, which its location is in the middle of.
pub fn low_bit(k: u64) -> u64
    requires { IsLocation k }
    ensures { result ≡ low_of (location_tile k) }
{
    1 << u64::trailing_zeros(k)
}
