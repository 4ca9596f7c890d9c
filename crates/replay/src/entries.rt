// Tiles in lists. A list of calls holds the entries themselves: what a call is handed, and what it gives, is compared with them as they
// stand.
use tile::Tile;

// No tile's entry: what lent memory is filled with before a call.
pub const BLANK: u64 = u64::MAX;

// The entry of a tile that a cursor gave. `BLANK` off the map.
pub fn of_tile(t: Tile) -> u64 {
    match tile::check(t.x, t.y, t.z) {
        Ok(()) => ids::entry(t.x, t.y, t.z),
        Err(_) => BLANK,
    }
}
