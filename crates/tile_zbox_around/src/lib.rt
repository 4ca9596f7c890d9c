// The smallest box of listed tiles.
#![tactic(auto)]

ghost use Rattle.std.specs.Prelude.{◌≡◌, true, ◌<◌, min, max, length};
ghost use Rattle.std.specs.List.{list_all};
ghost use Rattle.bits.specs.Tests.{all_of};
ghost use Rattle.errors.specs.Cases.{check_number};
ghost use Rattle.ids.specs.Entry.{entry_tile, entry_refusal, is_entry};
ghost use Rattle.tile_zbox.specs.Box.{box_case};
ghost use Rattle.tile_zbox_around.specs.Around.{of_zoom, tiles_refusal, grown, box_around, from_tiles_of};

use constants::MAX_ENTRIES;
use errors::Refusal;
use tile::Tile;
use tile_zbox::TileZBox;

// The smallest box of the listed tiles.
pub fn from_tiles(list: &[u64]) -> Result<TileZBox, Refusal>
    ensures { box_case result ≡ from_tiles_of list.now }
{
    list_check(list)?;
    Ok(around(list))
}

// Whether a list is one of tiles of one zoom: too many, then a number of no tile, then none, then mixed zooms.
fn list_check(list: &[u64]) -> Result<(), Refusal>
    ensures { check_number result ≡ tiles_refusal list.now }
{
    if list.len() > MAX_ENTRIES {
        return Err(Refusal::TooMany);
    }
    if !all_entries(list) {
        return Err(Refusal::NoTile);
    }
    if list.len() == 0 {
        return Err(Refusal::EmptyList);
    }
    if !all_of_zoom(list, listed(list[0]).z) {
        return Err(Refusal::MixedZooms);
    }
    Ok(())
}

fn all_entries(list: &[u64]) -> bool
    ensures { result ≡ list_all is_entry list.now }
{
    list.iter().all(|entry| is_entry(*entry))
}

fn is_entry(entry: u64) -> bool
    ensures { result ≡ is_entry entry }
{
    ids::entry_tile(entry).is_ok()
}

// The tile of an entry that has one.
fn listed(entry: u64) -> Tile
    requires { entry_refusal entry ≡ 0 }
    ensures { result ≡ entry_tile entry }
{
    ids::entry_tile(entry).unwrap_or(Tile { x: 0, y: 0, z: 0 })
}

fn all_of_zoom(list: &[u64], zoom: u8) -> bool
    requires { all_of is_entry list.now ≡ true }
    ensures { result ≡ all_of (of_zoom zoom) list.now }
{
    for entry in list {
        if listed(*entry).z != zoom {
            return false;
        }
    }
    true
}

fn around(list: &[u64]) -> TileZBox
    requires list_value { all_of is_entry list.now ≡ true }
    requires list_nonzero { 0 < length list.now }
    ensures { result ≡ box_around list.now }
{
    let first = listed(list[0]);
    let mut b = TileZBox {
        zoom: first.z,
        minx: first.x,
        maxx: first.x,
        miny: first.y,
        maxy: first.y,
    };
    for entry in &list[1..] {
        b = grown(b, listed(*entry));
    }
    b
}

// The box and a tile of its zoom.
fn grown(b: TileZBox, t: Tile) -> TileZBox
    ensures { result ≡ grown b t }
{
    TileZBox {
        zoom: b.zoom,
        minx: b.minx.min(t.x),
        maxx: b.maxx.max(t.x),
        miny: b.miny.min(t.y),
        maxy: b.maxy.max(t.y),
    }
}
