// The numbers of fns.rs that stand for tiles: by the Mapbox coverage rule, and row by row from the root on.
#![tactic(auto)]

ghost use Rattle.std.specs.Prelude.{◌≡◌, ◌*◌, ◌/◌, ◌%◌, ◌^◌, ◌<◌, ◌≤◌};
ghost use Rattle.constants.specs.Limits.{max_zoom};
ghost use Rattle.errors.specs.Cases.{number_case};
ghost use Rattle.tile.specs.OnMap.{OnMap, tile_at, tile_case};
ghost use Rattle.ids.specs.Entry.{entry_of, entry_tile_of};
ghost use Rattle.ids.specs.Id.{HasId, id_of, to_id_of, from_id_of};
ghost use Rattle.ids.specs.Rmid.{level_start, rmid, rmid_limit, to_rmid_of, zoom_of, offset_zoom_case, offset_zoom_of, from_rmid_of};

use constants::{MAX_ID_ZOOM, MAX_ZOOM};
use errors::Refusal;
use tile::Tile;

// The number (2^(z + 1) * y + x) * 32 + z of a tile, of a zoom where it fits 64 bits.
pub fn to_id(x: u32, y: u32, z: u8) -> Result<u64, Refusal>
    ensures { number_case result ≡ to_id_of x y z }
{
    if z > MAX_ID_ZOOM {
        return Err(Refusal::Zoom);
    }
    tile::check(x, y, z)?;
    Ok(id(x, y, z))
}

fn id(x: u32, y: u32, z: u8) -> u64
    requires { HasId x y z }
    ensures { result ≡ id_of x y z }
{
    (bits::wide_pow2(z + 1) * (y as u64) + (x as u64)) * 32 + (z as u64)
}

// The tile of a number of `to_id`.
pub fn from_id(id: u64) -> Result<Tile, Refusal>
    ensures { tile_case result ≡ from_id_of id }
{
    let zoom = (id % 32) as u8;
    if zoom > MAX_ID_ZOOM {
        return Err(Refusal::NoTile);
    }
    let place = id / 32;
    let end = bits::wide_pow2(zoom);
    let y = place >> (zoom + 1);
    let x = place - (y << (zoom + 1));
    if x >= end {
        return Err(Refusal::NoTile);
    }
    if y >= end {
        return Err(Refusal::NoTile);
    }
    Ok(Tile {
        x: x as u32,
        y: y as u32,
        z: zoom,
    })
}

// The number that stands for a tile in a list, for callers that have checked the tile.
pub fn entry(x: u32, y: u32, z: u8) -> u64
    requires { OnMap x y z }
    ensures { result ≡ entry_of x y z }
{
    rmid(x, y, z)
}

// The tile that a number in a list stands for.
pub fn entry_tile(entry: u64) -> Result<Tile, Refusal>
    ensures { tile_case result ≡ entry_tile_of entry }
{
    rmid2xyz(entry)
}

// A row-major number taken apart: the place within its zoom, and the zoom.
#[derive(Clone, Copy, Debug, PartialEq, Eq)]
pub struct OffsetZoom {
    pub offset: u64,
    pub zoom: u8,
}

// The number of a tile counted row by row, from the root on.
pub fn xyz2rmid(x: u32, y: u32, z: u8) -> Result<u64, Refusal>
    ensures { number_case result ≡ to_rmid_of x y z }
{
    tile::check(x, y, z)?;
    Ok(rmid(x, y, z))
}

fn rmid(x: u32, y: u32, z: u8) -> u64
    requires { OnMap x y z }
    ensures { result ≡ rmid x y z }
{
    level_start(z) + (x as u64) + ((y as u64) << z)
}

// How many tiles the zooms above z have together: the leading 2z binary digits of the number for zoom 31, which are 01 over and over.
fn level_start(z: u8) -> u64
    requires { z ≤ 31 }
    ensures { result ≡ level_start z }
{
    (((1u64 << 62) - 1) / 3) >> (62 - 2 * z)
}

// The zoom of a number of `xyz2rmid`, and its offset among the numbers of that zoom.
pub fn int_2_offset_zoom(i: u64) -> Result<OffsetZoom, Refusal>
    ensures { offset_zoom_case result ≡ offset_zoom_of i }
{
    if i >= level_start(MAX_ZOOM + 1) {
        return Err(Refusal::NoTile);
    }
    let zoom = zoom_of(i);
    Ok(OffsetZoom {
        offset: i - level_start(zoom),
        zoom,
    })
}

// The deepest zoom whose tiles start at i or before it: of a number of zoom z, (3i + 1) / 2 has 2z or 2z + 1 binary digits. It is 0 for the
// root, and that is as well: a count that the compiler knew to be of no 0 would wait for the register that it goes to. Counted down from
// 31, the zoom and what a level's start is shifted by come in fewer steps.
fn zoom_of(i: u64) -> u8
    requires { i < rmid_limit }
    ensures { result ≡ zoom_of i }
{
    (31 - (u64::leading_zeros((3 * i + 1) / 2) - 1) / 2) as u8
}

// The tile of a number of `xyz2rmid`.
pub fn rmid2xyz(i: u64) -> Result<Tile, Refusal>
    ensures { tile_case result ≡ from_rmid_of i }
{
    let at = int_2_offset_zoom(i)?;
    Ok(tile_at(at.offset, at.zoom))
}

// The tile at a place within its zoom: a row above z binary digits, and a column below them.
fn tile_at(offset: u64, z: u8) -> Tile
    requires { (z ≤ max_zoom) × (offset < 2 ^ z * 2 ^ z) }
    ensures { result ≡ tile_at (offset % 2 ^ z) (offset / 2 ^ z) z }
{
    let row = offset >> z;
    let column = offset - (row << z);
    Tile {
        x: column as u32,
        y: row as u32,
        z,
    }
}
