// The tiles around a tile, and the numbers that stand for tiles: the calls of fns.rs.
ghost use Rattle.std.specs.Prelude.{◌≡◌, ◌+◌};
ghost use Rattle.c_fns.specs.Ancestor.{ancestor_at};
ghost use Rattle.c_fns.specs.Limits.{limits_at};
ghost use Rattle.c_give.specs.Exported.{answered, as_byte, answered_in, never};
ghost use Rattle.c_ids.specs.OffsetZoom.{offset_zoom_at};
ghost use Rattle.children.specs.Children.{children_of, clockwise, z_order};
ghost use Rattle.errors.specs.Answer.{answer};
ghost use Rattle.fns.specs.Fns.{bbox2zoom_of, flipy_of, is_tile, min_max_of};
ghost use Rattle.fns.specs.Parent.{parent_given};
ghost use Rattle.ids.specs.Entry.{entry_of, entry_tile_of};
ghost use Rattle.ids.specs.Id.{from_id_of, to_id_of};
ghost use Rattle.ids.specs.Rmid.{from_rmid_of, offset_zoom_of, to_rmid_of};
ghost use Rattle.neighbors.specs.Neighbors.{neighbors_written};
ghost use Rattle.neighbors.specs.declared.Seam.TheVariants.{Cut, Wrapped};
ghost use Rattle.siblings.specs.Siblings.{siblings_written};
ghost use Rattle.tile.specs.OnMap.{tile_at, tile_refusal};

use constants::MAX_DIGITS;

// The first and the last column, and row, of a zoom: 0 and 2^zoom - 1.
// Refused: 1.
#[unsafe(no_mangle)]
pub extern "C" fn nori_minmax(zoom: u8, min: &mut u32, max: &mut u32) -> u8
    ensures { answered result (limits_at min.new max.new) ≡ min_max_of zoom }
{
    c_fns::minmax(zoom, min, max)
}

// Whether x, y and z name a tile of the map, told as yes or no.
// Never refused.
#[unsafe(no_mangle)]
pub extern "C" fn nori_valid(x: u32, y: u32, z: u8, told: &mut u8) -> u8
    ensures { answered result told.new ≡ as_byte (never (is_tile x y z)) }
{
    c_fns::valid(x, y, z, told)
}

// The row counted from the other side of the map: 2^z - 1 - y.
// Refused: 1, 2.
#[unsafe(no_mangle)]
pub extern "C" fn nori_flipy(y: u32, z: u8, row: &mut u32) -> u8
    ensures { answered result row.new ≡ flipy_of y z }
{
    c_fns::flipy(y, z, row)
}

// The same as nori_flipy.
// Refused: 1, 2.
#[unsafe(no_mangle)]
pub extern "C" fn nori_yflip(y: u32, z: u8, row: &mut u32) -> u8
    ensures { answered result row.new ≡ flipy_of y z }
{
    c_fns::flipy(y, z, row)
}

// The ancestor at zoom z - 1 - n, and by which quadkey digit each step to it was left. n counts the steps beyond the parent; the
// Rust's None is 0. digits holds count digits, 1 + n, as bytes 48 to 51, the deepest step's last, and zeros after them; where the
// call is refused it holds zeros only. The ancestor's key followed by the digits is the key of the tile asked about.
// Refused: 1, 2, 3.
#[unsafe(no_mangle)]
pub extern "C" fn nori_parent(
    x: u32,
    y: u32,
    z: u8,
    n: u8,
    tx: &mut u32,
    ty: &mut u32,
    tz: &mut u8,
    digits: &mut [u8; MAX_DIGITS],
    count: &mut u8,
) -> u8
    ensures { answered result
        (ancestor_at (tile_at tx.new ty.new tz.new) digits.new count.new)
        ≡ parent_given x y z n }
{
    c_fns::parent(x, y, z, n, tx, ty, tz, digits, count)
}

// The tiles of the target zoom inside a tile, each family clockwise by digits 0, 1, 3, 2.
// A target of z or less gives the tile itself; the Rust's None is z + 1.
// Refused: 1, 2, 12.
#[unsafe(no_mangle)]
pub extern "C" fn nori_children(
    x: u32,
    y: u32,
    z: u8,
    zoom: u8,
    out: &mut [u64],
    count: &mut u64,
) -> u8
    ensures { answered_in result count.new out.new ≡ children_of clockwise x y z zoom out.old }
{
    c_fns::children(x, y, z, zoom, out, count)
}

// The same, each family by digits 0, 1, 2, 3; the Rust's None is z + 1.
// Refused: 1, 2, 12.
#[unsafe(no_mangle)]
pub extern "C" fn nori_children_zorder(
    x: u32,
    y: u32,
    z: u8,
    zoom: u8,
    out: &mut [u64],
    count: &mut u64,
) -> u8
    ensures { answered_in result count.new out.new ≡ children_of z_order x y z zoom out.old }
{
    c_fns::children_zorder(x, y, z, zoom, out, count)
}

// The four children of a tile, by digits 0, 1, 2, 3.
// Refused: 1, 2, 12.
#[unsafe(no_mangle)]
pub extern "C" fn nori_children1_zorder(
    x: u32,
    y: u32,
    z: u8,
    out: &mut [u64],
    count: &mut u64,
) -> u8
    ensures { answered_in result count.new out.new ≡ children_of z_order x y z (z + 1) out.old }
{
    c_fns::children1_zorder(x, y, z, out, count)
}

// The other three children of the tile's parent: beside it, above or below it, and across.
// Refused: 1, 2, 3, 12.
#[unsafe(no_mangle)]
pub extern "C" fn nori_siblings(x: u32, y: u32, z: u8, out: &mut [u64], count: &mut u64) -> u8
    ensures { answered_in result count.new out.new ≡ siblings_written x y z out.old }
{
    c_fns::siblings(x, y, z, out, count)
}

// The tiles of the map around a tile, in the Rust's order: none at zoom 0, the siblings at zoom 1.
// Refused: 1, 2, 12.
#[unsafe(no_mangle)]
pub extern "C" fn nori_neighbors(x: u32, y: u32, z: u8, out: &mut [u64], count: &mut u64) -> u8
    ensures { answered_in result count.new out.new ≡ neighbors_written Cut x y z out.old }
{
    c_fns::neighbors(x, y, z, out, count)
}

// The same from zoom 2 on where the last column stands beside the first, in the Rust's order for that.
// Refused: 1, 2, 12.
#[unsafe(no_mangle)]
pub extern "C" fn nori_neighbors_wrap_x(
    x: u32,
    y: u32,
    z: u8,
    out: &mut [u64],
    count: &mut u64,
) -> u8
    ensures { answered_in result count.new out.new ≡ neighbors_written Wrapped x y z out.old }
{
    c_fns::neighbors_wrap_x(x, y, z, out, count)
}

// The first bit from the top, counted from 0, where west and east or south and north differ, at most 28.
// Never refused.
#[unsafe(no_mangle)]
pub extern "C" fn nori_bbox2zoom(west: u32, south: u32, east: u32, north: u32, zoom: &mut u8) -> u8
    ensures { answered result zoom.new ≡ never (bbox2zoom_of west south east north) }
{
    c_fns::bbox2zoom(west, south, east, north, zoom)
}

// The number (2^(z + 1) * y + x) * 32 + z of a tile. A zoom above NORI_MAX_ID_ZOOM is refused by 1: its numbers would not fit 64 bits.
// Refused: 1, 2.
#[unsafe(no_mangle)]
pub extern "C" fn nori_to_id(x: u32, y: u32, z: u8, id: &mut u64) -> u8
    ensures { answered result id.new ≡ to_id_of x y z }
{
    c_ids::to_id(x, y, z, id)
}

// The tile of a number of nori_to_id: none has a zoom above NORI_MAX_ID_ZOOM.
// Refused: 7.
#[unsafe(no_mangle)]
pub extern "C" fn nori_from_id(id: u64, tx: &mut u32, ty: &mut u32, tz: &mut u8) -> u8
    ensures { answered result (tile_at tx.new ty.new tz.new) ≡ from_id_of id }
{
    c_ids::from_id(id, tx, ty, tz)
}

// The number that stands for a tile in every list of tiles: that of nori_xyz2rmid. Up to version 0.3.0 it was that of nori_to_id, so stored
// entries of that time have to be turned over, by nori_from_id and this call.
// Refused: 1, 2.
#[unsafe(no_mangle)]
pub extern "C" fn nori_entry(x: u32, y: u32, z: u8, entry: &mut u64) -> u8
    ensures { answered result entry.new ≡ answer (tile_refusal x y z) 0 (entry_of x y z) }
{
    c_ids::entry(x, y, z, entry)
}

// The tile that a number in a list stands for.
// Refused: 7.
#[unsafe(no_mangle)]
pub extern "C" fn nori_entry_tile(entry: u64, tx: &mut u32, ty: &mut u32, tz: &mut u8) -> u8
    ensures { answered result (tile_at tx.new ty.new tz.new) ≡ entry_tile_of entry }
{
    c_ids::entry_tile(entry, tx, ty, tz)
}

// The number of a tile counted row by row, from the root on: (4^z - 1) / 3 + x + y * 2^z.
// Refused: 1, 2.
#[unsafe(no_mangle)]
pub extern "C" fn nori_xyz2rmid(x: u32, y: u32, z: u8, rmid: &mut u64) -> u8
    ensures { answered result rmid.new ≡ to_rmid_of x y z }
{
    c_ids::xyz2rmid(x, y, z, rmid)
}

// The tile of a number of nori_xyz2rmid.
// Refused: 7.
#[unsafe(no_mangle)]
pub extern "C" fn nori_rmid2xyz(rmid: u64, tx: &mut u32, ty: &mut u32, tz: &mut u8) -> u8
    ensures { answered result (tile_at tx.new ty.new tz.new) ≡ from_rmid_of rmid }
{
    c_ids::rmid2xyz(rmid, tx, ty, tz)
}

// The zoom of a number of nori_xyz2rmid, and its place among the tiles of that zoom, from 0 on.
// Refused: 7.
#[unsafe(no_mangle)]
pub extern "C" fn nori_int_2_offset_zoom(rmid: u64, offset: &mut u64, zoom: &mut u8) -> u8
    ensures { answered result (offset_zoom_at offset.new zoom.new) ≡ offset_zoom_of rmid }
{
    c_ids::int_2_offset_zoom(rmid, offset, zoom)
}
