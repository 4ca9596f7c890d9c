// Boxes of tiles: the calls of tile_zbox.rs. A box is a zoom and the least and the greatest x and y, both included.
ghost use Rattle.std.specs.Prelude.{◌≡◌};
ghost use Rattle.c_give.specs.Exported.{answered, as_byte, answered_in};
ghost use Rattle.c_zbox_iter.specs.Step.{boxes_step_numbers, step_at, step_numbers};
ghost use Rattle.tile.specs.OnMap.{tile_at};
ghost use Rattle.tile_zbox_around.specs.Around.{from_tiles_of};
ghost use Rattle.tile_zbox.specs.Box.{box_at, box_refusal, contains_of, dimensions_of, dx_of, dxdy_of, dy_of, extent_at, box_flip_of, from_tile_of};
ghost use Rattle.tile_zbox.specs.Box.{length_of, new_of, zoom_depth_of, zoom_in_of};
ghost use Rattle.tile_zbox_numbers.specs.Boxes.{boxes_flip_of, numbers_length_of};
ghost use Rattle.tile_zbox_iter.specs.Cursor.{cursor_at, next_of, size_hint_of};
ghost use Rattle.tile_zboxes_iter.specs.Cursor.{boxes_cursor_at, boxes_next_of};

// The box itself, where it is one of the map: no min above its max, and no max off the map.
// Refused: 1, 10.
#[unsafe(no_mangle)]
pub extern "C" fn nori_zbox_new(
    minx: u32,
    maxx: u32,
    miny: u32,
    maxy: u32,
    zoom: u8,
    bz: &mut u8,
    left: &mut u32,
    right: &mut u32,
    top: &mut u32,
    bottom: &mut u32,
) -> u8
    ensures { answered result (box_at bz.new left.new right.new top.new bottom.new)
        ≡ new_of minx maxx miny maxy zoom }
{
    c_zbox::new(minx, maxx, miny, maxy, zoom, bz, left, right, top, bottom)
}

// Whether it is a box of the map: nothing but the number comes back.
// Refused: 1, 10.
#[unsafe(no_mangle)]
pub extern "C" fn nori_zbox_check(zoom: u8, minx: u32, maxx: u32, miny: u32, maxy: u32) -> u8
    ensures { result ≡ box_refusal (box_at zoom minx maxx miny maxy) }
{
    c_zbox::check(zoom, minx, maxx, miny, maxy)
}

// The box of one tile.
// Refused: 1, 2.
#[unsafe(no_mangle)]
pub extern "C" fn nori_zbox_from_tile(
    x: u32,
    y: u32,
    z: u8,
    bz: &mut u8,
    left: &mut u32,
    right: &mut u32,
    top: &mut u32,
    bottom: &mut u32,
) -> u8
    ensures { answered result (box_at bz.new left.new right.new top.new bottom.new)
        ≡ from_tile_of x y z }
{
    c_zbox::from_tile(x, y, z, bz, left, right, top, bottom)
}

// The smallest box around the listed tiles, which are of one zoom.
// Refused: 6, 7, 8, 9.
#[unsafe(no_mangle)]
pub extern "C" fn nori_zbox_from_tiles(
    list: &[u64],
    bz: &mut u8,
    left: &mut u32,
    right: &mut u32,
    top: &mut u32,
    bottom: &mut u32,
) -> u8
    ensures { answered result (box_at bz.new left.new right.new top.new bottom.new)
        ≡ from_tiles_of list.now }
{
    c_zbox::from_tiles(list, bz, left, right, top, bottom)
}

// Whether a tile lies in a box; one of another zoom does not.
// Refused: 1, 2, 10.
#[unsafe(no_mangle)]
pub extern "C" fn nori_zbox_contains_tile(
    zoom: u8,
    minx: u32,
    maxx: u32,
    miny: u32,
    maxy: u32,
    x: u32,
    y: u32,
    z: u8,
    told: &mut u8,
) -> u8
    ensures { answered result told.new ≡ as_byte (contains_of (box_at zoom minx maxx miny maxy) x y z) }
{
    c_zbox::contains_tile(zoom, minx, maxx, miny, maxy, x, y, z, told)
}

// The box with its rows counted from the other side of the map.
// Refused: 1, 10.
#[unsafe(no_mangle)]
pub extern "C" fn nori_zbox_flipy(
    zoom: u8,
    minx: u32,
    maxx: u32,
    miny: u32,
    maxy: u32,
    bz: &mut u8,
    left: &mut u32,
    right: &mut u32,
    top: &mut u32,
    bottom: &mut u32,
) -> u8
    ensures { answered result (box_at bz.new left.new right.new top.new bottom.new)
        ≡ box_flip_of (box_at zoom minx maxx miny maxy) }
{
    c_zbox::flipy(zoom, minx, maxx, miny, maxy, bz, left, right, top, bottom)
}

// The box of its tiles' children.
// Refused: 1, 10.
#[unsafe(no_mangle)]
pub extern "C" fn nori_zbox_zoom_in(
    zoom: u8,
    minx: u32,
    maxx: u32,
    miny: u32,
    maxy: u32,
    bz: &mut u8,
    left: &mut u32,
    right: &mut u32,
    top: &mut u32,
    bottom: &mut u32,
) -> u8
    ensures { answered result (box_at bz.new left.new right.new top.new bottom.new)
        ≡ zoom_in_of (box_at zoom minx maxx miny maxy) }
{
    c_zbox::zoom_in(zoom, minx, maxx, miny, maxy, bz, left, right, top, bottom)
}

// The box of its tiles' descendants depth zooms down, for 0 the box itself.
// Refused: 1, 10.
#[unsafe(no_mangle)]
pub extern "C" fn nori_zbox_zoom_depth(
    zoom: u8,
    minx: u32,
    maxx: u32,
    miny: u32,
    maxy: u32,
    depth: u8,
    bz: &mut u8,
    left: &mut u32,
    right: &mut u32,
    top: &mut u32,
    bottom: &mut u32,
) -> u8
    ensures { answered result (box_at bz.new left.new right.new top.new bottom.new)
        ≡ zoom_depth_of (box_at zoom minx maxx miny maxy) depth }
{
    c_zbox::zoom_depth(
        zoom, minx, maxx, miny, maxy, depth, bz, left, right, top, bottom,
    )
}

// How many tiles a box has.
// Refused: 1, 10.
#[unsafe(no_mangle)]
pub extern "C" fn nori_zbox_length(
    zoom: u8,
    minx: u32,
    maxx: u32,
    miny: u32,
    maxy: u32,
    length: &mut u64,
) -> u8
    ensures { answered result length.new ≡ length_of (box_at zoom minx maxx miny maxy) }
{
    c_zbox::length(zoom, minx, maxx, miny, maxy, length)
}

// The same as nori_zbox_length.
// Refused: 1, 10.
#[unsafe(no_mangle)]
pub extern "C" fn nori_zbox_size(
    zoom: u8,
    minx: u32,
    maxx: u32,
    miny: u32,
    maxy: u32,
    length: &mut u64,
) -> u8
    ensures { answered result length.new ≡ length_of (box_at zoom minx maxx miny maxy) }
{
    c_zbox::length(zoom, minx, maxx, miny, maxy, length)
}

// The greatest x less the least: one less than the columns.
// Refused: 1, 10.
#[unsafe(no_mangle)]
pub extern "C" fn nori_zbox_dx(
    zoom: u8,
    minx: u32,
    maxx: u32,
    miny: u32,
    maxy: u32,
    across: &mut u32,
) -> u8
    ensures { answered result across.new ≡ dx_of (box_at zoom minx maxx miny maxy) }
{
    c_zbox::dx(zoom, minx, maxx, miny, maxy, across)
}

// The greatest y less the least: one less than the rows.
// Refused: 1, 10.
#[unsafe(no_mangle)]
pub extern "C" fn nori_zbox_dy(
    zoom: u8,
    minx: u32,
    maxx: u32,
    miny: u32,
    maxy: u32,
    down: &mut u32,
) -> u8
    ensures { answered result down.new ≡ dy_of (box_at zoom minx maxx miny maxy) }
{
    c_zbox::dy(zoom, minx, maxx, miny, maxy, down)
}

// The same as nori_zbox_dx.
// Refused: 1, 10.
#[unsafe(no_mangle)]
pub extern "C" fn nori_zbox_width(
    zoom: u8,
    minx: u32,
    maxx: u32,
    miny: u32,
    maxy: u32,
    across: &mut u32,
) -> u8
    ensures { answered result across.new ≡ dx_of (box_at zoom minx maxx miny maxy) }
{
    c_zbox::dx(zoom, minx, maxx, miny, maxy, across)
}

// The same as nori_zbox_dy.
// Refused: 1, 10.
#[unsafe(no_mangle)]
pub extern "C" fn nori_zbox_height(
    zoom: u8,
    minx: u32,
    maxx: u32,
    miny: u32,
    maxy: u32,
    down: &mut u32,
) -> u8
    ensures { answered result down.new ≡ dy_of (box_at zoom minx maxx miny maxy) }
{
    c_zbox::dy(zoom, minx, maxx, miny, maxy, down)
}

// Both nori_zbox_dx and nori_zbox_dy.
// Refused: 1, 10.
#[unsafe(no_mangle)]
pub extern "C" fn nori_zbox_dxdy(
    zoom: u8,
    minx: u32,
    maxx: u32,
    miny: u32,
    maxy: u32,
    across: &mut u32,
    down: &mut u32,
) -> u8
    ensures { answered result (extent_at across.new down.new) ≡ dxdy_of (box_at zoom minx maxx miny maxy) }
{
    c_zbox::dxdy(zoom, minx, maxx, miny, maxy, across, down)
}

// How many columns and how many rows a box has.
// Refused: 1, 10.
#[unsafe(no_mangle)]
pub extern "C" fn nori_zbox_dimensions(
    zoom: u8,
    minx: u32,
    maxx: u32,
    miny: u32,
    maxy: u32,
    across: &mut u32,
    down: &mut u32,
) -> u8
    ensures { answered result (extent_at across.new down.new) ≡ dimensions_of (box_at zoom minx maxx miny maxy) }
{
    c_zbox::dimensions(zoom, minx, maxx, miny, maxy, across, down)
}

// The box's tile behind the first before ones, x first, then y, with the count 1; after is before + 1.
// Behind the last tile the count is 0 and after is before.
// Refused: 1, 10.
#[unsafe(no_mangle)]
pub extern "C" fn nori_zbox_next(
    zoom: u8,
    minx: u32,
    maxx: u32,
    miny: u32,
    maxy: u32,
    before: u64,
    count: &mut u8,
    tx: &mut u32,
    ty: &mut u32,
    tz: &mut u8,
    after: &mut u64,
) -> u8
    ensures { answered result (step_at count.new (tile_at tx.new ty.new tz.new)
        after.new) ≡ step_numbers (next_of (cursor_at (box_at zoom minx maxx miny maxy) before)) }
{
    c_zbox_iter::next(
        zoom, minx, maxx, miny, maxy, before, count, tx, ty, tz, after,
    )
}

// How many tiles the Rust's iterator says are left of a box: all of them, also behind the first before ones.
// Refused: 1, 10.
#[unsafe(no_mangle)]
pub extern "C" fn nori_zbox_size_hint(
    zoom: u8,
    minx: u32,
    maxx: u32,
    miny: u32,
    maxy: u32,
    before: u64,
    length: &mut u64,
) -> u8
    ensures { answered result length.new ≡ size_hint_of (cursor_at (box_at zoom minx maxx miny maxy) before) }
{
    c_zbox_iter::size_hint(zoom, minx, maxx, miny, maxy, before, length)
}

// How many tiles several boxes have together, overlaps counted twice.
// Five numbers a box: zoom, least x, greatest x, least y, greatest y.
// Refused: 1, 6, 10.
#[unsafe(no_mangle)]
pub extern "C" fn nori_zboxes_length(boxes: &[u32], length: &mut u64) -> u8
    ensures { answered result length.new ≡ numbers_length_of boxes.now }
{
    c_zbox::boxes_length(boxes, length)
}

// Several boxes with their rows counted from the other side of the map. Five numbers a box, as for nori_zboxes_length;
// count counts the numbers.
// Refused: 1, 6, 10, 12.
#[unsafe(no_mangle)]
pub extern "C" fn nori_zboxes_flipy(boxes: &[u32], out: &mut [u32], count: &mut u64) -> u8
    ensures { answered_in result count.new out.new ≡ boxes_flip_of boxes.now out.old }
{
    c_zbox::boxes_flipy(boxes, out, count)
}

// The tile of several boxes behind the first before ones, box by box, with the count 1; after is before + 1.
// Each box's tiles come as nori_zbox_next gives them. Behind the last tile of all the count is 0 and after is before.
// Five numbers a box, as for nori_zboxes_length.
// Refused: 1, 6, 10.
#[unsafe(no_mangle)]
pub extern "C" fn nori_zboxes_next(
    boxes: &[u32],
    before: u64,
    count: &mut u8,
    tx: &mut u32,
    ty: &mut u32,
    tz: &mut u8,
    after: &mut u64,
) -> u8
    ensures { answered result (step_at count.new (tile_at tx.new ty.new tz.new)
        after.new) ≡ boxes_step_numbers (boxes_next_of (boxes_cursor_at before) boxes.now) }
{
    c_zbox_iter::boxes_next(boxes, before, count, tx, ty, tz, after)
}
