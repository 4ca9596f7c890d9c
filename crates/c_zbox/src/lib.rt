// What the exported calls of tile_zbox.rs on boxes do: each asks the library and hands the answer on in numbers.
#![tactic(auto)]

ghost use Rattle.std.specs.Prelude.{◌≡◌};
ghost use Rattle.c_give.specs.Exported.{answered, as_byte, answered_in};
ghost use Rattle.tile_zbox_around.specs.Around.{from_tiles_of};
ghost use Rattle.tile_zbox.specs.Box.{box_at, box_case, box_refusal, contains_of, dimensions_of, dx_of, dxdy_of, dy_of, extent_at, extent_case};
ghost use Rattle.tile_zbox.specs.Box.{box_flip_of, from_tile_of, length_of, new_of, zoom_depth_of, zoom_in_of};
ghost use Rattle.tile_zbox_numbers.specs.Boxes.{boxes_flip_of, numbers_length_of};

use errors::Refusal;
use tile_zbox::{Extent, TileZBox};

pub fn new(
    minx: u32,
    maxx: u32,
    miny: u32,
    maxy: u32,
    zoom: u8,
    bz: &mut u8,
    left: &mut u32,
    right: &mut u32,
    top: &mut u32,
    bottom: &mut u32,
) -> u8
    ensures { answered result (box_at bz.new left.new right.new top.new bottom.new)
        ≡ new_of minx maxx miny maxy zoom }
{
    give_box(
        TileZBox::new(minx, maxx, miny, maxy, zoom),
        bz,
        left,
        right,
        top,
        bottom,
    )
}

pub fn check(zoom: u8, minx: u32, maxx: u32, miny: u32, maxy: u32) -> u8
    ensures { result ≡ box_refusal (box_at zoom minx maxx miny maxy) }
{
    errors::check_number(zbox(zoom, minx, maxx, miny, maxy).check())
}

pub fn from_tile(
    x: u32,
    y: u32,
    z: u8,
    bz: &mut u8,
    left: &mut u32,
    right: &mut u32,
    top: &mut u32,
    bottom: &mut u32,
) -> u8
    ensures { answered result (box_at bz.new left.new right.new top.new bottom.new)
        ≡ from_tile_of x y z }
{
    give_box(TileZBox::from_tile(x, y, z), bz, left, right, top, bottom)
}

pub fn from_tiles(
    list: &[u64],
    bz: &mut u8,
    left: &mut u32,
    right: &mut u32,
    top: &mut u32,
    bottom: &mut u32,
) -> u8
    ensures { answered result (box_at bz.new left.new right.new top.new bottom.new)
        ≡ from_tiles_of list.now }
{
    give_box(
        tile_zbox_around::from_tiles(list),
        bz,
        left,
        right,
        top,
        bottom,
    )
}

pub fn contains_tile(
    zoom: u8,
    minx: u32,
    maxx: u32,
    miny: u32,
    maxy: u32,
    x: u32,
    y: u32,
    z: u8,
    told: &mut u8,
) -> u8
    ensures { answered result told.new ≡ as_byte (contains_of (box_at zoom minx maxx miny maxy) x y z) }
{
    c_give::told(
        zbox(zoom, minx, maxx, miny, maxy).contains_tile(x, y, z),
        told,
    )
}

pub fn flipy(
    zoom: u8,
    minx: u32,
    maxx: u32,
    miny: u32,
    maxy: u32,
    bz: &mut u8,
    left: &mut u32,
    right: &mut u32,
    top: &mut u32,
    bottom: &mut u32,
) -> u8
    ensures { answered result (box_at bz.new left.new right.new top.new bottom.new)
        ≡ box_flip_of (box_at zoom minx maxx miny maxy) }
{
    give_box(
        zbox(zoom, minx, maxx, miny, maxy).flipy(),
        bz,
        left,
        right,
        top,
        bottom,
    )
}

pub fn zoom_in(
    zoom: u8,
    minx: u32,
    maxx: u32,
    miny: u32,
    maxy: u32,
    bz: &mut u8,
    left: &mut u32,
    right: &mut u32,
    top: &mut u32,
    bottom: &mut u32,
) -> u8
    ensures { answered result (box_at bz.new left.new right.new top.new bottom.new)
        ≡ zoom_in_of (box_at zoom minx maxx miny maxy) }
{
    give_box(
        zbox(zoom, minx, maxx, miny, maxy).zoom_in(),
        bz,
        left,
        right,
        top,
        bottom,
    )
}

pub fn zoom_depth(
    zoom: u8,
    minx: u32,
    maxx: u32,
    miny: u32,
    maxy: u32,
    depth: u8,
    bz: &mut u8,
    left: &mut u32,
    right: &mut u32,
    top: &mut u32,
    bottom: &mut u32,
) -> u8
    ensures { answered result (box_at bz.new left.new right.new top.new bottom.new)
        ≡ zoom_depth_of (box_at zoom minx maxx miny maxy) depth }
{
    give_box(
        zbox(zoom, minx, maxx, miny, maxy).zoom_depth(depth),
        bz,
        left,
        right,
        top,
        bottom,
    )
}

pub fn length(zoom: u8, minx: u32, maxx: u32, miny: u32, maxy: u32, length: &mut u64) -> u8
    ensures { answered result length.new ≡ length_of (box_at zoom minx maxx miny maxy) }
{
    c_give::value(zbox(zoom, minx, maxx, miny, maxy).length(), 0, length)
}

pub fn dx(zoom: u8, minx: u32, maxx: u32, miny: u32, maxy: u32, across: &mut u32) -> u8
    ensures { answered result across.new ≡ dx_of (box_at zoom minx maxx miny maxy) }
{
    c_give::value(zbox(zoom, minx, maxx, miny, maxy).dx(), 0, across)
}

pub fn dy(zoom: u8, minx: u32, maxx: u32, miny: u32, maxy: u32, down: &mut u32) -> u8
    ensures { answered result down.new ≡ dy_of (box_at zoom minx maxx miny maxy) }
{
    c_give::value(zbox(zoom, minx, maxx, miny, maxy).dy(), 0, down)
}

pub fn dxdy(
    zoom: u8,
    minx: u32,
    maxx: u32,
    miny: u32,
    maxy: u32,
    across: &mut u32,
    down: &mut u32,
) -> u8
    ensures { answered result (extent_at across.new down.new) ≡ dxdy_of (box_at zoom minx maxx miny maxy) }
{
    give_extent(zbox(zoom, minx, maxx, miny, maxy).dxdy(), across, down)
}

pub fn dimensions(
    zoom: u8,
    minx: u32,
    maxx: u32,
    miny: u32,
    maxy: u32,
    across: &mut u32,
    down: &mut u32,
) -> u8
    ensures { answered result (extent_at across.new down.new) ≡ dimensions_of (box_at zoom minx maxx miny maxy) }
{
    give_extent(
        zbox(zoom, minx, maxx, miny, maxy).dimensions(),
        across,
        down,
    )
}

pub fn boxes_length(boxes: &[u32], length: &mut u64) -> u8
    ensures { answered result length.new ≡ numbers_length_of boxes.now }
{
    c_give::value(tile_zbox_numbers::boxes_length(boxes), 0, length)
}

pub fn boxes_flipy(boxes: &[u32], out: &mut [u32], count: &mut u64) -> u8
    ensures { answered_in result count.new out.new ≡ boxes_flip_of boxes.now out.old }
{
    let answer = tile_zbox_numbers::boxes_flipy(boxes, out);
    c_give::count(answer, count)
}

fn give_box(
    answer: Result<TileZBox, Refusal>,
    bz: &mut u8,
    left: &mut u32,
    right: &mut u32,
    top: &mut u32,
    bottom: &mut u32,
) -> u8
    ensures { answered result (box_at bz.new left.new right.new top.new bottom.new)
        ≡ box_case answer }
{
    let (number, area) = c_give::apart(answer, zbox(0, 0, 0, 0, 0));
    *bz = area.zoom;
    *left = area.minx;
    *right = area.maxx;
    *top = area.miny;
    *bottom = area.maxy;
    number
}

fn give_extent(answer: Result<Extent, Refusal>, across: &mut u32, down: &mut u32) -> u8
    ensures { answered result (extent_at across.new down.new) ≡ extent_case answer }
{
    let (number, extent) = c_give::apart(answer, Extent { across: 0, down: 0 });
    *across = extent.across;
    *down = extent.down;
    number
}

// The box that the numbers of a call stand for.
pub fn zbox(zoom: u8, minx: u32, maxx: u32, miny: u32, maxy: u32) -> TileZBox
    ensures { result ≡ box_at zoom minx maxx miny maxy }
{
    TileZBox {
        zoom,
        minx,
        maxx,
        miny,
        maxy,
    }
}
