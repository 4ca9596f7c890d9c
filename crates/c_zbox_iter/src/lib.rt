// What the exported calls of tile_zbox.rs on cursors do: each asks the library and hands the answer on in numbers.
#![tactic(auto)]

ghost use Rattle.std.specs.Prelude.{◌≡◌};
ghost use Rattle.c_give.specs.Exported.{answered};
ghost use Rattle.c_zbox_iter.specs.Step.{boxes_step_numbers, step_at, step_case, step_numbers};
ghost use Rattle.tile.specs.OnMap.{tile_at};
ghost use Rattle.tile_zbox.specs.Box.{box_at};
ghost use Rattle.tile_zbox_iter.specs.Cursor.{cursor_at, next_of, size_hint_of};
ghost use Rattle.tile_zboxes_iter.specs.Cursor.{boxes_cursor_at, boxes_next_of};

use errors::Refusal;
use tile::Tile;
use tile_zbox_iter::TileZBoxIterator;
use tile_zboxes_iter::TileZBoxesIterator;

pub fn next(
    zoom: u8,
    minx: u32,
    maxx: u32,
    miny: u32,
    maxy: u32,
    before: u64,
    count: &mut u8,
    tx: &mut u32,
    ty: &mut u32,
    tz: &mut u8,
    after: &mut u64,
) -> u8
    ensures { answered result (step_at count.new (tile_at tx.new ty.new tz.new)
        after.new) ≡ step_numbers (next_of (cursor_at (box_at zoom minx maxx miny maxy) before)) }
{
    let range = c_zbox::zbox(zoom, minx, maxx, miny, maxy);
    let cursor = TileZBoxIterator {
        range,
        given: before,
    };
    let answer = cursor.next().map(|next| (next.tile, next.rest.given));
    give_step(answer, count, tx, ty, tz, after)
}

pub fn size_hint(
    zoom: u8,
    minx: u32,
    maxx: u32,
    miny: u32,
    maxy: u32,
    before: u64,
    length: &mut u64,
) -> u8
    ensures { answered result length.new ≡ size_hint_of (cursor_at (box_at zoom minx maxx miny maxy) before) }
{
    let range = c_zbox::zbox(zoom, minx, maxx, miny, maxy);
    let cursor = TileZBoxIterator {
        range,
        given: before,
    };
    c_give::value(cursor.size_hint(), 0, length)
}

pub fn boxes_next(
    boxes: &[u32],
    before: u64,
    count: &mut u8,
    tx: &mut u32,
    ty: &mut u32,
    tz: &mut u8,
    after: &mut u64,
) -> u8
    ensures { answered result (step_at count.new (tile_at tx.new ty.new tz.new)
        after.new) ≡ boxes_step_numbers (boxes_next_of (boxes_cursor_at before) boxes.now) }
{
    let cursor = TileZBoxesIterator { given: before };
    let answer = cursor.next(boxes).map(|next| (next.tile, next.rest.given));
    give_step(answer, count, tx, ty, tz, after)
}

// Of a cursor over a box or several, the tile, if there is one, and how many were given by then.
fn give_step(
    answer: Result<(Option<Tile>, u64), Refusal>,
    count: &mut u8,
    x: &mut u32,
    y: &mut u32,
    z: &mut u8,
    after: &mut u64,
) -> u8
    ensures { answered result (step_at count.new (tile_at x.new y.new z.new) after.new) ≡ step_case answer }
{
    let (number, (tile, given)) = c_give::apart(answer, (None, 0));
    let t = tile.unwrap_or(Tile { x: 0, y: 0, z: 0 });
    *count = tile.is_some() as u8;
    *x = t.x;
    *y = t.y;
    *z = t.z;
    *after = given;
    number
}
