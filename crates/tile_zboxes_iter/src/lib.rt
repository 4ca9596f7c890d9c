// The tiles of several boxes one by one: the cursor over `TileZBoxes`, whose boxes are plain numbers as for
// `tile_zbox_numbers::boxes_length`, five for each: zoom, minx, maxx, miny, maxy.
#![tactic(auto)]

ghost use Rattle.std.specs.Prelude.{◌≡◌, ◌<◌, length, get_or};
ghost use Rattle.tile.specs.OnMap.{no_tile_of};
ghost use Rattle.tile_zbox_numbers.specs.Boxes.{boxes_of, numbers_refusal};
ghost use Rattle.tile_zboxes_iter.specs.Cursor.{boxes_cursor_at, tiles_of_all, boxes_next_case, boxes_step_from, boxes_next_of};

use errors::Refusal;
use tile::{Next, Tile};

// All tiles of the first box, then those of the second, and so on: how many were given in all. The boxes are lent to each call.
#[derive(Clone, Copy, Debug, PartialEq, Eq)]
pub struct TileZBoxesIterator {
    pub given: u64,
}

impl TileZBoxesIterator {
    // The cursor before the first tile of the first box.
    pub fn new() -> Self
        ensures { result ≡ boxes_cursor_at 0 }
    {
        Self { given: 0 }
    }

    // The next tile, box by box, and the cursor after it; once all were given none, and the cursor as it was.
    pub fn next(self, boxes: &[u32]) -> Result<Next<TileZBoxesIterator>, Refusal>
        ensures { boxes_next_case result ≡ boxes_next_of self boxes.now }
    {
        let given = self.given;
        let total = tile_zbox_numbers::boxes_length(boxes)?;
        step(boxes, total, given)
    }
}

fn step(boxes: &[u32], total: u64, given: u64) -> Result<Next<TileZBoxesIterator>, Refusal>
    requires boxes_value { numbers_refusal boxes.now ≡ 0 }
    requires total_value { total ≡ length (tiles_of_all (boxes_of boxes.now)) }
    ensures { boxes_next_case result ≡ boxes_step_from (tiles_of_all (boxes_of boxes.now)) given }
{
    if given > total {
        return Err(Refusal::NoBox);
    }
    if given == total {
        return Ok(Next {
            tile: None,
            rest: TileZBoxesIterator { given },
        });
    }
    Ok(Next {
        tile: Some(tile_at(boxes, given)),
        rest: TileZBoxesIterator { given: given + 1 },
    })
}

// The tile at a place: each box before it takes its length off the place.
// No `for` over the boxes, which would want a tile to give past the last one: that would be no plainer.
fn tile_at(boxes: &[u32], given: u64) -> Tile
    requires boxes_value { numbers_refusal boxes.now ≡ 0 }
    requires given_in_bounds { given < length (tiles_of_all (boxes_of boxes.now)) }
    ensures { result ≡ get_or (tiles_of_all (boxes_of boxes.now)) given no_tile_of }
{
    let mut at = 0;
    let mut place = given;
    let mut range = tile_zbox_numbers::box_at(boxes, at);
    let mut tiles = range.count();
    while tiles <= place {
        place -= tiles;
        at += 5;
        range = tile_zbox_numbers::box_at(boxes, at);
        tiles = range.count();
    }
    tile_zbox_iter::kth(range, place)
}
