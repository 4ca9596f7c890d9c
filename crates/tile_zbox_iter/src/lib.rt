// The tiles of one box one by one, as a cursor gives them, and the cursor's size hint.
#![tactic(auto)]

ghost use Rattle.std.specs.Prelude.{◌≡◌, ◌+◌, ◌<◌};
ghost use Rattle.errors.specs.Cases.{number_case};
ghost use Rattle.tile.specs.OnMap.{tile_at};
ghost use Rattle.tile_zbox.specs.Box.{IsBox, columns_of, rows_of, box_length};
ghost use Rattle.tile_zbox_iter.specs.Cursor.{cursor_at, kth_tile, next_case, step_from, next_of, size_hint_of};

use errors::Refusal;
use tile::{Next, Tile};
use tile_zbox::TileZBox;

// The tiles of a box one by one, x first, then y: the box, and how many of its tiles were given.
#[derive(Clone, Copy, Debug, PartialEq, Eq)]
pub struct TileZBoxIterator {
    pub range: TileZBox,
    pub given: u64,
}

impl TileZBoxIterator {
    // The cursor before the first tile of a box.
    pub fn from(range: TileZBox) -> Self
        ensures { result ≡ cursor_at range 0 }
    {
        Self { range, given: 0 }
    }

    // The next tile, x first, then y, and the cursor after it; once all were given none, and the cursor as it was.
    pub fn next(self) -> Result<Next<TileZBoxIterator>, Refusal>
        ensures { next_case result ≡ next_of self }
    {
        let range = self.range;
        range.check()?;
        step(range, self.given)
    }

    // How many tiles the Rust's iterator says are left: those of the whole box, however many were given.
    pub fn size_hint(self) -> Result<u64, Refusal>
        ensures { number_case result ≡ size_hint_of self }
    {
        let range = self.range;
        let tiles = range.length()?;
        if self.given > tiles {
            return Err(Refusal::NoBox);
        }
        Ok(tiles)
    }
}

fn step(range: TileZBox, given: u64) -> Result<Next<TileZBoxIterator>, Refusal>
    requires { IsBox range }
    ensures { next_case result ≡ step_from range given }
{
    let length = range.count();
    if given > length {
        return Err(Refusal::NoBox);
    }
    if given == length {
        return Ok(Next {
            tile: None,
            rest: TileZBoxIterator { range, given },
        });
    }
    Ok(Next {
        tile: Some(kth(range, given)),
        rest: TileZBoxIterator {
            range,
            given: given + 1,
        },
    })
}

// A box's tile number k: x first, then y. For `tile_zboxes_iter` too.
#[tactic(auto, using(crate::specs::Tiles::column_below, crate::specs::Tiles::row_below), unfolding(crate::specs::Cursor::kth_tile))]
pub fn kth(range: TileZBox, k: u64) -> Tile
    requires fact { IsBox range }
    requires k_bound { k < box_length range }
    ensures { result ≡ kth_tile range k }
{
    let columns = u64::from(range.columns());
    let across = k % columns;
    let down = k / columns;
    tile_from(range, across, down)
}

fn tile_from(range: TileZBox, across: u64, down: u64) -> Tile
    requires fact { IsBox range }
    requires across_bound { (across < columns_of range) × (down < rows_of range) }
    ensures { result ≡ tile_at (range.minx + across) (range.miny + down) range.zoom }
{
    Tile {
        x: range.minx + across as u32,
        y: range.miny + down as u32,
        z: range.zoom,
    }
}
