// The tiles around a tile, as list entries: its neighbours, and its neighbours on a map that wraps in x.
#![tactic(auto)]

ghost use Rattle.std.specs.Prelude.{◌≡◌, ◌++◌, ◌+◌, ◌^◌, ◌<◌, ◌≤◌, length, drop};
ghost use Rattle.errors.specs.Answer.{answer};
ghost use Rattle.errors.specs.Cases.{number_case, left};
ghost use Rattle.tile.specs.OnMap.{OnMap, tile_refusal};
ghost use Rattle.children.specs.Children.{gather};
ghost use Rattle.ids.specs.Entry.{entries_of};
ghost use Rattle.neighbors.specs.Neighbors.{order_of, near_of, spot_tiles, neighbors_written, around_written, SpotOnMap, pasted};
ghost use Rattle.neighbors.specs.declared.Seam.TheVariants.{Cut, Wrapped};

use errors::Refusal;
use tile::Tile;

// The squares of the block of nine around a tile, numbered column by column from 0; the tile itself is square 4.
const AROUND: [u8; 8] = [7, 5, 8, 1, 3, 0, 6, 2];

const AROUND_WRAPPED: [u8; 8] = [0, 1, 2, 3, 5, 6, 7, 8];

// The seam of the map is the antimeridian: the map is cut there, or wrapped, so that the last column stands beside the first.
#[derive(Clone, Copy, Debug, PartialEq, Eq)]
pub enum Seam {
    Cut,
    Wrapped,
}

impl Seam {
    // The squares in the order in which they are gone through. They are lent: with a copy of them a call took a quarter more instructions.
    fn squares(self) -> &'static [u8; 8]
        ensures { result.now ≡ order_of self }
    {
        match self {
            Seam::Cut => &AROUND,
            Seam::Wrapped => &AROUND_WRAPPED,
        }
    }
}

// The tiles of the map around a tile, in the Rust's order: none at zoom 0, the siblings at zoom 1.
pub fn neighbors(x: u32, y: u32, z: u8, out: &mut [u64]) -> Result<usize, Refusal>
    ensures { left result out.new ≡ neighbors_written Cut x y z out.old }
{
    near(Seam::Cut, x, y, z, out)
}

pub fn neighbors_wrap_x(x: u32, y: u32, z: u8, out: &mut [u64]) -> Result<usize, Refusal>
    ensures { left result out.new ≡ neighbors_written Wrapped x y z out.old }
{
    near(Seam::Wrapped, x, y, z, out)
}

fn near(seam: Seam, x: u32, y: u32, z: u8, out: &mut [u64]) -> Result<usize, Refusal>
    ensures { left result out.new ≡ neighbors_written seam x y z out.old }
{
    match z {
        0 => none(x, y, z),
        1 => siblings::siblings(x, y, z, out),
        _ => around(seam, x, y, z, out),
    }
}

// At zoom 0 there is nothing beside a tile, and no memory is needed.
fn none(x: u32, y: u32, z: u8) -> Result<usize, Refusal>
    ensures { number_case result ≡ answer (tile_refusal x y z) 0 0 }
{
    tile::check(x, y, z)?;
    Ok(0)
}

// The tiles of the block of nine that are on the map.
fn around(seam: Seam, x: u32, y: u32, z: u8, out: &mut [u64]) -> Result<usize, Refusal>
    ensures { left result out.new ≡ around_written seam x y z out.old }
{
    let end = tile::side(x, y, z)?;
    let n = count(seam, x, y, z, end);
    if out.len() < n {
        return Err(Refusal::Memory);
    }
    fill(seam, x, y, z, end, out);
    Ok(n)
}

fn count(seam: Seam, x: u32, y: u32, z: u8, end: u32) -> usize
    requires on_map { OnMap x y z }
    requires end_value { end ≡ 2 ^ z }
    ensures { result ≡ length (gather (near_of seam x y z) (order_of seam)) }
{
    let mut n = 0;
    for &s in seam.squares() {
        n += tiles(spot_at(seam, x, y, z, end, s));
    }
    n
}

// How many tiles a square has: one, or none where it is off the map.
fn tiles(spot: Option<Tile>) -> usize
    ensures { result ≡ length (spot_tiles spot) }
{
    usize::from(spot.is_some())
}

fn fill(seam: Seam, x: u32, y: u32, z: u8, end: u32, out: &mut [u64])
    requires on_map { OnMap x y z }
    requires end_value { end ≡ 2 ^ z }
    requires seam_in_bounds { length (gather (near_of seam x y z) (order_of seam)) ≤ length out.old }
    ensures { out.new ≡ entries_of (gather (near_of seam x y z) (order_of seam))
        ++ drop (length (gather (near_of seam x y z) (order_of seam))) out.old }
{
    let mut n = 0;
    for &s in seam.squares() {
        n = put(out, n, spot_at(seam, x, y, z, end, s));
    }
}

// The entry of a square's tile goes to place n of the list, and n to the next; nothing changes where the square is off the map.
fn put(out: &mut [u64], n: usize, spot: Option<Tile>) -> usize
    requires spot_on_map { SpotOnMap spot }
    requires spot_in_bounds { n + length (spot_tiles spot) ≤ length out.old }
    ensures value { result ≡ n + length (spot_tiles spot) }
    ensures out_after { out.new ≡ pasted n (entries_of (spot_tiles spot)) out.old }
{
    match spot {
        Some(t) => {
            out[n] = ids::entry(t.x, t.y, t.z);
            n + 1
        }
        None => n,
    }
}

// The tile of a square of the nine, where that is on the map.
fn spot_at(seam: Seam, x: u32, y: u32, z: u8, end: u32, s: u8) -> Option<Tile>
    requires on_map { OnMap x y z }
    requires end_value { end ≡ 2 ^ z }
    requires s_bound { s < 9 }
    ensures { spot_tiles result ≡ near_of seam x y z s }
{
    let across = x + u32::from(s / 3);
    let along = y + u32::from(s % 3);
    if along < 1 || end < along {
        return None;
    }
    if let Seam::Wrapped = seam {
        return Some(Tile {
            x: (across + end - 1) % end,
            y: along - 1,
            z,
        });
    }
    if across < 1 || end < across {
        return None;
    }
    Some(Tile {
        x: across - 1,
        y: along - 1,
        z,
    })
}
