// A tile of the map by column, row and zoom: its check, its order, and the steps to the tiles beside it.
#![tactic(auto)]

ghost use Rattle.std.specs.Prelude.{◌≡◌, ◌<◌};
ghost use Rattle.std.proofs.Common.{rules};
ghost use Rattle.std.specs.Cmp.{partial_order_from_own_ties};
ghost use Rattle.std.specs.Cmp.Rules.{comparing};
ghost use Rattle.std.specs.Ordering.{as_partial_cmp};
ghost use Rattle.errors.specs.Cases.{check_number, number_case};
ghost use Rattle.tile.specs.OnMap.{tile_refusal, tile_case, side_of, try_new};
ghost use Rattle.tile.specs.Order.{tile_order};
ghost use Rattle.tile.specs.Steps.{flip_of, step_of, stepped_to};
ghost use Rattle.tile.specs.Steps.{up_of, down_of, left_tile_of, right_of, up_left_of, up_right_of, down_left_of, down_right_of};

use constants::MAX_ZOOM;
use errors::Refusal;
use std::cmp::Ordering;

// x grows east, y south.
#[derive(Clone, Copy, Debug, PartialEq, Eq)]
pub struct Tile {
    pub x: u32,
    pub y: u32,
    pub z: u8,
}

// What a cursor gives: a tile or, past its last one, none; and the cursor after it.
#[derive(Clone, Copy, Debug, PartialEq, Eq)]
pub struct Next<C> {
    pub tile: Option<Tile>,
    pub rest: C,
}

// A step along one axis: to the number below, none, or to the number above.
#[derive(Clone, Copy)]
pub enum Step {
    Back,
    Stay,
    On,
}

// Whether x, y and z name a tile: the zoom is tested before the place.
pub fn check(x: u32, y: u32, z: u8) -> Result<(), Refusal>
    ensures { check_number result ≡ tile_refusal x y z }
{
    if z > MAX_ZOOM {
        return Err(Refusal::Zoom);
    }
    let end = bits::pow2(z);
    if x >= end {
        return Err(Refusal::OffMap);
    }
    if y >= end {
        return Err(Refusal::OffMap);
    }
    Ok(())
}

// How many columns the tile's zoom has, and how many rows.
pub fn side(x: u32, y: u32, z: u8) -> Result<u32, Refusal>
    ensures { number_case result ≡ side_of x y z }
{
    check(x, y, z)?;
    Ok(bits::pow2(z))
}

impl Tile {
    // The tile at column x and row y of zoom z, where that is one of the map.
    pub fn try_new(x: u32, y: u32, z: u8) -> Result<Tile, Refusal>
        ensures { tile_case result ≡ try_new x y z }
    {
        check(x, y, z)?;
        Ok(Tile { x, y, z })
    }

    // Rows counted from the other side of the map.
    pub fn flip(self) -> Result<Tile, Refusal>
        ensures { tile_case result ≡ flip_of self }
    {
        let end = side(self.x, self.y, self.z)?;
        Ok(Tile {
            x: self.x,
            y: end - 1 - self.y,
            z: self.z,
        })
    }

    // The tile that a step in x and a step in y lead to. The eight names below are the Rust's, in which `up` moves x.
    pub fn step(self, across: Step, along: Step) -> Result<Tile, Refusal>
        ensures { tile_case result ≡ step_of across along self }
    {
        let end = side(self.x, self.y, self.z)?;
        let x = stepped(across, self.x, end).ok_or(Refusal::OffMap)?;
        let y = stepped(along, self.y, end).ok_or(Refusal::OffMap)?;
        Ok(Tile { x, y, z: self.z })
    }

    // The tile at (x + 1, y), where that is on the map; the name is the Rust's.
    pub fn up(self) -> Result<Tile, Refusal>
        ensures { tile_case result ≡ up_of self }
    {
        self.step(Step::On, Step::Stay)
    }

    // The tile at (x - 1, y), where that is on the map; the name is the Rust's.
    pub fn down(self) -> Result<Tile, Refusal>
        ensures { tile_case result ≡ down_of self }
    {
        self.step(Step::Back, Step::Stay)
    }

    // The tile at (x, y - 1), where that is on the map; the name is the Rust's.
    pub fn left(self) -> Result<Tile, Refusal>
        ensures { tile_case result ≡ left_tile_of self }
    {
        self.step(Step::Stay, Step::Back)
    }

    // The tile at (x, y + 1), where that is on the map; the name is the Rust's.
    pub fn right(self) -> Result<Tile, Refusal>
        ensures { tile_case result ≡ right_of self }
    {
        self.step(Step::Stay, Step::On)
    }

    // The tile at (x + 1, y - 1), where that is on the map; the name is the Rust's.
    pub fn up_left(self) -> Result<Tile, Refusal>
        ensures { tile_case result ≡ up_left_of self }
    {
        self.step(Step::On, Step::Back)
    }

    // The tile at (x + 1, y + 1), where that is on the map; the name is the Rust's.
    pub fn up_right(self) -> Result<Tile, Refusal>
        ensures { tile_case result ≡ up_right_of self }
    {
        self.step(Step::On, Step::On)
    }

    // The tile at (x - 1, y - 1), where that is on the map; the name is the Rust's.
    pub fn down_left(self) -> Result<Tile, Refusal>
        ensures { tile_case result ≡ down_left_of self }
    {
        self.step(Step::Back, Step::Back)
    }

    // The tile at (x - 1, y + 1), where that is on the map; the name is the Rust's.
    pub fn down_right(self) -> Result<Tile, Refusal>
        ensures { tile_case result ≡ down_right_of self }
    {
        self.step(Step::Back, Step::On)
    }
}

// The order of every list of tiles: zoom, then column, then row.
impl Ord for Tile {
    ghost cmp = { tile_order };

    ghost total = { Prim.search (comparing, rules) };

    ghost matches_partial_cmp = { Prim.search (comparing, rules) };

    ghost matches_eq = { Prim.search (comparing, rules) };

    fn cmp(&self, other: &Tile) -> Ordering {
        let by_row = self.y.cmp(&other.y);
        let by_column = self.x.cmp(&other.x).then(by_row);
        self.z.cmp(&other.z).then(by_column)
    }
}

impl PartialOrd for Tile {
    ghost partial_cmp = { as_partial_cmp tile_order };

    ghost laws = { partial_order_from_own_ties (Prim.search (comparing, rules)) (Prim.search (comparing, rules)) };

    fn partial_cmp(&self, other: &Tile) -> Option<Ordering> {
        Some(self.cmp(other))
    }
}

// A step along an axis of `end` numbers.
fn stepped(step: Step, n: u32, end: u32) -> Option<u32>
    requires { n < end }
    ensures { result ≡ stepped_to step n end }
{
    match step {
        Step::Back => { if n == 0 { None } else { Some(n - 1) } }
        Step::Stay => Some(n),
        Step::On => { if n + 1 == end { None } else { Some(n + 1) } }
    }
}
