// What fns.rs gives of one tile: its limits, its flipped row, its ancestors, and the zoom at which two columns and rows part.
#![tactic(auto)]

pub mod steps;

ghost use Rattle.std.specs.Prelude.{◌≡◌, ◌<◌, ◌≤◌, unwrap_or};
ghost use Rattle.errors.specs.Cases.{check_number, number_case};
ghost use Rattle.fns.specs.Parent.{parent_case, parent_given};
ghost use Rattle.fns.specs.Fns.{min_max_case, min_max_of, is_tile, flipy_of, differ, bbox2zoom_of};

use constants::MAX_DIGITS;
use errors::Refusal;
use tile::Tile;

// The lowest and the highest column, and row, of a zoom.
#[derive(Clone, Copy, Debug, PartialEq, Eq)]
pub struct Limits {
    pub min: u32,
    pub max: u32,
}

// An ancestor, and the digits of the steps to it, deepest last, with zeros after them.
#[derive(Clone, Copy, Debug, PartialEq, Eq)]
pub struct Ancestor {
    pub tile: Tile,
    pub digits: [u8; MAX_DIGITS],
    pub count: u8,
}

// The first and the last column, and row, of a zoom.
pub fn minmax(zoom: u8) -> Result<Limits, Refusal>
    ensures { min_max_case result ≡ min_max_of zoom }
{
    let end = tile::side(0, 0, zoom)?;
    Ok(Limits {
        min: 0,
        max: end - 1,
    })
}

// Whether x, y and z name a tile of the map, told as yes or no.
pub fn valid(x: u32, y: u32, z: u8) -> bool
    ensures { result ≡ is_tile x y z }
{
    tile::check(x, y, z).is_ok()
}

// The row counted from the other side of the map. Nothing is asked of the column.
pub fn flipy(y: u32, z: u8) -> Result<u32, Refusal>
    ensures { number_case result ≡ flipy_of y z }
{
    let end = tile::side(0, y, z)?;
    Ok(end - 1 - y)
}

// Another name of `flipy`.
pub fn yflip(y: u32, z: u8) -> Result<u32, Refusal>
    ensures { number_case result ≡ flipy_of y z }
{
    flipy(y, z)
}

// The ancestor 1 + n zooms up, and by which digit each step to it was left; n is extra steps, and no zoom.
pub fn parent(x: u32, y: u32, z: u8, n: Option<u8>) -> Result<Ancestor, Refusal>
    ensures { parent_case result ≡ parent_given x y z (unwrap_or n 0) }
{
    let extra = n.unwrap_or(0);
    let mut tile = Tile { x: 0, y: 0, z: 0 };
    let mut digits = [0u8; MAX_DIGITS];
    let number = steps::parent(
        x,
        y,
        z,
        extra,
        &mut tile.x,
        &mut tile.y,
        &mut tile.z,
        &mut digits,
    );
    found(number)?;
    Ok(Ancestor {
        tile,
        digits,
        count: 1 + extra,
    })
}

// The answer of a number by which `steps::parent` refuses, 0 where it doesn't.
fn found(number: u8) -> Result<(), Refusal>
    requires { number ≤ 3 }
    ensures { check_number result ≡ number }
{
    match number {
        0 => Ok(()),
        1 => Err(Refusal::Zoom),
        2 => Err(Refusal::OffMap),
        _ => Err(Refusal::NoRelative),
    }
}

// The zoom of the tile that holds a box of 32-bit corners: the bits of its columns, and of its rows, agree above it.
pub fn bbox2zoom(west: u32, south: u32, east: u32, north: u32) -> u8
    ensures { result ≡ bbox2zoom_of west south east north }
{
    for z in 0..28 {
        if apart(west, east, 31 - z) || apart(south, north, 31 - z) {
            return z;
        }
    }
    28
}

// Whether two numbers differ in a bit.
fn apart(a: u32, b: u32, i: u8) -> bool
    requires { i < 32 }
    ensures { result ≡ differ a b i }
{
    (a >> i) % 2 != (b >> i) % 2
}
