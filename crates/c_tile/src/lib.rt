// What the exported calls of tile.rs do: each asks the crate `tile` and hands the answer on in numbers.
#![tactic(auto)]

ghost use Rattle.std.specs.Prelude.{◌≡◌};
ghost use Rattle.c_give.specs.Exported.{answered, never};
ghost use Rattle.c_tile.specs.Order.{order_number};
ghost use Rattle.tile.specs.OnMap.{tile_at, tile_refusal, try_new};
ghost use Rattle.tile.specs.Order.{tile_order};
ghost use Rattle.tile.specs.Steps.{flip_of, up_of, down_of, left_tile_of, right_of, up_left_of, up_right_of, down_left_of, down_right_of};

use std::cmp::Ordering;
use tile::Tile;

pub fn try_new(x: u32, y: u32, z: u8, tx: &mut u32, ty: &mut u32, tz: &mut u8) -> u8
    ensures { answered result (tile_at tx.new ty.new tz.new) ≡ try_new x y z }
{
    c_give::tile(Tile::try_new(x, y, z), tx, ty, tz)
}

pub fn check(x: u32, y: u32, z: u8) -> u8
    ensures { result ≡ tile_refusal x y z }
{
    errors::check_number(tile::check(x, y, z))
}

pub fn flip(x: u32, y: u32, z: u8, tx: &mut u32, ty: &mut u32, tz: &mut u8) -> u8
    ensures { answered result (tile_at tx.new ty.new tz.new) ≡ flip_of (tile_at x y z) }
{
    let t = Tile { x, y, z };
    c_give::tile(t.flip(), tx, ty, tz)
}

pub fn cmp(ax: u32, ay: u32, az: u8, bx: u32, by: u32, bz: u8, order: &mut u8) -> u8
    ensures { answered result order.new ≡ never (order_number (tile_order (tile_at ax ay az) (tile_at bx by bz))) }
{
    let a = Tile {
        x: ax,
        y: ay,
        z: az,
    };
    let b = Tile {
        x: bx,
        y: by,
        z: bz,
    };
    *order = order_number(a.cmp(&b));
    0
}

fn order_number(order: Ordering) -> u8
    ensures { result ≡ order_number order }
{
    match order {
        Ordering::Less => 0,
        Ordering::Equal => 1,
        Ordering::Greater => 2,
    }
}

pub fn up(x: u32, y: u32, z: u8, tx: &mut u32, ty: &mut u32, tz: &mut u8) -> u8
    ensures { answered result (tile_at tx.new ty.new tz.new) ≡ up_of (tile_at x y z) }
{
    let t = Tile { x, y, z };
    c_give::tile(t.up(), tx, ty, tz)
}

pub fn down(x: u32, y: u32, z: u8, tx: &mut u32, ty: &mut u32, tz: &mut u8) -> u8
    ensures { answered result (tile_at tx.new ty.new tz.new) ≡ down_of (tile_at x y z) }
{
    let t = Tile { x, y, z };
    c_give::tile(t.down(), tx, ty, tz)
}

pub fn left(x: u32, y: u32, z: u8, tx: &mut u32, ty: &mut u32, tz: &mut u8) -> u8
    ensures { answered result (tile_at tx.new ty.new tz.new) ≡ left_tile_of (tile_at x y z) }
{
    let t = Tile { x, y, z };
    c_give::tile(t.left(), tx, ty, tz)
}

pub fn right(x: u32, y: u32, z: u8, tx: &mut u32, ty: &mut u32, tz: &mut u8) -> u8
    ensures { answered result (tile_at tx.new ty.new tz.new) ≡ right_of (tile_at x y z) }
{
    let t = Tile { x, y, z };
    c_give::tile(t.right(), tx, ty, tz)
}

pub fn up_left(x: u32, y: u32, z: u8, tx: &mut u32, ty: &mut u32, tz: &mut u8) -> u8
    ensures { answered result (tile_at tx.new ty.new tz.new) ≡ up_left_of (tile_at x y z) }
{
    let t = Tile { x, y, z };
    c_give::tile(t.up_left(), tx, ty, tz)
}

pub fn up_right(x: u32, y: u32, z: u8, tx: &mut u32, ty: &mut u32, tz: &mut u8) -> u8
    ensures { answered result (tile_at tx.new ty.new tz.new) ≡ up_right_of (tile_at x y z) }
{
    let t = Tile { x, y, z };
    c_give::tile(t.up_right(), tx, ty, tz)
}

pub fn down_left(x: u32, y: u32, z: u8, tx: &mut u32, ty: &mut u32, tz: &mut u8) -> u8
    ensures { answered result (tile_at tx.new ty.new tz.new) ≡ down_left_of (tile_at x y z) }
{
    let t = Tile { x, y, z };
    c_give::tile(t.down_left(), tx, ty, tz)
}

pub fn down_right(x: u32, y: u32, z: u8, tx: &mut u32, ty: &mut u32, tz: &mut u8) -> u8
    ensures { answered result (tile_at tx.new ty.new tz.new) ≡ down_right_of (tile_at x y z) }
{
    let t = Tile { x, y, z };
    c_give::tile(t.down_right(), tx, ty, tz)
}
