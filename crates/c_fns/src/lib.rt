// What the exported calls of fns.rs on the tiles around a tile do: each asks the library and hands the answer on in numbers.
#![tactic(auto)]

ghost use Rattle.std.specs.Prelude.{◌≡◌, ◌+◌};
ghost use Rattle.c_give.specs.Exported.{answered, as_byte, answered_in, never};
ghost use Rattle.c_fns.specs.Ancestor.{ancestor_at};
ghost use Rattle.c_fns.specs.Limits.{limits_at};
ghost use Rattle.children.specs.Children.{children_of, clockwise, z_order};
ghost use Rattle.fns.specs.Fns.{bbox2zoom_of, flipy_of, is_tile, min_max_of};
ghost use Rattle.fns.specs.Parent.{parent_given};
ghost use Rattle.neighbors.specs.Neighbors.{neighbors_written};
ghost use Rattle.neighbors.specs.declared.Seam.TheVariants.{Cut, Wrapped};
ghost use Rattle.siblings.specs.Siblings.{siblings_written};
ghost use Rattle.tile.specs.OnMap.{tile_at};

use constants::MAX_DIGITS;
use fns::Limits;

pub fn minmax(zoom: u8, min: &mut u32, max: &mut u32) -> u8
    ensures { answered result (limits_at min.new max.new) ≡ min_max_of zoom }
{
    let (number, limits) = c_give::apart(fns::minmax(zoom), Limits { min: 0, max: 0 });
    *min = limits.min;
    *max = limits.max;
    number
}

pub fn valid(x: u32, y: u32, z: u8, told: &mut u8) -> u8
    ensures { answered result told.new ≡ as_byte (never (is_tile x y z)) }
{
    c_give::yes_or_no(fns::valid(x, y, z), told)
}

pub fn flipy(y: u32, z: u8, row: &mut u32) -> u8
    ensures { answered result row.new ≡ flipy_of y z }
{
    c_give::value(fns::flipy(y, z), 0, row)
}

// The places are lent on: what is handed back by value would be copied here once more.
pub fn parent(
    x: u32,
    y: u32,
    z: u8,
    n: u8,
    tx: &mut u32,
    ty: &mut u32,
    tz: &mut u8,
    digits: &mut [u8; MAX_DIGITS],
    count: &mut u8,
) -> u8
    ensures { answered result
        (ancestor_at (tile_at tx.new ty.new tz.new) digits.new count.new)
        ≡ parent_given x y z n }
{
    *tx = 0;
    *ty = 0;
    *tz = 0;
    *digits = [0; MAX_DIGITS];
    *count = 0;
    let number = fns::steps::parent(x, y, z, n, tx, ty, tz, digits);
    if number == 0 {
        *count = 1 + n;
    }
    number
}

pub fn children(x: u32, y: u32, z: u8, zoom: u8, out: &mut [u64], count: &mut u64) -> u8
    ensures { answered_in result count.new out.new ≡ children_of clockwise x y z zoom out.old }
{
    let answer = children::children(x, y, z, Some(zoom), out);
    c_give::count(answer, count)
}

pub fn children_zorder(x: u32, y: u32, z: u8, zoom: u8, out: &mut [u64], count: &mut u64) -> u8
    ensures { answered_in result count.new out.new ≡ children_of z_order x y z zoom out.old }
{
    let answer = children::children_zorder(x, y, z, Some(zoom), out);
    c_give::count(answer, count)
}

pub fn children1_zorder(x: u32, y: u32, z: u8, out: &mut [u64], count: &mut u64) -> u8
    ensures { answered_in result count.new out.new ≡ children_of z_order x y z (z + 1) out.old }
{
    let answer = children::children1_zorder(x, y, z, out);
    c_give::count(answer, count)
}

pub fn siblings(x: u32, y: u32, z: u8, out: &mut [u64], count: &mut u64) -> u8
    ensures { answered_in result count.new out.new ≡ siblings_written x y z out.old }
{
    let answer = siblings::siblings(x, y, z, out);
    c_give::count(answer, count)
}

pub fn neighbors(x: u32, y: u32, z: u8, out: &mut [u64], count: &mut u64) -> u8
    ensures { answered_in result count.new out.new ≡ neighbors_written Cut x y z out.old }
{
    let answer = neighbors::neighbors(x, y, z, out);
    c_give::count(answer, count)
}

pub fn neighbors_wrap_x(x: u32, y: u32, z: u8, out: &mut [u64], count: &mut u64) -> u8
    ensures { answered_in result count.new out.new ≡ neighbors_written Wrapped x y z out.old }
{
    let answer = neighbors::neighbors_wrap_x(x, y, z, out);
    c_give::count(answer, count)
}

pub fn bbox2zoom(west: u32, south: u32, east: u32, north: u32, zoom: &mut u8) -> u8
    ensures { answered result zoom.new ≡ never (bbox2zoom_of west south east north) }
{
    *zoom = fns::bbox2zoom(west, south, east, north);
    0
}
