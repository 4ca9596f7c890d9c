// `parent` as document 01 names it: a call for each step up, one level fewer at each. All that it finds goes to lent places:
// a struct would be copied on from level to level. Its answer is one number, and no Result: with one the compiler makes no
// loop of the calls, and 29 steps took 279 ns in a trial where they take 49.
ghost use Rattle.std.specs.Prelude.{◌≡◌, ◌+◌, length};
ghost use Rattle.constants.specs.Limits.{max_digits};
ghost use Rattle.quadkey.specs.Key.{digit_at};
ghost use Rattle.tile.specs.OnMap.{tile_at};
ghost use Rattle.fns.specs.Parent.{ancestor_lent, parent_written};

use constants::MAX_DIGITS;
use errors::Refusal;

// The number of the refusal, 0 where there is none, and then the ancestor 1 + n zooms up and the digits of the steps to it: a step's digit
// stands where the step does, the deepest last.
pub fn parent(
    x: u32,
    y: u32,
    z: u8,
    n: u8,
    tx: &mut u32,
    ty: &mut u32,
    tz: &mut u8,
    digits: &mut [u8; MAX_DIGITS],
) -> u8
    requires { length digits.old ≡ max_digits }
    ensures { ancestor_lent result (tile_at tx.new ty.new tz.new) digits.new
        ≡ parent_written x y z n (tile_at tx.old ty.old tz.old) digits.old }
{
    let why = errors::check_number(tile::check(x, y, z));
    if why != 0 {
        return why;
    }
    if z <= n {
        return errors::number(Refusal::NoRelative);
    }
    let at = n as usize;
    digits[at] = digit(x, y);
    if n == 0 {
        *tx = x / 2;
        *ty = y / 2;
        *tz = z - 1;
        return 0;
    }
    parent(x / 2, y / 2, z - 1, n - 1, tx, ty, tz, digits)
}

// The last byte of a tile's key: by which of the four children its parent is left.
fn digit(x: u32, y: u32) -> u8
    ensures { result ≡ 48 + digit_at x y 0 }
{
    b'0' + (2 * (y % 2) + x % 2) as u8
}
