// Which child of its parent a tile is: the digit by which `parent` leaves it. Those that group siblings ask here.
#![tactic(auto)]

ghost use Rattle.std.specs.Prelude.{◌≡◌, ◌<◌};
ghost use Rattle.child_digit.specs.Digit.{digit_of};
ghost use Rattle.quadtree.specs.Lists.{TileNumber};
ghost use Rattle.quadtree.specs.Numbers.{morton_of, morton_tile};

// Of the tile of a Morton code, which is not the root. `parent` is asked with the tile's parent as the root: the digit is the same, and of
// the code only the last digit has to be taken apart.
pub fn of_morton(q: u64) -> u8
    requires { TileNumber morton_of q × (1 < q) }
    ensures { result ≡ digit_of (morton_tile q) }
{
    let up = fns::parent((q % 2) as u32, (q / 2 % 2) as u32, 1, None);
    up.unwrap().digits[0]
}
