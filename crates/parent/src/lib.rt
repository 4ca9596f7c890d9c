// The ancestors of a tile, nearest first: a cursor by value that holds the tile that comes next, or none.
#![tactic(auto)]

ghost use Rattle.std.specs.Prelude.{◌≡◌};
ghost use Rattle.tile.specs.OnMap.{OnMap};
ghost use Rattle.parent.specs.Parents.{above_of, parents_case, iter_of, parents_next_case, parents_next_of};

use errors::Refusal;
use tile::{Next, Tile};

// The tile that comes next, none past the root.
#[derive(Clone, Copy, Debug, PartialEq, Eq)]
pub struct Parents {
    pub current: Option<Tile>,
}

// The cursor that starts at the parent of a tile; at its end for the root.
pub fn iter_parents(x: u32, y: u32, z: u8) -> Result<Parents, Refusal>
    ensures { parents_case result ≡ iter_of x y z }
{
    tile::check(x, y, z)?;
    let current = above(Tile { x, y, z });
    Ok(Parents { current })
}

impl Parents {
    // What the cursor gives, a tile or nothing, and the cursor after it. The caller may have put any numbers there, so they are checked.
    pub fn next(self) -> Result<Next<Parents>, Refusal>
        ensures { parents_next_case result ≡ parents_next_of self.current }
    {
        let tile = self.current;
        let Some(t) = tile else {
            return Ok(Next { tile, rest: self });
        };
        tile::check(t.x, t.y, t.z)?;
        let current = above(t);
        let rest = Parents { current };
        Ok(Next { tile, rest })
    }
}

// The tile one zoom up; none above the root.
fn above(t: Tile) -> Option<Tile>
    requires { OnMap t.x t.y t.z }
    ensures { result ≡ above_of t.x t.y t.z }
{
    match fns::parent(t.x, t.y, t.z, None) {
        Ok(up) => Some(up.tile),
        Err(_) => None,
    }
}
