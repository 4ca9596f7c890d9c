// What the exported calls of parent.rs and sibling_relationship.rs do: each asks the library and hands the answer on in numbers.
#![tactic(auto)]

ghost use Rattle.std.specs.Prelude.{◌≡◌};
ghost use Rattle.c_give.specs.Exported.{answered, never};
ghost use Rattle.c_parent.specs.Cursor.{held_at, held_of, holding, next_at, next_numbers, parents_numbers};
ghost use Rattle.parent.specs.Parents.{iter_of, parents_next_of};
ghost use Rattle.sibling_relationship.specs.Relation.{relation_at};

use parent::Parents;
use sibling_relationship::SiblingRelationship;
use tile::{Next, Tile};

// A cursor at its end.
const AT_END: Parents = Parents { current: None };

pub fn iter_parents(
    x: u32,
    y: u32,
    z: u8,
    count: &mut u8,
    tx: &mut u32,
    ty: &mut u32,
    tz: &mut u8,
) -> u8
    ensures { answered result (held_at count.new tx.new ty.new tz.new)
        ≡ parents_numbers (iter_of x y z) }
{
    let (number, cursor) = c_give::apart(parent::iter_parents(x, y, z), AT_END);
    hold(cursor.current, count, tx, ty, tz);
    number
}

pub fn next(
    held: u8,
    x: u32,
    y: u32,
    z: u8,
    count: &mut u8,
    tx: &mut u32,
    ty: &mut u32,
    tz: &mut u8,
    rest: &mut u8,
    rx: &mut u32,
    ry: &mut u32,
    rz: &mut u8,
) -> u8
    ensures { answered result (next_at (held_at count.new tx.new ty.new tz.new)
        (held_at rest.new rx.new ry.new rz.new))
        ≡ next_numbers (parents_next_of (holding held x y z)) }
{
    let current = holding(held, x, y, z);
    let none = Next {
        tile: None,
        rest: AT_END,
    };
    let (number, next) = c_give::apart(Parents { current }.next(), none);
    hold(next.tile, count, tx, ty, tz);
    hold(next.rest.current, rest, rx, ry, rz);
    number
}

fn holding(held: u8, x: u32, y: u32, z: u8) -> Option<Tile>
    ensures { result ≡ holding held x y z }
{
    if held == 0 {
        return None;
    }
    Some(Tile { x, y, z })
}

fn hold(tile: Option<Tile>, count: &mut u8, x: &mut u32, y: &mut u32, z: &mut u8)
    ensures { held_at count.new x.new y.new z.new ≡ held_of tile }
{
    let t = tile.unwrap_or(Tile { x: 0, y: 0, z: 0 });
    *count = tile.is_some() as u8;
    *x = t.x;
    *y = t.y;
    *z = t.z;
}

pub fn sibling_relationship(x: u32, y: u32, relation: &mut u8) -> u8
    ensures { answered result relation.new ≡ never (relation_at x y) }
{
    let found = SiblingRelationship::from(x, y);
    *relation = found.number();
    0
}
