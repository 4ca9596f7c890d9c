// The ancestors of a tile, nearest first: the calls of parent.rs. A cursor is the count 1 and the tile that comes next, or
// the count 0 and zeros at its end.
ghost use Rattle.std.specs.Prelude.{◌≡◌};
ghost use Rattle.c_give.specs.Exported.{answered};
ghost use Rattle.c_parent.specs.Cursor.{held_at, holding, next_at, next_numbers, parents_numbers};
ghost use Rattle.parent.specs.Parents.{iter_of, parents_next_of};

// The cursor that starts at the parent of a tile; at its end for the root.
// Refused: 1, 2.
#[unsafe(no_mangle)]
pub extern "C" fn nori_iter_parents(
    x: u32,
    y: u32,
    z: u8,
    count: &mut u8,
    tx: &mut u32,
    ty: &mut u32,
    tz: &mut u8,
) -> u8
    ensures { answered result (held_at count.new tx.new ty.new tz.new)
        ≡ parents_numbers (iter_of x y z) }
{
    c_parent::iter_parents(x, y, z, count, tx, ty, tz)
}

// What a cursor gives, the count 1 and a tile or the count 0 and zeros, and the cursor after it in rest, rx, ry and rz.
// held is the cursor's count: any number but 0 is 1.
// Refused: 1, 2.
#[unsafe(no_mangle)]
pub extern "C" fn nori_parents_next(
    held: u8,
    x: u32,
    y: u32,
    z: u8,
    count: &mut u8,
    tx: &mut u32,
    ty: &mut u32,
    tz: &mut u8,
    rest: &mut u8,
    rx: &mut u32,
    ry: &mut u32,
    rz: &mut u8,
) -> u8
    ensures { answered result (next_at (held_at count.new tx.new ty.new tz.new)
        (held_at rest.new rx.new ry.new rz.new))
        ≡ next_numbers (parents_next_of (holding held x y z)) }
{
    c_parent::next(held, x, y, z, count, tx, ty, tz, rest, rx, ry, rz)
}
