// Tiles by column x, row y and zoom z, x growing east and y south: the calls of tile.rs.
ghost use Rattle.std.specs.Prelude.{◌≡◌};
ghost use Rattle.c_give.specs.Exported.{answered, never};
ghost use Rattle.c_tile.specs.Order.{order_number};
ghost use Rattle.tile.specs.OnMap.{tile_at, tile_refusal, try_new};
ghost use Rattle.tile.specs.Order.{tile_order};
ghost use Rattle.tile.specs.Steps.{flip_of, up_of, down_of, left_tile_of, right_of, up_left_of, up_right_of, down_left_of, down_right_of};

// The tile itself, where x, y and z name one of the map.
// Refused: 1, 2.
#[unsafe(no_mangle)]
pub extern "C" fn nori_try_new(x: u32, y: u32, z: u8, tx: &mut u32, ty: &mut u32, tz: &mut u8) -> u8
    ensures { answered result (tile_at tx.new ty.new tz.new) ≡ try_new x y z }
{
    c_tile::try_new(x, y, z, tx, ty, tz)
}

// Whether x, y and z name a tile of the map: nothing but the number comes back.
// Refused: 1, 2.
#[unsafe(no_mangle)]
pub extern "C" fn nori_check(x: u32, y: u32, z: u8) -> u8
    ensures { result ≡ tile_refusal x y z }
{
    c_tile::check(x, y, z)
}

// The tile with its row counted from the other side of the map.
// Refused: 1, 2.
#[unsafe(no_mangle)]
pub extern "C" fn nori_flip(x: u32, y: u32, z: u8, tx: &mut u32, ty: &mut u32, tz: &mut u8) -> u8
    ensures { answered result (tile_at tx.new ty.new tz.new) ≡ flip_of (tile_at x y z) }
{
    c_tile::flip(x, y, z, tx, ty, tz)
}

// The order of lists of tiles, by zoom, then column, then row: 0 for less, 1 for equal, 2 for greater.
// Any numbers are compared, on the map or not.
// Never refused.
#[unsafe(no_mangle)]
pub extern "C" fn nori_cmp(ax: u32, ay: u32, az: u8, bx: u32, by: u32, bz: u8, order: &mut u8) -> u8
    ensures { answered result order.new ≡ never (order_number (tile_order (tile_at ax ay az) (tile_at bx by bz))) }
{
    c_tile::cmp(ax, ay, az, bx, by, bz, order)
}

// The tile at (x + 1, y), where that is on the map; the name is the Rust's.
// Refused: 1, 2.
#[unsafe(no_mangle)]
pub extern "C" fn nori_up(x: u32, y: u32, z: u8, tx: &mut u32, ty: &mut u32, tz: &mut u8) -> u8
    ensures { answered result (tile_at tx.new ty.new tz.new) ≡ up_of (tile_at x y z) }
{
    c_tile::up(x, y, z, tx, ty, tz)
}

// The tile at (x - 1, y), where that is on the map; the name is the Rust's.
// Refused: 1, 2.
#[unsafe(no_mangle)]
pub extern "C" fn nori_down(x: u32, y: u32, z: u8, tx: &mut u32, ty: &mut u32, tz: &mut u8) -> u8
    ensures { answered result (tile_at tx.new ty.new tz.new) ≡ down_of (tile_at x y z) }
{
    c_tile::down(x, y, z, tx, ty, tz)
}

// The tile at (x, y - 1), where that is on the map; the name is the Rust's.
// Refused: 1, 2.
#[unsafe(no_mangle)]
pub extern "C" fn nori_left(x: u32, y: u32, z: u8, tx: &mut u32, ty: &mut u32, tz: &mut u8) -> u8
    ensures { answered result (tile_at tx.new ty.new tz.new) ≡ left_tile_of (tile_at x y z) }
{
    c_tile::left(x, y, z, tx, ty, tz)
}

// The tile at (x, y + 1), where that is on the map; the name is the Rust's.
// Refused: 1, 2.
#[unsafe(no_mangle)]
pub extern "C" fn nori_right(x: u32, y: u32, z: u8, tx: &mut u32, ty: &mut u32, tz: &mut u8) -> u8
    ensures { answered result (tile_at tx.new ty.new tz.new) ≡ right_of (tile_at x y z) }
{
    c_tile::right(x, y, z, tx, ty, tz)
}

// The tile at (x + 1, y - 1), where that is on the map; the name is the Rust's.
// Refused: 1, 2.
#[unsafe(no_mangle)]
pub extern "C" fn nori_up_left(x: u32, y: u32, z: u8, tx: &mut u32, ty: &mut u32, tz: &mut u8) -> u8
    ensures { answered result (tile_at tx.new ty.new tz.new) ≡ up_left_of (tile_at x y z) }
{
    c_tile::up_left(x, y, z, tx, ty, tz)
}

// The tile at (x + 1, y + 1), where that is on the map; the name is the Rust's.
// Refused: 1, 2.
#[unsafe(no_mangle)]
pub extern "C" fn nori_up_right(
    x: u32,
    y: u32,
    z: u8,
    tx: &mut u32,
    ty: &mut u32,
    tz: &mut u8,
) -> u8
    ensures { answered result (tile_at tx.new ty.new tz.new) ≡ up_right_of (tile_at x y z) }
{
    c_tile::up_right(x, y, z, tx, ty, tz)
}

// The tile at (x - 1, y - 1), where that is on the map; the name is the Rust's.
// Refused: 1, 2.
#[unsafe(no_mangle)]
pub extern "C" fn nori_down_left(
    x: u32,
    y: u32,
    z: u8,
    tx: &mut u32,
    ty: &mut u32,
    tz: &mut u8,
) -> u8
    ensures { answered result (tile_at tx.new ty.new tz.new) ≡ down_left_of (tile_at x y z) }
{
    c_tile::down_left(x, y, z, tx, ty, tz)
}

// The tile at (x - 1, y + 1), where that is on the map; the name is the Rust's.
// Refused: 1, 2.
#[unsafe(no_mangle)]
pub extern "C" fn nori_down_right(
    x: u32,
    y: u32,
    z: u8,
    tx: &mut u32,
    ty: &mut u32,
    tz: &mut u8,
) -> u8
    ensures { answered result (tile_at tx.new ty.new tz.new) ≡ down_right_of (tile_at x y z) }
{
    c_tile::down_right(x, y, z, tx, ty, tz)
}
