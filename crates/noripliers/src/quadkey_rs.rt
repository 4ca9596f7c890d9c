// Quadkeys: the calls of quadkey.rs. A key is a byte '0' to '3' for each zoom from 1 on; the root's key is empty.
ghost use Rattle.std.specs.Prelude.{◌≡◌};
ghost use Rattle.c_give.specs.Exported.{answered, as_byte, answered_in, never};
ghost use Rattle.c_key_reader.specs.Numbers.{fed_numbers, numbers_at, told_numbers};
ghost use Rattle.c_quadkey.specs.Part.{part_length_of};
ghost use Rattle.key_parts.specs.Parts.{ancestor_refusal, leading_part, shared_length, shared_refusal};
ghost use Rattle.quadkey.specs.Key.{flip_written, is_digit, is_key, key_refusal, key_tile, key_written};
ghost use Rattle.tile.specs.OnMap.{tile_at};

// The key of a tile; count is its length, the zoom.
// Refused: 1, 2, 12.
#[unsafe(no_mangle)]
pub extern "C" fn nori_xyz2quadkey(x: u32, y: u32, z: u8, out: &mut [u8], count: &mut u64) -> u8
    ensures { answered_in result count.new out.new ≡ key_written 48 x y z out.old }
{
    c_quadkey::xyz2quadkey(x, y, z, out, count)
}

// The digits of a tile's key as the numbers 0 to 3.
// Refused: 1, 2, 12.
#[unsafe(no_mangle)]
pub extern "C" fn nori_xyz2quadkey_vec(x: u32, y: u32, z: u8, out: &mut [u8], count: &mut u64) -> u8
    ensures { answered_in result count.new out.new ≡ key_written 0 x y z out.old }
{
    c_quadkey::xyz2quadkey_vec(x, y, z, out, count)
}

// The tile of a key.
// Refused: 4, 5.
#[unsafe(no_mangle)]
pub extern "C" fn nori_quadkey2xyz(key: &[u8], tx: &mut u32, ty: &mut u32, tz: &mut u8) -> u8
    ensures { answered result (tile_at tx.new ty.new tz.new) ≡ key_tile key.now }
{
    c_quadkey::quadkey2xyz(key, tx, ty, tz)
}

// One byte more for a reader of keys, which x, y, count and bad are: before the first byte all zeros, afterwards as the last feed left
// them. It keeps no byte and takes any number of them, and nori_key_tile tells at any time what they are. A reader that no bytes
// leave is refused, and stays as it was.
// Refused: 16.
#[unsafe(no_mangle)]
pub extern "C" fn nori_key_feed(
    byte: u8,
    x: &mut u32,
    y: &mut u32,
    count: &mut u8,
    bad: &mut u8,
) -> u8
    ensures { answered result (numbers_at x.new y.new count.new bad.new)
        ≡ fed_numbers (numbers_at x.old y.old count.old bad.old) byte }
{
    c_key_reader::feed(byte, x, y, count, bad)
}

// What the bytes that a reader was fed are as a whole key: its tile or its refusal, just as nori_quadkey2xyz answers for all of them.
// After more bytes than a key has it is 4, however many follow.
// Refused: 16, 4, 5.
#[unsafe(no_mangle)]
pub extern "C" fn nori_key_tile(
    x: u32,
    y: u32,
    count: u8,
    bad: u8,
    tx: &mut u32,
    ty: &mut u32,
    tz: &mut u8,
) -> u8
    ensures { answered result (tile_at tx.new ty.new tz.new)
        ≡ told_numbers (numbers_at x y count bad) }
{
    c_key_reader::tile(x, y, count, bad, tx, ty, tz)
}

// Whether the bytes are a key: nothing but the number comes back.
// Refused: 4, 5.
#[unsafe(no_mangle)]
pub extern "C" fn nori_quadkey_check(key: &[u8]) -> u8
    ensures { result ≡ key_refusal key.now }
{
    c_quadkey::check(key)
}

// Whether the bytes are a key, told as yes or no.
// Never refused.
#[unsafe(no_mangle)]
pub extern "C" fn nori_is_quadkey(key: &[u8], told: &mut u8) -> u8
    ensures { answered result told.new ≡ as_byte (never (is_key key.now)) }
{
    c_quadkey::is_quadkey(key, told)
}

// Whether a byte is a digit of a key.
// Never refused.
#[unsafe(no_mangle)]
pub extern "C" fn nori_is_quadkey_byte(b: u8, told: &mut u8) -> u8
    ensures { answered result told.new ≡ as_byte (never (is_digit b)) }
{
    c_quadkey::is_quadkey_byte(b, told)
}

// The key of the tile whose row is counted from the other side of the map: 0 and 2 change places, 1 and 3.
// Refused: 4, 5, 12.
#[unsafe(no_mangle)]
pub extern "C" fn nori_quadkey_flipy(key: &[u8], out: &mut [u8], count: &mut u64) -> u8
    ensures { answered_in result count.new out.new ≡ flip_written key.now out.old }
{
    c_quadkey::flipy(key, out, count)
}

// The key of the ancestor at zoom n is the first n bytes of the caller's own key: length is n.
// Refused: 3, 4, 5.
#[unsafe(no_mangle)]
pub extern "C" fn nori_ancestor_key(key: &[u8], n: usize, length: &mut u64) -> u8
    ensures { answered result length.new
        ≡ part_length_of (ancestor_refusal key.now n) (leading_part key.entry (ancestor_refusal key.now n) n) }
{
    c_quadkey::ancestor_key(key, n, length)
}

// The key of the deepest ancestor that two keys share is the first length bytes of a.
// Refused: 4, 5.
#[unsafe(no_mangle)]
pub extern "C" fn nori_shared_key(a: &[u8], b: &[u8], length: &mut u64) -> u8
    ensures { answered result length.new
        ≡ part_length_of (shared_refusal a.now b.now)
        (leading_part a.entry (shared_refusal a.now b.now) (shared_length a.now b.now)) }
{
    c_quadkey::shared_key(a, b, length)
}
