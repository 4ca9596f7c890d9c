// Quadkeys: a tile's key, whether bytes are a key, and the key flipped. The tile of a key is in `key_reader`.
#![tactic(auto)]

ghost use Rattle.std.specs.Prelude.{◌≡◌, true, ◌++◌, map, ◌≤◌, ◌<◌, length, drop};
ghost use Rattle.constants.specs.Limits.{max_zoom};
ghost use Rattle.errors.specs.Cases.{check_number, left};
ghost use Rattle.quadkey.specs.Key.{digit_at, key_from, key_written, is_digit, all_digits_of, key_refusal, is_key, flip_digit};
ghost use Rattle.quadkey.specs.Key.{flip_written};

use constants::MAX_ZOOM;
use errors::Refusal;

// Whether a byte is a digit of a key.
pub fn is_quadkey_byte(b: u8) -> bool
    ensures { result ≡ is_digit b }
{
    matches!(b, b'0'..=b'3')
}

// Whether the bytes are a key: the length is tested before the bytes.
pub fn check(key: &[u8]) -> Result<(), Refusal>
    ensures { check_number result ≡ key_refusal key.now }
{
    if key.len() > MAX_ZOOM as usize {
        return Err(Refusal::KeyLength);
    }
    for b in key {
        if !is_quadkey_byte(*b) {
            return Err(Refusal::KeyByte);
        }
    }
    Ok(())
}

// Whether the bytes are a key, told as yes or no.
pub fn is_quadkey(key: &[u8]) -> bool
    ensures { result ≡ is_key key.now }
{
    check(key).is_ok()
}

// The key of a tile, as bytes 48 to 51.
pub fn xyz2quadkey(x: u32, y: u32, z: u8, out: &mut [u8]) -> Result<usize, Refusal>
    ensures { left result out.new ≡ key_written 48 x y z out.old }
{
    digits(b'0', x, y, z, out)
}

// The key of a tile, as the digits 0 to 3.
pub fn xyz2quadkey_vec(x: u32, y: u32, z: u8, out: &mut [u8]) -> Result<usize, Refusal>
    ensures { left result out.new ≡ key_written 0 x y z out.old }
{
    digits(0, x, y, z, out)
}

fn digits(base: u8, x: u32, y: u32, z: u8, out: &mut [u8]) -> Result<usize, Refusal>
    requires { base < 253 }
    ensures { left result out.new ≡ key_written base x y z out.old }
{
    tile::check(x, y, z)?;
    let n = z as usize;
    if out.len() < n {
        return Err(Refusal::Memory);
    }
    fill(base, x, y, z, out);
    Ok(n)
}

fn fill(base: u8, x: u32, y: u32, z: u8, out: &mut [u8])
    requires base_bound { base < 253 }
    requires z_le_max_zoom { z ≤ max_zoom }
    requires z_in_bounds { z ≤ length out.old }
    ensures { out.new ≡ key_from base x y z ++ drop z out.old }
{
    for i in 0..z {
        out[i as usize] = base + digit(x, y, z - 1 - i);
    }
}

fn digit(x: u32, y: u32, i: u8) -> u8
    requires { i < 32 }
    ensures { result ≡ digit_at x y i }
{
    (2 * ((y >> i) % 2) + (x >> i) % 2) as u8
}

// The key with 0 and 2, 1 and 3 in each other's place: the row is counted from the other side.
pub fn quadkey_flipy(key: &[u8], out: &mut [u8]) -> Result<usize, Refusal>
    ensures { left result out.new ≡ flip_written key.now out.old }
{
    check(key)?;
    let n = key.len();
    if out.len() < n {
        return Err(Refusal::Memory);
    }
    flip_all(key, out);
    Ok(n)
}

fn flip_all(key: &[u8], out: &mut [u8])
    requires key_in_bounds { length key.now ≤ length out.old }
    requires key_value { all_digits_of key.now ≡ true }
    ensures { out.new ≡ map flip_digit key.now ++ drop (length key.now) out.old }
{
    for (i, b) in key.iter().enumerate() {
        out[i] = flipped(*b);
    }
}

fn flipped(b: u8) -> u8
    requires { is_digit b ≡ true }
    ensures { result ≡ flip_digit b }
{
    if b < b'2' { b + 2 } else { b - 2 }
}
