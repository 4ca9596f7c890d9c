// What the exported calls of quadkey.rs do: each asks `quadkey`, `key_reader` or `key_parts`, and hands the answer on in numbers.
#![tactic(auto)]

ghost use Rattle.std.specs.Prelude.{◌≡◌};
ghost use Rattle.c_give.specs.Exported.{answered, as_byte, answered_in, never};
ghost use Rattle.c_quadkey.specs.Part.{part_length_of};
ghost use Rattle.key_parts.specs.Parts.{ancestor_refusal, leading_part, shared_length, shared_refusal};
ghost use Rattle.quadkey.specs.Key.{flip_written, is_digit, is_key, key_refusal, key_tile, key_written};
ghost use Rattle.tile.specs.OnMap.{tile_at};

pub fn xyz2quadkey(x: u32, y: u32, z: u8, out: &mut [u8], count: &mut u64) -> u8
    ensures { answered_in result count.new out.new ≡ key_written 48 x y z out.old }
{
    let answer = quadkey::xyz2quadkey(x, y, z, out);
    c_give::count(answer, count)
}

pub fn xyz2quadkey_vec(x: u32, y: u32, z: u8, out: &mut [u8], count: &mut u64) -> u8
    ensures { answered_in result count.new out.new ≡ key_written 0 x y z out.old }
{
    let answer = quadkey::xyz2quadkey_vec(x, y, z, out);
    c_give::count(answer, count)
}

pub fn quadkey2xyz(key: &[u8], tx: &mut u32, ty: &mut u32, tz: &mut u8) -> u8
    ensures { answered result (tile_at tx.new ty.new tz.new) ≡ key_tile key.now }
{
    c_give::tile(key_reader::quadkey2xyz(key), tx, ty, tz)
}

pub fn check(key: &[u8]) -> u8
    ensures { result ≡ key_refusal key.now }
{
    errors::check_number(quadkey::check(key))
}

pub fn is_quadkey(key: &[u8], told: &mut u8) -> u8
    ensures { answered result told.new ≡ as_byte (never (is_key key.now)) }
{
    c_give::yes_or_no(quadkey::is_quadkey(key), told)
}

pub fn is_quadkey_byte(b: u8, told: &mut u8) -> u8
    ensures { answered result told.new ≡ as_byte (never (is_digit b)) }
{
    c_give::yes_or_no(quadkey::is_quadkey_byte(b), told)
}

pub fn flipy(key: &[u8], out: &mut [u8], count: &mut u64) -> u8
    ensures { answered_in result count.new out.new ≡ flip_written key.now out.old }
{
    let answer = quadkey::quadkey_flipy(key, out);
    c_give::count(answer, count)
}

pub fn ancestor_key(key: &[u8], n: usize, length: &mut u64) -> u8
    ensures { answered result length.new
        ≡ part_length_of (ancestor_refusal key.now n) (leading_part key.entry (ancestor_refusal key.now n) n) }
{
    let part = key_parts::ancestor_key(key, n);
    *length = part.len() as u64;
    key_parts::ancestor_key_refusal(key, n)
}

pub fn shared_key(a: &[u8], b: &[u8], length: &mut u64) -> u8
    ensures { answered result length.new
        ≡ part_length_of (shared_refusal a.now b.now)
        (leading_part a.entry (shared_refusal a.now b.now) (shared_length a.now b.now)) }
{
    let part = key_parts::shared_key(a, b);
    *length = part.len() as u64;
    key_parts::shared_key_refusal(a, b)
}
