// Replays the calls of quadkey.rs.
use replay::parse::Call;
use replay::{answers, args};
use tile::Tile;

// Places enough for the bytes of every line.
const ROOM: usize = 256;

// Whether the call answers what the list says; None where it is no call of this file.
pub fn replayed(call: Call<'_>) -> Option<bool> {
    let Call { name, given, want } = call;
    match (name, given) {
        (b"is_quadkey_byte", &[byte]) => {
            let is_digit = quadkey::is_quadkey_byte(u8::try_from(byte).ok()?);
            Some(answers::same_number(Ok(is_digit), want))
        }
        (b"xyz2quadkey", &[x, y, z]) => {
            let Tile { x, y, z } = args::tile(x, y, z)?;
            let same = answers::same_bytes(|out| quadkey::xyz2quadkey(x, y, z, out), want);
            Some(same)
        }
        (b"xyz2quadkey_vec", &[x, y, z]) => {
            let Tile { x, y, z } = args::tile(x, y, z)?;
            let same = answers::same_bytes(|out| quadkey::xyz2quadkey_vec(x, y, z, out), want);
            Some(same)
        }
        _ => {
            let mut room = [0; ROOM];
            of_key(name, args::bytes(given, &mut room)?, want)
        }
    }
}

fn of_key(name: &[u8], key: &[u8], want: &[u64]) -> Option<bool> {
    let same = match name {
        b"quadkey2xyz" => {
            answers::same_tile(key_reader::quadkey2xyz(key), want)
                && answers::same_check(quadkey::check(key), want)
        }
        b"is_quadkey" => answers::same_number(Ok(quadkey::is_quadkey(key)), want),
        b"quadkey_flipy" => answers::same_bytes(|out| quadkey::quadkey_flipy(key, out), want),
        _ => return None,
    };
    Some(same)
}
