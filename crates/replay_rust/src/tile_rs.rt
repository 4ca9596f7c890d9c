// Replays the calls of tile.rs.
use replay::parse::Call;
use replay::{answers, args};
use std::cmp::Ordering;
use tile::Tile;

// Whether the call answers what the list says; None where it is no call of this file.
pub fn replayed(call: Call<'_>) -> Option<bool> {
    let Call { name, given, want } = call;
    match given {
        &[x, y, z] => of_tile(name, args::tile(x, y, z)?, want),
        &[ax, ay, az, bx, by, bz] => match name {
            b"cmp" => Some(cmp(args::tile(ax, ay, az)?, args::tile(bx, by, bz)?, want)),
            _ => None,
        },
        _ => None,
    }
}

fn cmp(a: Tile, b: Tile, want: &[u64]) -> bool {
    let order = match a.cmp(&b) {
        Ordering::Less => 0,
        Ordering::Equal => 1,
        Ordering::Greater => 2,
    };
    answers::accepted(&[order], want)
}

fn of_tile(name: &[u8], t: Tile, want: &[u64]) -> Option<bool> {
    match name {
        b"try_new" => {
            let same = answers::same_tile(Tile::try_new(t.x, t.y, t.z), want);
            Some(same && answers::same_check(tile::check(t.x, t.y, t.z), want))
        }
        _ => beside(name, t, want),
    }
}

fn beside(name: &[u8], t: Tile, want: &[u64]) -> Option<bool> {
    let answer = match name {
        b"flip" => t.flip(),
        b"up" => t.up(),
        b"down" => t.down(),
        b"left" => t.left(),
        b"right" => t.right(),
        b"up_left" => t.up_left(),
        b"up_right" => t.up_right(),
        b"down_left" => t.down_left(),
        b"down_right" => t.down_right(),
        _ => return None,
    };
    Some(answers::same_tile(answer, want))
}
