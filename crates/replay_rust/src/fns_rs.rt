// Replays the calls of fns.rs, which are those of `fns`, `ids`, `children`, `siblings` and `neighbors` here.
use errors::Refusal;
use fns::Ancestor;
use replay::answers::Lent;
use replay::parse::Call;
use replay::{answers, args};
use tile::Tile;

// Whether the call answers what the list says; None where it is no call of this file.
pub fn replayed(call: Call<'_>) -> Option<bool> {
    let Call { name, given, want } = call;
    match given {
        &[n] => of_number(name, n, want),
        &[y, z] => of_row(name, u32::try_from(y).ok()?, u8::try_from(z).ok()?, want),
        &[x, y, z] => of_tile(name, args::tile(x, y, z)?, want),
        &[a, b, c, d] => match name {
            b"bbox2zoom" => bbox2zoom(a, b, c, d, want),
            _ => of_zooms(name, args::tile(a, b, c)?, args::option(d)?, want),
        },
        _ => None,
    }
}

fn bbox2zoom(west: u64, south: u64, east: u64, north: u64, want: &[u64]) -> Option<bool> {
    let zoom = fns::bbox2zoom(
        u32::try_from(west).ok()?,
        u32::try_from(south).ok()?,
        u32::try_from(east).ok()?,
        u32::try_from(north).ok()?,
    );
    Some(answers::accepted(&[u64::from(zoom)], want))
}

fn of_number(name: &[u8], n: u64, want: &[u64]) -> Option<bool> {
    let same = match name {
        b"minmax" => {
            let limits = fns::minmax(u8::try_from(n).ok()?);
            answers::same(limits.map(|l| [u64::from(l.min), u64::from(l.max)]), want)
        }
        b"from_id" => answers::same_tile(ids::from_id(n), want),
        b"rmid2xyz" => answers::same_tile(ids::rmid2xyz(n), want),
        b"int_2_offset_zoom" => {
            let place = ids::int_2_offset_zoom(n);
            answers::same(place.map(|at| [at.offset, u64::from(at.zoom)]), want)
        }
        _ => return None,
    };
    Some(same)
}

fn of_row(name: &[u8], y: u32, z: u8, want: &[u64]) -> Option<bool> {
    let answer = match name {
        b"flipy" => fns::flipy(y, z),
        b"yflip" => fns::yflip(y, z),
        _ => return None,
    };
    Some(answers::same_number(answer, want))
}

fn of_tile(name: &[u8], t: Tile, want: &[u64]) -> Option<bool> {
    let Tile { x, y, z } = t;
    match name {
        b"valid" => Some(answers::same_number(Ok(fns::valid(x, y, z)), want)),
        b"to_id" => Some(answers::same_number(ids::to_id(x, y, z), want)),
        b"xyz2rmid" => Some(answers::same_number(ids::xyz2rmid(x, y, z), want)),
        _ => beside(name, t, want),
    }
}

// The calls that list a few tiles.
fn beside(name: &[u8], t: Tile, want: &[u64]) -> Option<bool> {
    let Tile { x, y, z } = t;
    let mut out = [u64::BLANK; 64];
    let answer = match name {
        b"children1_zorder" => children::children1_zorder(x, y, z, &mut out),
        b"siblings" => siblings::siblings(x, y, z, &mut out),
        b"neighbors" => neighbors::neighbors(x, y, z, &mut out),
        b"neighbors_wrap_x" => neighbors::neighbors_wrap_x(x, y, z, &mut out),
        _ => return None,
    };
    Some(answers::same_list(answer, 0, &out, want))
}

// The last argument counts zooms, or names one, or is None.
fn of_zooms(name: &[u8], t: Tile, n: Option<u8>, want: &[u64]) -> Option<bool> {
    let Tile { x, y, z } = t;
    let mut out = [u64::BLANK; 320];
    let answer = match name {
        b"parent" => return same_ancestor(fns::parent(x, y, z, n), want),
        b"children" => children::children(x, y, z, n, &mut out),
        b"children_zorder" => children::children_zorder(x, y, z, n, &mut out),
        _ => return None,
    };
    Some(answers::same_list(answer, 0, &out, want))
}

// The list says the ancestor and the digits of the steps, their count first, and nothing of the room behind them: it is to be zeros.
fn same_ancestor(answer: Result<Ancestor, Refusal>, want: &[u64]) -> Option<bool> {
    let up = match answer {
        Ok(up) => up,
        Err(why) => return Some(answers::refused(why, 4, want)),
    };
    let Tile { x, y, z } = up.tile;
    let values = [
        u64::from(x),
        u64::from(y),
        u64::from(z),
        u64::from(up.count),
    ];
    let digits = answers::behind(&values, usize::from(up.count), want)?;
    Some(answers::holds(&up.digits, digits, up.digits.len()))
}
