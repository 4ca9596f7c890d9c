// Replays the calls of tile_zbox.rs.
use errors::Refusal;
use replay::parse::Call;
use replay::{answers, args};
use tile::Next;
use tile_zbox::{Extent, TileZBox};
use tile_zbox_iter::TileZBoxIterator;
use tile_zboxes_iter::TileZBoxesIterator;

// Boxes enough for every line, and numbers enough for them.
const BOXES: usize = 40;

const NUMBERS: usize = 200;

// Whether the call answers what the list says; None where it is no call of this file.
pub fn replayed(call: Call<'_>) -> Option<bool> {
    let Call { name, given, want } = call;
    match (name, given) {
        (b"from_tile", &[x, y, z]) => {
            let t = args::tile(x, y, z)?;
            Some(same_box(TileZBox::from_tile(t.x, t.y, t.z), want))
        }
        (b"from_tiles", _) => {
            let list = args::one_list(given)?;
            Some(same_box(tile_zbox_around::from_tiles(list), want))
        }
        (b"boxes_length", _) => boxes_length(boxes(given)?, want),
        // How many tiles were given, then the boxes.
        (b"boxes_next", [given, rest @ ..]) => boxes_next(*given, boxes(rest)?, want),
        _ => {
            let (numbers, rest) = given.split_at_checked(5)?;
            of_one(name, box_of(numbers)?, rest, want)
        }
    }
}

// The numbers of one list of boxes, five of each: their count stands before them.
fn boxes(numbers: &[u64]) -> Option<&[u64]> {
    let (count, list) = numbers.split_first()?;
    if list.len() % 5 != 0 || *count != (list.len() / 5) as u64 {
        return None;
    }
    Some(list)
}

// The boxes are summed as numbers, and as records.
fn boxes_length(list: &[u64], want: &[u64]) -> Option<bool> {
    let mut room = [0; NUMBERS];
    let numbers = args::fitted(list, &mut room)?;
    let length = tile_zbox_numbers::boxes_length(numbers);
    Some(answers::same_number(length, want) && records_length(list, want)?)
}

fn records_length(list: &[u64], want: &[u64]) -> Option<bool> {
    let none = TileZBox {
        zoom: 0,
        minx: 0,
        maxx: 0,
        miny: 0,
        maxy: 0,
    };
    let mut room = [none; BOXES];
    let boxes = room.get_mut(..list.len() / 5)?;
    for (place, numbers) in boxes.iter_mut().zip(list.chunks_exact(5)) {
        *place = box_of(numbers)?;
    }
    Some(answers::same_number(tile_zboxes::boxes_length(boxes), want))
}

fn boxes_next(given: u64, list: &[u64], want: &[u64]) -> Option<bool> {
    let mut room = [0; NUMBERS];
    let numbers = args::fitted(list, &mut room)?;
    let next = TileZBoxesIterator { given }.next(numbers);
    Some(answers::same(next.map(next_numbers), want))
}

// Whether there is a tile, the tile, zeros where there is none, and how many were given.
fn next_numbers(next: Next<TileZBoxesIterator>) -> [u64; 5] {
    let given = next.rest.given;
    match next.tile {
        Some(t) => [1, u64::from(t.x), u64::from(t.y), u64::from(t.z), given],
        None => [0, 0, 0, 0, given],
    }
}

// The calls whose arguments begin with a box.
fn of_one(name: &[u8], b: TileZBox, rest: &[u64], want: &[u64]) -> Option<bool> {
    match (name, rest) {
        (b"zoom_depth", &[depth]) => {
            let depth = u8::try_from(depth).ok()?;
            Some(same_box(b.zoom_depth(depth), want))
        }
        (b"contains_tile", &[x, y, z]) => {
            let t = args::tile(x, y, z)?;
            let answer = b.contains_tile(t.x, t.y, t.z);
            Some(answers::same_number(answer, want))
        }
        (b"size_hint", &[given]) => {
            let cursor = TileZBoxIterator { range: b, given };
            Some(answers::same_number(cursor.size_hint(), want))
        }
        (_, []) => of_box(name, b, want),
        _ => None,
    }
}

fn of_box(name: &[u8], b: TileZBox, want: &[u64]) -> Option<bool> {
    let same = match name {
        b"flipy" => same_box(b.flipy(), want) && answers::same_check(b.check(), want),
        b"zoom_in" => same_box(b.zoom_in(), want),
        b"dimensions" => same_extent(b.dimensions(), want),
        b"dxdy" => same_extent(b.dxdy(), want),
        b"length" => {
            answers::same_number(b.length(), want) && answers::same_number(b.size(), want)
        }
        b"iter" => answers::same_walk(TileZBoxIterator::from(b), TileZBoxIterator::next, want),
        _ => return None,
    };
    Some(same)
}

fn same_box(answer: Result<TileZBox, Refusal>, want: &[u64]) -> bool {
    answers::same(answer.map(box_numbers), want)
}

fn box_numbers(b: TileZBox) -> [u64; 5] {
    [
        u64::from(b.zoom),
        u64::from(b.minx),
        u64::from(b.maxx),
        u64::from(b.miny),
        u64::from(b.maxy),
    ]
}

fn same_extent(answer: Result<Extent, Refusal>, want: &[u64]) -> bool {
    answers::same(
        answer.map(|e| [u64::from(e.across), u64::from(e.down)]),
        want,
    )
}

// The box of five numbers, on the map or off it.
fn box_of(numbers: &[u64]) -> Option<TileZBox> {
    let &[zoom, minx, maxx, miny, maxy] = numbers else {
        return None;
    };
    Some(TileZBox {
        zoom: u8::try_from(zoom).ok()?,
        minx: u32::try_from(minx).ok()?,
        maxx: u32::try_from(maxx).ok()?,
        miny: u32::try_from(miny).ok()?,
        maxy: u32::try_from(maxy).ok()?,
    })
}
