// Replays the calls of bbox.rs. The list writes a double as its place in a table.
use bbox::{BBox, BBoxes, LngLat};
use replay::answers;
use replay::parse::Call;

// Whether the call answers what the list says; None where it is no call of this file.
pub fn replayed(call: Call<'_>) -> Option<bool> {
    let Call { name, given, want } = call;
    let (edges, rest) = given.split_at_checked(4)?;
    let b = box_of(edges)?;
    match (name, rest) {
        (b"bboxes", []) => same_boxes(b.bboxes(), want),
        (b"crosses_antimeridian", []) => Some(same_bool(b.crosses_antimeridian(), want)),
        (b"contains_lnglat", &[lng, lat]) => {
            let lng = degrees(lng)?;
            let lat = degrees(lat)?;
            Some(same_bool(b.contains_lnglat(LngLat { lng, lat }), want))
        }
        _ => with_box(name, b, box_of(rest)?, want),
    }
}

fn with_box(name: &[u8], b: BBox, other: BBox, want: &[u64]) -> Option<bool> {
    let answer = match name {
        b"contains_bbox" => b.contains_bbox(other),
        b"is_within" => b.is_within(other),
        b"intersects" => b.intersects(other),
        _ => return None,
    };
    Some(same_bool(answer, want))
}

// The answer of a call that says yes or no, and is never refused.
fn same_bool(answer: bool, want: &[u64]) -> bool {
    answers::accepted(&[u64::from(answer)], want)
}

// Whether the list says one box or two, and these; with one the second is all zeros.
fn same_boxes(answer: BBoxes, want: &[u64]) -> Option<bool> {
    let (front, edges) = want.split_at_checked(2)?;
    if !answers::accepted(&[u64::from(answer.count)], front) {
        return None;
    }
    let (first, rest) = edges.split_at_checked(4)?;
    let second = match answer.count {
        1 if rest.is_empty() => BBox::new(0.0, 0.0, 0.0, 0.0),
        1 => return None,
        _ => box_of(rest)?,
    };
    Some(same_box(answer.first, box_of(first)?) && same_box(answer.second, second))
}

fn same_box(a: BBox, b: BBox) -> bool {
    same_double(a.west, b.west)
        && same_double(a.south, b.south)
        && same_double(a.east, b.east)
        && same_double(a.north, b.north)
}

// A NaN is the same as a NaN, and 0.0 is another than -0.0: their inverses differ.
fn same_double(a: f64, b: f64) -> bool {
    if a == b {
        return 1.0 / a == 1.0 / b;
    }
    a != a && b != b
}

fn box_of(edges: &[u64]) -> Option<BBox> {
    let &[west, south, east, north] = edges else {
        return None;
    };
    Some(BBox::new(
        degrees(west)?,
        degrees(south)?,
        degrees(east)?,
        degrees(north)?,
    ))
}

// The double at a place of the table.
fn degrees(place: u64) -> Option<f64> {
    let double = match place {
        0 => 0.0 / 0.0,
        1 => -1.0 / 0.0,
        2 => -180.0,
        3 => -90.0,
        4 => -10.5,
        5 => -0.0,
        6 => 0.0,
        7 => 10.5,
        8 => 90.0,
        9 => 179.5,
        10 => 180.0,
        11 => 1.0 / 0.0,
        _ => return None,
    };
    Some(double)
}
