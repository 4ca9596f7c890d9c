// What the exported calls of bbox.rs do: each asks the crate `bbox` and hands the answer on in numbers.
#![tactic(auto)]

ghost use Rattle.std.specs.Prelude.{◌≡◌};
ghost use Rattle.bbox.specs.Box.{box, contains_box, contains_point, crosses, held, is_within_of, meets, parts, point};
ghost use Rattle.c_bbox.specs.Boxes.{boxes_at};
ghost use Rattle.c_give.specs.Exported.{answered, as_byte, never};

use bbox::{BBox, LngLat};

pub fn crosses_antimeridian(west: f64, south: f64, east: f64, north: f64, told: &mut u8) -> u8
    ensures { answered result told.new ≡ as_byte (never (crosses (box west south east north))) }
{
    let area = BBox::new(west, south, east, north);
    c_give::yes_or_no(area.crosses_antimeridian(), told)
}

pub fn contains_lnglat(
    west: f64,
    south: f64,
    east: f64,
    north: f64,
    lng: f64,
    lat: f64,
    told: &mut u8,
) -> u8
    ensures { answered result told.new ≡ as_byte (never (contains_point (box west south east north) (point lng lat))) }
{
    let area = BBox::new(west, south, east, north);
    let place = LngLat { lng, lat };
    c_give::yes_or_no(area.contains_lnglat(place), told)
}

pub fn contains_bbox(
    west: f64,
    south: f64,
    east: f64,
    north: f64,
    western: f64,
    southern: f64,
    eastern: f64,
    northern: f64,
    told: &mut u8,
) -> u8
    ensures { answered result told.new
        ≡ as_byte (never (contains_box (box west south east north) (box western southern eastern northern))) }
{
    let area = BBox::new(west, south, east, north);
    let other = BBox::new(western, southern, eastern, northern);
    c_give::yes_or_no(area.contains_bbox(other), told)
}

pub fn is_within(
    west: f64,
    south: f64,
    east: f64,
    north: f64,
    western: f64,
    southern: f64,
    eastern: f64,
    northern: f64,
    told: &mut u8,
) -> u8
    ensures { answered result told.new
        ≡ as_byte (never (is_within_of (box west south east north) (box western southern eastern northern))) }
{
    let area = BBox::new(west, south, east, north);
    let other = BBox::new(western, southern, eastern, northern);
    c_give::yes_or_no(area.is_within(other), told)
}

pub fn intersects(
    west: f64,
    south: f64,
    east: f64,
    north: f64,
    western: f64,
    southern: f64,
    eastern: f64,
    northern: f64,
    told: &mut u8,
) -> u8
    ensures { answered result told.new
        ≡ as_byte (never (meets (box west south east north) (box western southern eastern northern))) }
{
    let area = BBox::new(west, south, east, north);
    let other = BBox::new(western, southern, eastern, northern);
    c_give::yes_or_no(area.intersects(other), told)
}

pub fn bboxes(
    west: f64,
    south: f64,
    east: f64,
    north: f64,
    count: &mut u8,
    w1: &mut f64,
    s1: &mut f64,
    e1: &mut f64,
    n1: &mut f64,
    w2: &mut f64,
    s2: &mut f64,
    e2: &mut f64,
    n2: &mut f64,
) -> u8
    ensures { answered result (boxes_at (box w1.new s1.new e1.new n1.new)
        (box w2.new s2.new e2.new n2.new) count.new)
        ≡ never (held (parts (box west south east north))) }
{
    let area = BBox::new(west, south, east, north);
    let found = area.bboxes();
    let first = found.first;
    let second = found.second;
    *count = found.count;
    *w1 = first.west;
    *s1 = first.south;
    *e1 = first.east;
    *n1 = first.north;
    *w2 = second.west;
    *s2 = second.south;
    *e2 = second.east;
    *n2 = second.north;
    0
}
