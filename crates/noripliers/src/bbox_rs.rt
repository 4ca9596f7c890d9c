// Boxes of degrees: the calls of bbox.rs. A box is west, south, east, north; a comparison with NaN is false.
ghost use Rattle.std.specs.Prelude.{◌≡◌};
ghost use Rattle.bbox.specs.Box.{box, contains_box, contains_point, crosses, held, is_within_of, meets, parts, point};
ghost use Rattle.c_bbox.specs.Boxes.{boxes_at};
ghost use Rattle.c_give.specs.Exported.{answered, as_byte, never};

// Whether a box goes over the antimeridian: its west is above its east.
// Never refused.
#[unsafe(no_mangle)]
pub extern "C" fn nori_bbox_crosses_antimeridian(
    west: f64,
    south: f64,
    east: f64,
    north: f64,
    told: &mut u8,
) -> u8
    ensures { answered result told.new ≡ as_byte (never (crosses (box west south east north))) }
{
    c_bbox::crosses_antimeridian(west, south, east, north, told)
}

// The same as nori_bbox_crosses_antimeridian.
// Never refused.
#[unsafe(no_mangle)]
pub extern "C" fn nori_bbox_is_antimeridian(
    west: f64,
    south: f64,
    east: f64,
    north: f64,
    told: &mut u8,
) -> u8
    ensures { answered result told.new ≡ as_byte (never (crosses (box west south east north))) }
{
    c_bbox::crosses_antimeridian(west, south, east, north, told)
}

// Whether a point lies in a box or on its edge; in one that crosses the antimeridian, from west on or up to east.
// Never refused.
#[unsafe(no_mangle)]
pub extern "C" fn nori_bbox_contains_lnglat(
    west: f64,
    south: f64,
    east: f64,
    north: f64,
    lng: f64,
    lat: f64,
    told: &mut u8,
) -> u8
    ensures { answered result told.new ≡ as_byte (never (contains_point (box west south east north) (point lng lat))) }
{
    c_bbox::contains_lnglat(west, south, east, north, lng, lat, told)
}

// Whether the second box's edges lie inside the first's; where only the first crosses the antimeridian, from its west on
// or up to its east.
// Never refused.
#[unsafe(no_mangle)]
pub extern "C" fn nori_bbox_contains_bbox(
    west: f64,
    south: f64,
    east: f64,
    north: f64,
    western: f64,
    southern: f64,
    eastern: f64,
    northern: f64,
    told: &mut u8,
) -> u8
    ensures { answered result told.new
        ≡ as_byte (never (contains_box (box west south east north) (box western southern eastern northern))) }
{
    c_bbox::contains_bbox(
        west, south, east, north, western, southern, eastern, northern, told,
    )
}

// Whether the first box's edges lie inside the second's, with no notice of the antimeridian.
// Never refused.
#[unsafe(no_mangle)]
pub extern "C" fn nori_bbox_is_within(
    west: f64,
    south: f64,
    east: f64,
    north: f64,
    western: f64,
    southern: f64,
    eastern: f64,
    northern: f64,
    told: &mut u8,
) -> u8
    ensures { answered result told.new
        ≡ as_byte (never (is_within_of (box west south east north) (box western southern eastern northern))) }
{
    c_bbox::is_within(
        west, south, east, north, western, southern, eastern, northern, told,
    )
}

// Whether two boxes meet, if only at an edge, with no notice of the antimeridian.
// Never refused.
#[unsafe(no_mangle)]
pub extern "C" fn nori_bbox_intersects(
    west: f64,
    south: f64,
    east: f64,
    north: f64,
    western: f64,
    southern: f64,
    eastern: f64,
    northern: f64,
    told: &mut u8,
) -> u8
    ensures { answered result told.new
        ≡ as_byte (never (meets (box west south east north) (box western southern eastern northern))) }
{
    c_bbox::intersects(
        west, south, east, north, western, southern, eastern, northern, told,
    )
}

// The box itself with the count 1 and a second box of zeros; where it crosses the antimeridian, the part up to there and
// the part from there on with the count 2.
// Never refused.
#[unsafe(no_mangle)]
pub extern "C" fn nori_bbox_bboxes(
    west: f64,
    south: f64,
    east: f64,
    north: f64,
    count: &mut u8,
    w1: &mut f64,
    s1: &mut f64,
    e1: &mut f64,
    n1: &mut f64,
    w2: &mut f64,
    s2: &mut f64,
    e2: &mut f64,
    n2: &mut f64,
) -> u8
    ensures { answered result (boxes_at (box w1.new s1.new e1.new n1.new)
        (box w2.new s2.new e2.new n2.new) count.new)
        ≡ never (held (parts (box west south east north))) }
{
    c_bbox::bboxes(
        west, south, east, north, count, w1, s1, e1, n1, w2, s2, e2, n2,
    )
}
