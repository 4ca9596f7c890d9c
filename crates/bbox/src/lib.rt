// Boxes of degrees, `bbox.rs`: what lies in a box, which boxes meet, and the parts of one that crosses the antimeridian.
// A comparison with NaN is false.
#![tactic(auto)]

ghost use Rattle.std.specs.Prelude.{◌≡◌};
ghost use Rattle.bbox.specs.Box.{box, crosses, contains_point, contains_box, is_within_of, meets, parts, held};

// A place on the map, in degrees.
#[derive(Clone, Copy, Debug, PartialEq)]
pub struct LngLat {
    pub lng: f64,
    pub lat: f64,
}

// A box by its four edges, in degrees.
#[derive(Clone, Copy, Debug, PartialEq)]
pub struct BBox {
    pub west: f64,
    pub south: f64,
    pub east: f64,
    pub north: f64,
}

// One box or two: with a count of 1 the second is all zeros. It is no enum, since the C interface gives the count and both as they stand.
#[derive(Clone, Copy, Debug, PartialEq)]
pub struct BBoxes {
    pub first: BBox,
    pub second: BBox,
    pub count: u8,
}

impl BBox {
    // The box of four edges, in degrees.
    pub fn new(west: f64, south: f64, east: f64, north: f64) -> Self
        ensures { result ≡ box west south east north }
    {
        Self {
            west,
            south,
            east,
            north,
        }
    }

    // Another name of `crosses_antimeridian`.
    pub fn is_antimeridian(self) -> bool
        ensures { result ≡ crosses self }
    {
        self.crosses_antimeridian()
    }

    // Whether the box goes over the antimeridian: its west is above its east.
    pub fn crosses_antimeridian(self) -> bool
        ensures { result ≡ crosses self }
    {
        self.west > self.east
    }

    // Whether a point lies in the box or on its edge; where the box crosses the antimeridian, from west on or up to east.
    #[tactic(auto, using(crate::proofs::Theorems::rust_contains_lnglat))]
    pub fn contains_lnglat(self, lnglat: LngLat) -> bool
        ensures { result ≡ contains_point self lnglat }
    {
        let lng = lnglat.lng;
        let lat = lnglat.lat;
        if self.crosses_antimeridian() {
            (lng >= self.west || lng <= self.east) && lat >= self.south && lat <= self.north
        } else {
            lng >= self.west && lng <= self.east && lat >= self.south && lat <= self.north
        }
    }

    // Whether the other box's edges lie inside this one's; where only this one crosses the antimeridian, from its west on or up to its
    // east.
    #[tactic(auto, using(crate::proofs::Theorems::rust_contains_bbox))]
    pub fn contains_bbox(self, other: BBox) -> bool
        ensures { result ≡ contains_box self other }
    {
        if self.is_antimeridian() {
            if other.is_antimeridian() {
                if self.west <= other.west && self.east >= other.east {
                    self.south <= other.south && self.north >= other.north
                } else {
                    false
                }
            } else if self.west <= other.west || self.east >= other.east {
                self.south <= other.south && self.north >= other.north
            } else {
                false
            }
        } else {
            self.north >= other.north
                && self.south <= other.south
                && self.east >= other.east
                && self.west <= other.west
        }
    }

    // Whether this box's edges lie inside the other's, with no notice of the antimeridian.
    #[tactic(auto, using(crate::proofs::Theorems::rust_is_within))]
    pub fn is_within(self, other: BBox) -> bool
        ensures { result ≡ is_within_of self other }
    {
        self.north <= other.north
            && self.south >= other.south
            && self.east <= other.east
            && self.west >= other.west
    }

    // Whether the two boxes meet, if only at an edge, with no notice of the antimeridian.
    #[tactic(auto, using(crate::proofs::Theorems::rust_intersects))]
    pub fn intersects(self, other: BBox) -> bool
        ensures { result ≡ meets self other }
    {
        self.north >= other.south
            && self.south <= other.north
            && self.east >= other.west
            && self.west <= other.east
    }

    // The box itself, or, where it crosses the antimeridian, its part west of it and its part east of it.
    pub fn bboxes(self) -> BBoxes
        ensures { result ≡ held (parts self) }
    {
        if self.crosses_antimeridian() {
            BBoxes {
                first: BBox::new(self.west, self.south, 180.0, self.north),
                second: BBox::new(-180.0, self.south, self.east, self.north),
                count: 2,
            }
        } else {
            BBoxes {
                first: self,
                second: BBox::new(0.0, 0.0, 0.0, 0.0),
                count: 1,
            }
        }
    }
}
