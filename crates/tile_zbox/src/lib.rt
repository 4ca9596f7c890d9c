// A box of tiles of one zoom, both ends included: its check, and what is made of it. Its tiles one by one are in `tile_zbox_iter`, the box
// around listed tiles in `tile_zbox_around`, and boxes as plain numbers in `tile_zbox_numbers`.
#![tactic(auto)]

ghost use Rattle.std.specs.Prelude.{◌≡◌, ◌+◌, ◌≤◌};
ghost use Rattle.constants.specs.Limits.{max_zoom};
ghost use Rattle.errors.specs.Cases.{check_number, bool_case, number_case};
ghost use Rattle.tile_zbox.specs.Box.{IsBox, wrong_run, wrong_edges, box_refusal, box_case, extent_case, new_of, from_tile_of};
ghost use Rattle.tile_zbox.specs.Box.{in_box, contains_on_map, contains_of, flipped, box_flip_of, zoomed_by, zoom_in_of, zoom_depth_of};
ghost use Rattle.tile_zbox.specs.Box.{columns_of, rows_of, box_length, length_of, dx_of, dy_of, dxdy_of, dimensions_of};

use constants::MAX_ZOOM;
use errors::Refusal;

#[derive(Clone, Copy, Debug, PartialEq, Eq)]
pub struct TileZBox {
    pub zoom: u8,
    pub minx: u32,
    pub maxx: u32,
    pub miny: u32,
    pub maxy: u32,
}

// A number of columns, and one of rows.
#[derive(Clone, Copy, Debug, PartialEq, Eq)]
pub struct Extent {
    pub across: u32,
    pub down: u32,
}

impl TileZBox {
    // Whether it is a box of the map: the zoom is tested before the edges.
    #[tactic(auto, using(crate::proofs::Rules::checks), unfolding(constants::specs::Limits::max_zoom))]
    pub fn check(self) -> Result<(), Refusal>
        ensures { check_number result ≡ box_refusal self }
    {
        if self.zoom > MAX_ZOOM {
            return Err(Refusal::Zoom);
        }
        if self.wrong_edges() {
            return Err(Refusal::NoBox);
        }
        Ok(())
    }

    // Whether the edges are none of the map's, of a zoom that has been checked: for `tile_zbox_numbers` too.
    #[tactic(auto, using(tile::specs::OnMap::side_is), unfolding(crate::specs::Box::wrong_edges))]
    pub fn wrong_edges(self) -> bool
        requires { self.zoom ≤ max_zoom }
        ensures { result ≡ wrong_edges self }
    {
        let end = bits::pow2(self.zoom);
        wrong_run(self.minx, self.maxx, end) || wrong_run(self.miny, self.maxy, end)
    }

    // The box itself, where it is one of the map.
    pub fn new(minx: u32, maxx: u32, miny: u32, maxy: u32, zoom: u8) -> Result<TileZBox, Refusal>
        ensures { box_case result ≡ new_of minx maxx miny maxy zoom }
    {
        let made = TileZBox {
            zoom,
            minx,
            maxx,
            miny,
            maxy,
        };
        made.check()?;
        Ok(made)
    }

    // The box of one tile.
    pub fn from_tile(x: u32, y: u32, z: u8) -> Result<TileZBox, Refusal>
        ensures { box_case result ≡ from_tile_of x y z }
    {
        tile::check(x, y, z)?;
        Ok(TileZBox {
            zoom: z,
            minx: x,
            maxx: x,
            miny: y,
            maxy: y,
        })
    }

    // Whether a tile is in the box. What is tested over the tile and the box: a zoom, then the tile, then the box.
    #[tactic(auto, unfolding(constants::specs::Limits::max_zoom))]
    pub fn contains_tile(self, x: u32, y: u32, z: u8) -> Result<bool, Refusal>
        ensures { bool_case result ≡ contains_of self x y z }
    {
        if self.zoom > MAX_ZOOM {
            return Err(Refusal::Zoom);
        }
        tile::check(x, y, z)?;
        self.contains_on_map(x, y, z)
    }

    // The same for a tile of the map.
    fn contains_on_map(self, x: u32, y: u32, z: u8) -> Result<bool, Refusal>
        ensures { bool_case result ≡ contains_on_map self x y z }
    {
        self.check()?;
        Ok(self.holds(x, y, z))
    }

    #[tactic(auto, unfolding(crate::specs::Box::in_box))]
    fn holds(self, x: u32, y: u32, z: u8) -> bool
        ensures { result ≡ in_box self x y z }
    {
        z == self.zoom
            && (self.minx..=self.maxx).contains(&x)
            && (self.miny..=self.maxy).contains(&y)
    }

    // Rows counted from the other side of the map.
    pub fn flipy(self) -> Result<TileZBox, Refusal>
        ensures { box_case result ≡ box_flip_of self }
    {
        self.check()?;
        Ok(self.flipped())
    }

    // The same of a box that has been checked: for `tile_zbox_numbers` too.
    #[tactic(auto, using(tile::specs::OnMap::side_is, std::proofs::Common::pow_pos), unfolding(crate::specs::Box::flipped))]
    pub fn flipped(self) -> TileZBox
        requires { IsBox self }
        ensures { result ≡ flipped self }
    {
        let last = bits::pow2(self.zoom) - 1;
        TileZBox {
            zoom: self.zoom,
            minx: self.minx,
            maxx: self.maxx,
            miny: last - self.maxy,
            maxy: last - self.miny,
        }
    }

    // The same ground one zoom deeper.
    #[tactic(auto, using(crate::specs::Laws::zoomed_once))]
    pub fn zoom_in(self) -> Result<TileZBox, Refusal>
        ensures { box_case result ≡ zoom_in_of self }
    {
        self.zoom_depth(1)
    }

    // The same ground `depth` zooms deeper: a tile's edge becomes 2 ^ depth edges.
    #[tactic(auto, unfolding(constants::specs::Limits::max_zoom))]
    pub fn zoom_depth(self, depth: u8) -> Result<TileZBox, Refusal>
        ensures { box_case result ≡ zoom_depth_of self depth }
    {
        if self.zoom > MAX_ZOOM {
            return Err(Refusal::Zoom);
        }
        if depth > MAX_ZOOM - self.zoom {
            return Err(Refusal::Zoom);
        }
        self.check()?;
        Ok(self.zoomed(depth))
    }

    #[tactic(auto, using(crate::proofs::Rules::scaling), unfolding(crate::specs::Box::zoomed_by))]
    fn zoomed(self, depth: u8) -> TileZBox
        requires fact { IsBox self }
        requires depth_bound { self.zoom + depth ≤ max_zoom }
        ensures { result ≡ zoomed_by self depth }
    {
        let scale = bits::pow2(depth);
        TileZBox {
            zoom: self.zoom + depth,
            minx: self.minx * scale,
            maxx: self.maxx * scale + (scale - 1),
            miny: self.miny * scale,
            maxy: self.maxy * scale + (scale - 1),
        }
    }

    // How many tiles the box has.
    pub fn length(self) -> Result<u64, Refusal>
        ensures { number_case result ≡ length_of self }
    {
        self.check()?;
        Ok(self.count())
    }

    // The same of a box that has been checked: for `tile_zbox_iter`, `tile_zbox_numbers` and `tile_zboxes_iter` too.
    #[tactic(auto, using(crate::specs::Laws::length_small), unfolding(crate::specs::Box::box_length))]
    pub fn count(self) -> u64
        requires { IsBox self }
        ensures { result ≡ box_length self }
    {
        u64::from(self.columns()) * u64::from(self.rows())
    }

    // How many columns a box that has been checked has: for `tile_zbox_iter` too.
    #[tactic(auto, using(crate::specs::Laws::columns_fit, tile::specs::OnMap::side_small))]
    pub fn columns(self) -> u32
        requires { IsBox self }
        ensures { result ≡ columns_of self }
    {
        self.maxx - self.minx + 1
    }

    #[tactic(auto, using(crate::specs::Laws::rows_fit, tile::specs::OnMap::side_small))]
    fn rows(self) -> u32
        requires { IsBox self }
        ensures { result ≡ rows_of self }
    {
        self.maxy - self.miny + 1
    }

    // Another name of `length`.
    pub fn size(self) -> Result<u64, Refusal>
        ensures { number_case result ≡ length_of self }
    {
        self.length()
    }

    // The last column less the first: one less than the number of columns, as in the Rust, and so `width`.
    pub fn dx(self) -> Result<u32, Refusal>
        ensures { number_case result ≡ dx_of self }
    {
        self.check()?;
        Ok(self.maxx - self.minx)
    }

    // The greatest y less the least: one less than the rows.
    pub fn dy(self) -> Result<u32, Refusal>
        ensures { number_case result ≡ dy_of self }
    {
        self.check()?;
        Ok(self.maxy - self.miny)
    }

    // Another name of `dx`.
    pub fn width(self) -> Result<u32, Refusal>
        ensures { number_case result ≡ dx_of self }
    {
        self.dx()
    }

    // Another name of `dy`.
    pub fn height(self) -> Result<u32, Refusal>
        ensures { number_case result ≡ dy_of self }
    {
        self.dy()
    }

    // Both `dx` and `dy`.
    pub fn dxdy(self) -> Result<Extent, Refusal>
        ensures { extent_case result ≡ dxdy_of self }
    {
        self.check()?;
        Ok(Extent {
            across: self.maxx - self.minx,
            down: self.maxy - self.miny,
        })
    }

    // How many columns and rows the box has.
    pub fn dimensions(self) -> Result<Extent, Refusal>
        ensures { extent_case result ≡ dimensions_of self }
    {
        self.check()?;
        Ok(Extent {
            across: self.columns(),
            down: self.rows(),
        })
    }
}

// Whether min to max is no run of numbers below `end`.
fn wrong_run(min: u32, max: u32, end: u32) -> bool
    ensures { result ≡ wrong_run min max end }
{
    max < min || end <= max
}
