// Zooms: sets of them as the bits of a number, and lists of them.
#![tactic(auto)]

ghost use Rattle.std.specs.Prelude.{◌≡◌, suc, ◌-◌, ◌^◌};
ghost use Rattle.std.specs.Int.Bits.{bit_and};
ghost use Rattle.errors.specs.Answer.{written};
ghost use Rattle.errors.specs.Cases.{check_number, number_case, left};
ghost use Rattle.zoom_bits.specs.Bits.{last_zoom};
ghost use Rattle.zoom_ranges.specs.Ranges.{left_two, ranges_of};
ghost use Rattle.zoom.specs.Zooms.{max_xY, zooms_of, zooms_of_rev, zooms_refusal, zvec_set, zvec_set_rev};
ghost use Rattle.zoom.specs.Zooms.{zoom_bit, zoom_bit_rev, and_zoom, range_set, zoom_set_case};

use constants::{MAX_ENTRIES, MAX_ZOOM};
use errors::Refusal;
use std::ops::BitAnd;
use zoom_bits::{LAST_ZOOM, TURN_BIT};
use zoom_ranges::ZoomRange;

// Bit i is zoom i; bit 31 turns the set round where `zset2zvec` reads it.
#[derive(Clone, Copy, Debug, PartialEq, Eq)]
pub struct ZoomSet(u32);

// The last column, and the last row, of a zoom.
#[tactic(auto, unfolding(constants::specs::Limits::max_zoom))]
pub fn zoom_max_xy(zoom: u8) -> Result<u32, Refusal>
    ensures { number_case result ≡ max_xY zoom }
{
    if zoom > MAX_ZOOM {
        return Err(Refusal::Zoom);
    }
    Ok(bits::pow2(zoom) - 1)
}

// The zooms of a set, which bit 31 turns round.
pub fn zset2zvec(zset: u32, out: &mut [u8]) -> Result<usize, Refusal>
    ensures { left result out.new ≡ written 0 (zooms_of zset) out.old }
{
    if zoom_bits::has(zset, TURN_BIT) {
        zoom_bits::zooms_into(zoom_bits::reversed(zset, LAST_ZOOM), out)
    } else {
        zoom_bits::zooms_into(zset, out)
    }
}

// The zooms of a set that is turned round whatever its bit 31 says.
#[tactic(auto, using(zoom_bits::specs::Passing::those_of_set))]
pub fn zset2zvec_rev(zset: u32, out: &mut [u8]) -> Result<usize, Refusal>
    ensures { left result out.new ≡ written 0 (zooms_of_rev zset) out.old }
{
    zoom_bits::zooms_into(zoom_bits::reversed(zset, LAST_ZOOM), out)
}

// The set of the listed zooms.
pub fn zvec2zset(zvec: &[u8]) -> Result<u32, Refusal>
    ensures { number_case result ≡ zvec_set zvec.now }
{
    check_zooms(zvec)?;
    Ok(zoom_bits::union(zvec))
}

// The number of the listed zooms whose bit 31 - i is zoom i.
#[tactic(auto, using(crate::specs::Lists::set_turned))]
pub fn zvec2zset_rev(zvec: &[u8]) -> Result<u32, Refusal>
    ensures { number_case result ≡ zvec_set_rev zvec.now }
{
    check_zooms(zvec)?;
    Ok(zoom_bits::reversed(zoom_bits::union(zvec), TURN_BIT))
}

// The number of a single zoom beside the lists of `zvec2zset_rev`.
pub fn zoom_bit_rev(zoom: u8) -> Result<u32, Refusal>
    ensures { number_case result ≡ zoom_bit_rev zoom }
{
    if zoom > LAST_ZOOM {
        return Err(Refusal::Zoom);
    }
    Ok(bits::pow2(TURN_BIT - zoom))
}

// The set of all zooms of a range, which is empty where the lowest is above the highest.
#[tactic(auto, using(zoom_bits::specs::Sets::set_of_empty_span))]
pub fn zoom_set(range: ZoomRange) -> Result<ZoomSet, Refusal>
    ensures { zoom_set_case result ≡ range_set range }
{
    if range.max < range.min {
        return Ok(ZoomSet(0));
    }
    if range.max > LAST_ZOOM {
        return Err(Refusal::Zoom);
    }
    Ok(ZoomSet(zoom_bits::span(range.min, range.max)))
}

impl ZoomSet {
    // The set of a number, whose bit i is zoom i.
    pub fn new(zset: u32) -> ZoomSet
        ensures { result.0 ≡ zset }
    {
        ZoomSet(zset)
    }

    // The number that `new` makes the set of.
    pub fn number(self) -> u32
        ensures { result ≡ self.0 }
    {
        self.0
    }

    // The set of the listed zooms.
    pub fn from_zooms(zooms: &[u8]) -> Result<ZoomSet, Refusal>
        ensures { zoom_set_case result ≡ zvec_set zooms.now }
    {
        zvec2zset(zooms).map(ZoomSet)
    }

    // The set of one zoom.
    pub fn from_zoom(zoom: u8) -> Result<ZoomSet, Refusal>
        ensures { zoom_set_case result ≡ zoom_bit zoom }
    {
        if zoom > LAST_ZOOM {
            return Err(Refusal::Zoom);
        }
        Ok(ZoomSet(bits::pow2(zoom)))
    }

    // The set of all zooms, 0 to 30.
    pub fn all() -> ZoomSet
        ensures { result.0 ≡ 2 ^ suc last_zoom - 1 }
    {
        ZoomSet(0x7fff_ffff)
    }

    // The zooms of the set, rising.
    pub fn to_zooms(self, out: &mut [u8]) -> Result<usize, Refusal>
        ensures { left result out.new ≡ written 0 (zooms_of self.0) out.old }
    {
        zset2zvec(self.0, out)
    }

    // The maximal runs of the zooms of the set, whatever bit 31 is.
    pub fn zoom_ranges(self, lows: &mut [u8], highs: &mut [u8]) -> Result<usize, Refusal>
        ensures { left_two result lows.new highs.new ≡ ranges_of self.0 lows.old highs.old }
    {
        zoom_ranges::zoom_ranges(self.0, lows, highs)
    }

    // The bits that both sets have.
    pub fn and(self, other: ZoomSet) -> ZoomSet
        ensures { result.0 ≡ bit_and self.0 other.0 }
    {
        self & other
    }

    // The bits that the set and a number both have.
    pub fn and_bits(self, bits: u32) -> ZoomSet
        ensures { result.0 ≡ bit_and self.0 bits }
    {
        ZoomSet(self.0 & bits)
    }

    // The bit is that of `zoom_bit_rev` and not the zoom's own, as in the Rust.
    pub fn and_zoom(self, zoom: u8) -> Result<ZoomSet, Refusal>
        ensures { zoom_set_case result ≡ and_zoom self.0 zoom }
    {
        if zoom > LAST_ZOOM {
            return Err(Refusal::Zoom);
        }
        Ok(ZoomSet(self.0 & bits::pow2(TURN_BIT - zoom)))
    }
}

impl BitAnd for ZoomSet {
    type Output = ZoomSet;

    fn bitand(self, other: ZoomSet) -> ZoomSet
        ensures { result.0 ≡ bit_and self.0 other.0 }
    {
        ZoomSet(self.0 & other.0)
    }
}

#[tactic(auto, unfolding(constants::specs::Limits::max_entries))]
fn check_zooms(zvec: &[u8]) -> Result<(), Refusal>
    ensures { check_number result ≡ zooms_refusal zvec.now }
{
    let deep = zoom_bits::any_deeper(zvec);
    let many = zvec.len() > MAX_ENTRIES;
    if deep {
        return Err(Refusal::Zoom);
    }
    if many {
        return Err(Refusal::TooMany);
    }
    Ok(())
}
