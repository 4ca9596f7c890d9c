// Ranges of zooms, and the runs of a set as ranges.
#![tactic(auto)]

ghost use Rattle.std.specs.Prelude.{◌≡◌, suc};
ghost use Rattle.zoom_bits.specs.Bits.{last_zoom, set_of};
ghost use Rattle.zoom_ranges.specs.Edges.{run_starts, run_ends};
ghost use Rattle.zoom_ranges.specs.Ranges.{range_of, holds_zoom, left_two, ranges_of};

use errors::Refusal;
use zoom_bits::LAST_ZOOM;

// The zooms from min to max.
#[derive(Clone, Copy, Debug, PartialEq, Eq)]
pub struct ZoomRange {
    pub min: u8,
    pub max: u8,
}

// The maximal runs of the zooms 0 to 30 of a set, rising, at most 16: the lowest zoom of each, and the highest. Bit 31 is no zoom, and
// turns nothing round here.
pub fn zoom_ranges(zset: u32, lows: &mut [u8], highs: &mut [u8]) -> Result<usize, Refusal>
    ensures { left_two result lows.new highs.new ≡ ranges_of zset lows.old highs.old }
{
    let starts = run_starts(zset);
    let count = zoom_bits::count_zooms(starts);
    if lows.len() < count {
        return Err(Refusal::Memory);
    }
    if highs.len() < count {
        return Err(Refusal::Memory);
    }
    zoom_bits::fill(starts, lows);
    zoom_bits::fill(run_ends(zset), highs);
    Ok(count)
}

impl ZoomRange {
    // The range from min to max.
    pub fn new(min: u8, max: u8) -> ZoomRange
        ensures { result ≡ range_of min max }
    {
        ZoomRange { min, max }
    }

    // The range from 0 to max.
    pub fn from_max(max: u8) -> ZoomRange
        ensures { result ≡ range_of 0 max }
    {
        ZoomRange { min: 0, max }
    }

    // The range from min to 30.
    pub fn from_min(min: u8) -> ZoomRange
        ensures { result ≡ range_of min last_zoom }
    {
        ZoomRange {
            min,
            max: LAST_ZOOM,
        }
    }
}

impl Default for ZoomRange {
    // The range from 0 to 30.
    fn default() -> ZoomRange
        ensures { result ≡ range_of 0 last_zoom }
    {
        ZoomRange {
            min: 0,
            max: LAST_ZOOM,
        }
    }
}

// The bits of the zooms of a set.
fn run_bits(zset: u32) -> u32
    ensures { result ≡ set_of (holds_zoom zset) (suc last_zoom) }
{
    zset & zoom_bits::span(0, LAST_ZOOM)
}

// A run starts at a bit with none before it, and ends at one with none after it.
fn run_starts(zset: u32) -> u32
    ensures { result ≡ set_of (run_starts (holds_zoom zset)) (suc last_zoom) }
{
    let runs = run_bits(zset);
    runs & (runs ^ (runs << 1))
}

fn run_ends(zset: u32) -> u32
    ensures { result ≡ set_of (run_ends (holds_zoom zset)) (suc last_zoom) }
{
    let runs = run_bits(zset);
    runs & (runs ^ (runs >> 1))
}
