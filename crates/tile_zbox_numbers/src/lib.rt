// Several boxes as plain numbers, five for each: zoom, minx, maxx, miny, maxy. The Rust's `TileZBoxes`, whose boxes as records are in
// `tile_zboxes`.
#![tactic(auto)]

ghost use Rattle.std.specs.Prelude.{◌≡◌, false, ◌++◌, ◌+◌, ◌/◌, ◌≤◌, length, drop, get_or};
ghost use Rattle.std.specs.List.{list_any};
ghost use Rattle.std.proofs.lemmas.List.Edits.{sets};
ghost use Rattle.bits.specs.Tests.{any_of};
ghost use Rattle.constants.specs.Limits.{max_zoom};
ghost use Rattle.errors.specs.Cases.{check_number, number_case, left};
ghost use Rattle.tile_zbox.specs.Box.{wrong_edges};
ghost use Rattle.tile_zbox_numbers.specs.Boxes.{deep, sum_lengths, box_from, boxes_of, numbers_refusal, numbers_length_of, numbers};
ghost use Rattle.tile_zbox_numbers.specs.Boxes.{flipped_numbers, boxes_flip_of};
ghost use Rattle.tile_zbox_numbers.specs.Arrays.{fives, five_deep};

use constants::{MAX_BOXES, MAX_ZOOM};
use errors::Refusal;
use tile_zbox::TileZBox;

// The sum of the boxes' lengths, overlaps counted twice.
pub fn boxes_length(boxes: &[u32]) -> Result<u64, Refusal>
    ensures { number_case result ≡ numbers_length_of boxes.now }
{
    boxes_check(boxes)?;
    Ok(sum(boxes))
}

fn sum(boxes: &[u32]) -> u64
    requires { numbers_refusal boxes.now ≡ 0 }
    ensures { result ≡ sum_lengths (boxes_of boxes.now) }
{
    let mut total: u64 = 0;
    for five in fives(boxes) {
        total += box_of(five).count();
    }
    total
}

// The flipped boxes, as numbers in the same order.
pub fn boxes_flipy(boxes: &[u32], out: &mut [u32]) -> Result<usize, Refusal>
    ensures { left result out.new ≡ boxes_flip_of boxes.now out.old }
{
    boxes_check(boxes)?;
    let n = boxes.len();
    if out.len() < n {
        return Err(Refusal::Memory);
    }
    flip_all(boxes, out);
    Ok(n)
}

fn flip_all(boxes: &[u32], out: &mut [u32])
    requires boxes_value { numbers_refusal boxes.now ≡ 0 }
    requires boxes_in_bounds { length boxes.now ≤ length out.old }
    ensures { out.new ≡ flipped_numbers boxes.now ++ drop (length boxes.now) out.old }
{
    for (k, five) in fives(boxes).iter().enumerate() {
        put(out, 5 * k, box_of(five).flipped());
    }
}

fn put(out: &mut [u32], at: usize, b: TileZBox)
    requires { at + 5 ≤ length out.old }
    ensures { out.new ≡ sets out.old at (numbers b) }
{
    out[at] = u32::from(b.zoom);
    out[at + 1] = b.minx;
    out[at + 2] = b.maxx;
    out[at + 3] = b.miny;
    out[at + 4] = b.maxy;
}

// The refusal that is tested first over all boxes and their count.
fn boxes_check(boxes: &[u32]) -> Result<(), Refusal>
    ensures { check_number result ≡ numbers_refusal boxes.now }
{
    if any_deep(fives(boxes)) {
        return Err(Refusal::Zoom);
    }
    if boxes.len() / 5 > MAX_BOXES {
        return Err(Refusal::TooMany);
    }
    if boxes.len() % 5 != 0 {
        return Err(Refusal::NoBox);
    }
    if any_wrong(boxes) {
        return Err(Refusal::NoBox);
    }
    Ok(())
}

#[tactic(auto, unfolding(constants::specs::Limits::max_zoom))]
fn any_deep(all: &[[u32; 5]]) -> bool
    ensures { result ≡ list_any five_deep all.now }
{
    all.iter().any(|five| five[0] > u32::from(MAX_ZOOM))
}

fn any_wrong(boxes: &[u32]) -> bool
    requires { any_of deep (boxes_of boxes.now) ≡ false }
    ensures { result ≡ any_of wrong_edges (boxes_of boxes.now) }
{
    for five in fives(boxes) {
        if box_of(five).wrong_edges() {
            return true;
        }
    }
    false
}

// The whole fives of numbers.
fn fives(boxes: &[u32]) -> &[[u32; 5]]
    ensures { result.now ≡ fives (length boxes.now / 5) boxes.now }
{
    boxes.as_chunks::<5>().0
}

// The box of five numbers.
#[tactic(auto, using(constants::specs::Limits::max_zoom_small))]
fn box_of(five: &[u32; 5]) -> TileZBox
    requires { get_or five.now 0 0 ≤ max_zoom }
    ensures { result ≡ box_from five.now }
{
    let [zoom, minx, maxx, miny, maxy] = *five;
    TileZBox {
        zoom: zoom as u8,
        minx,
        maxx,
        miny,
        maxy,
    }
}

// The box whose five numbers start at a place: for `tile_zboxes_iter` too.
pub fn box_at(boxes: &[u32], at: usize) -> TileZBox
    requires at_in_bounds { at + 5 ≤ length boxes.now }
    requires at_bound { get_or boxes.now at 0 ≤ max_zoom }
    ensures { result ≡ box_from (drop at boxes.now) }
{
    TileZBox {
        zoom: boxes[at] as u8,
        minx: boxes[at + 1],
        maxx: boxes[at + 2],
        miny: boxes[at + 3],
        maxy: boxes[at + 4],
    }
}
