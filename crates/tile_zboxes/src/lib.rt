// `TileZBoxes` as a lent list of box records: the sum of the boxes' lengths, overlaps counted twice. The same of boxes that are
// plain numbers is `tile_zbox_numbers::boxes_length`.
#![tactic(auto)]

ghost use Rattle.std.specs.Prelude.{◌≡◌, [], ◌+◌, ◌<◌, ◌^◌};
ghost use Rattle.errors.specs.Cases.{number_case};
ghost use Rattle.tile_zbox.specs.Box.{length_of};
ghost use Rattle.tile_zbox_numbers.specs.Boxes.{boxes_length_of};
ghost use Rattle.tile_zboxes.specs.SoFar.{boxes_so_far, ◌plus◌};

use constants::MAX_BOXES;
use errors::Refusal;
use tile_zbox::TileZBox;

// The first refusal over all boxes and their count, or else the sum. It only reads the boxes one by one: what is done with them is in the
// functions below.
pub fn boxes_length(boxes: &[TileZBox]) -> Result<u64, Refusal>
    ensures { number_case result ≡ boxes_length_of boxes.now }
{
    let mut sum = start(boxes.len());
    for b in boxes {
        sum = with_box(sum, *b);
    }
    sum
}

// The answer before the first of n boxes.
#[tactic(auto, using(crate::specs::SoFar::none_of_many, crate::specs::SoFar::none_of_few), unfolding(constants::specs::Limits::max_boxes))]
fn start(n: usize) -> Result<u64, Refusal>
    ensures { number_case result ≡ boxes_so_far n [] }
{
    if n > MAX_BOXES {
        return Err(Refusal::TooMany);
    }
    Ok(0)
}

// The answer with one box more: the refusal that is tested first stands.
fn with_box(sum: Result<u64, Refusal>, b: TileZBox) -> Result<u64, Refusal>
    requires { (number_case sum).value + (length_of b).value < 2 ^ 64 }
    ensures { number_case result ≡ number_case sum plus length_of b }
{
    match (sum, b.length()) {
        (Ok(before), Ok(length)) => Ok(before + length),
        (Ok(_), Err(why)) => Err(why),
        (Err(before), Ok(_)) => Err(before),
        (Err(before), Err(why)) => Err(errors::first(before, why)),
    }
}
