// Answers that more than one crate hands on: the number comes back, the value goes behind the pointers.
#![tactic(auto)]

ghost use Rattle.std.specs.Prelude.{◌≡◌};
ghost use Rattle.errors.specs.Cases.{bool_case, case_of, number_case};
ghost use Rattle.c_give.specs.Exported.{answered, as_byte, never};
ghost use Rattle.tile.specs.OnMap.{tile_at, tile_case};

use errors::Refusal;
use tile::Tile;

// The number of an answer, 0 where nothing is refused, and its value: where it is refused, `none`, the zero of its type.
pub fn apart<T: Copy>(answer: Result<T, Refusal>, none: T) -> (u8, T)
    ensures { answered result.0 result.1 ≡ case_of none answer }
{
    match answer {
        Ok(value) => (0, value),
        Err(why) => (errors::number(why), none),
    }
}

// The same with the value behind a pointer.
pub fn value<T: Copy>(answer: Result<T, Refusal>, none: T, value: &mut T) -> u8
    ensures { answered result value.new ≡ case_of none answer }
{
    let (number, given) = apart(answer, none);
    *value = given;
    number
}

pub fn count(answer: Result<usize, Refusal>, count: &mut u64) -> u8
    ensures { answered result count.new ≡ number_case answer }
{
    let (number, n) = apart(answer, 0);
    *count = n as u64;
    number
}

pub fn told(answer: Result<bool, Refusal>, told: &mut u8) -> u8
    ensures { answered result told.new ≡ as_byte (bool_case answer) }
{
    let (number, yes) = apart(answer, false);
    *told = yes as u8;
    number
}

// What is never refused.
pub fn yes_or_no(yes: bool, told: &mut u8) -> u8
    ensures { answered result told.new ≡ as_byte (never yes) }
{
    *told = yes as u8;
    0
}

pub fn tile(answer: Result<Tile, Refusal>, x: &mut u32, y: &mut u32, z: &mut u8) -> u8
    ensures { answered result (tile_at x.new y.new z.new) ≡ tile_case answer }
{
    let (number, t) = apart(answer, Tile { x: 0, y: 0, z: 0 });
    *x = t.x;
    *y = t.y;
    *z = t.z;
    number
}
