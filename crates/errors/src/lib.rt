// The refusals of document 01, "Who can cause a refusal", and of document 02: a case for each number. A call that may be refused answers a
// `Result` with one of them.
#![tactic(auto)]

ghost use Rattle.std.specs.Prelude.{◌≡◌};
ghost use Rattle.errors.specs.Answer.{number_of};
ghost use Rattle.errors.specs.Cases.{check_number};
ghost use Rattle.errors.specs.Turn.{first_of, turn_of};

#[derive(Clone, Copy, Debug, PartialEq, Eq)]
pub enum Refusal {
    // a zoom above the deepest one.
    Zoom = 1,
    // x or y off the map.
    OffMap = 2,
    // no such ancestor or sibling.
    NoRelative = 3,
    // a key longer than the deepest zoom.
    KeyLength = 4,
    // a byte that is no quadkey digit.
    KeyByte = 5,
    // too many entries, or too many boxes.
    TooMany = 6,
    // a number that is no tile's.
    NoTile = 7,
    // no tile to make a box of.
    EmptyList = 8,
    // tiles of mixed zooms in one box.
    MixedZooms = 9,
    // a box upside down or off the map, or a cursor past its end.
    NoBox = 10,
    // a list that is not settled.
    NotSettled = 11,
    // lent memory that is too short.
    Memory = 12,
    // a line that is too long.
    LineLength = 13,
    // too many open brackets.
    Brackets = 14,
    // a line that is no form.
    NoForm = 15,
    // a state that no calls leave.
    NoState = 16,
}

// The number by which the papers name a refusal.
pub fn number(why: Refusal) -> u8
    ensures { result ≡ number_of why }
{
    why as u8
}

// The number of a test: 0 where nothing is refused.
pub fn check_number(r: Result<(), Refusal>) -> u8
    ensures { result ≡ check_number r }
{
    match r {
        Ok(()) => 0,
        Err(why) => number(why),
    }
}

// The turn in which a refusal is tested: of two that apply, the one with the lower turn is given.
pub fn turn(why: Refusal) -> u8
    ensures { result ≡ turn_of (number_of why) }
{
    let n = number(why);
    if n == 16 {
        return 3;
    }
    if n < 4 {
        return n - 1;
    }
    n
}

// The refusal of two that is tested first.
pub fn first(a: Refusal, b: Refusal) -> Refusal
    ensures { number_of result ≡ first_of (number_of a) (number_of b) }
{
    if turn(b) < turn(a) {
        return b;
    }
    a
}
