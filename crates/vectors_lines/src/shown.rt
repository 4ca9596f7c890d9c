// What the library answers, as text.
use constants::MAX_DIGITS;
use errors::Refusal;
use std::fmt::{self, Display};
use tile::Tile;

// What a call gives, or the number of its refusal.
#[derive(Drop)]
pub struct Answer<T>(pub Result<T, Refusal>);

// A tile as column, row and zoom.
#[derive(Clone, Copy)]
pub struct Place(pub Tile);

// A tile as its key.
#[derive(Clone, Copy)]
pub struct Key(pub Tile);

// The tile of a list's entry, and its key.
#[derive(Clone, Copy)]
pub struct PlaceOf(pub u64);

#[derive(Clone, Copy)]
pub struct KeyOf(pub u64);

// A part of a key.
#[derive(Clone, Copy)]
pub struct Digits<'a>(pub &'a [u8]);

impl<T: Display> Display for Answer<T> {
    fn fmt<W: fmt::Write>(&self, f: &mut fmt::Formatter<W>) -> fmt::Result {
        match &self.0 {
            Ok(given) => write!(f, "{given}"),
            Err(why) => write!(f, "refusal {}", errors::number(*why)),
        }
    }
}

impl Display for Place {
    fn fmt<W: fmt::Write>(&self, f: &mut fmt::Formatter<W>) -> fmt::Result {
        let Tile { x, y, z } = self.0;
        write!(f, "({x},{y},{z})")
    }
}

impl Display for Key {
    fn fmt<W: fmt::Write>(&self, f: &mut fmt::Formatter<W>) -> fmt::Result {
        let Tile { x, y, z } = self.0;
        let mut room = [0; MAX_DIGITS];
        let digits = quadkey::xyz2quadkey(x, y, z, &mut room);
        let key = Answer(digits.map(|n| Digits(room.get(..n).unwrap_or(&[]))));
        write!(f, "{key}")
    }
}

impl Display for PlaceOf {
    fn fmt<W: fmt::Write>(&self, f: &mut fmt::Formatter<W>) -> fmt::Result {
        let place = Answer(ids::entry_tile(self.0).map(Place));
        write!(f, "{place}")
    }
}

impl Display for KeyOf {
    fn fmt<W: fmt::Write>(&self, f: &mut fmt::Formatter<W>) -> fmt::Result {
        let key = Answer(ids::entry_tile(self.0).map(Key));
        write!(f, "{key}")
    }
}

impl Display for Digits<'_> {
    fn fmt<W: fmt::Write>(&self, f: &mut fmt::Formatter<W>) -> fmt::Result {
        for digit in self.0 {
            f.write_char(char::from(*digit))?;
        }
        Ok(())
    }
}
