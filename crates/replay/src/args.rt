// The arguments of a call, taken from its numbers: None where they do not fit their types.
use tile::Tile;

// How the list writes None.
const NONE: u64 = 256;

// The tile x y z, on the map or off it.
pub fn tile(x: u64, y: u64, z: u64) -> Option<Tile> {
    Some(Tile {
        x: u32::try_from(x).ok()?,
        y: u32::try_from(y).ok()?,
        z: u8::try_from(z).ok()?,
    })
}

// A byte, or None.
pub fn option(n: u64) -> Option<Option<u8>> {
    if n == NONE {
        return Some(None);
    }
    let byte = u8::try_from(n).ok()?;
    Some(Some(byte))
}

// The entries of one list, whose count stands before it.
pub fn one_list(numbers: &[u64]) -> Option<&[u64]> {
    let (count, list) = numbers.split_first()?;
    if *count != list.len() as u64 {
        return None;
    }
    Some(list)
}

// The numbers as bytes or words, in the front of `room`.
pub fn fitted<'a, T: TryFrom<u64> + Drop>(numbers: &[u64], room: &'a mut [T]) -> Option<&'a [T]>
where
    T::Error: Drop,
{
    let front = room.get_mut(..numbers.len())?;
    for (place, n) in front.iter_mut().zip(numbers) {
        *place = T::try_from(*n).ok()?;
    }
    Some(front)
}

// One list of bytes, in the front of `room`.
pub fn bytes<'a>(numbers: &[u64], room: &'a mut [u8]) -> Option<&'a [u8]> {
    fitted(one_list(numbers)?, room)
}
