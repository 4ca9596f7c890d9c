// The digits of the steps from a tile to an ancestor, by document 02's words on keys: a key is cut in two by hand, into what the ancestor's
// key is to be and the digits of the steps behind it.
use fns::Ancestor;
use std::fmt::{self, Display};
use std::io;
use vectors_lines::shown::{Answer, Digits, Key};
use vectors_lines::tally::Lines;

// The ancestor's key, and apart from it the digits. Of the root's key nothing is printed.
#[derive(Clone, Copy)]
struct Cut(Ancestor);

impl Display for Cut {
    fn fmt<W: fmt::Write>(&self, f: &mut fmt::Formatter<W>) -> fmt::Result {
        let Ancestor {
            tile,
            digits,
            count,
        } = &self.0;
        let key = Key(*tile);
        let taken = Digits(digits.get(..usize::from(*count)).unwrap_or(&[]));
        let space = if tile.z > 0 { " " } else { "" };
        write!(f, "{key}{space}{taken}")
    }
}

// The keys of the page "Bing Maps Tile System".
pub fn of_the_page<R: Print + Alloc>(lines: &mut Lines<'_, R>) -> io::Result<()> {
    lines.source(
        "Document 02, K9: the ancestor's key followed by the digits of the steps is the key of the tile asked about",
    )?;
    for (key, n, says) in [
        ("213", 0, "21 3"),
        ("213", 1, "2 13"),
        ("213", 2, "213"),
        ("213", 3, "refusal 3"),
        ("20", 0, "2 0"),
        ("130", 0, "13 0"),
        ("132", 1, "1 32"),
        ("133", 255, "refusal 3"),
    ] {
        above(lines, key, n, says)?;
    }
    Ok(())
}

// Keys of the deepest zoom, whose digits fill the room for them where the ancestor is the root.
pub fn of_the_longest<R: Print + Alloc>(lines: &mut Lines<'_, R>) -> io::Result<()> {
    let ends_so = "000000000000000000000000000213";
    for (n, says) in [
        (0, "00000000000000000000000000021 3"),
        (2, "000000000000000000000000000 213"),
        (28, "0 00000000000000000000000000213"),
        (29, ends_so),
        (30, "refusal 3"),
    ] {
        above(lines, ends_so, n, says)?;
    }
    let by_turns = "121212121212121212121212121212";
    above(lines, by_turns, 14, "121212121212121 212121212121212")?;
    above(lines, by_turns, 29, by_turns)
}

fn above<R: Print + Alloc>(
    lines: &mut Lines<'_, R>,
    key: &str,
    n: u8,
    says: &str,
) -> io::Result<()> {
    let up = key_reader::quadkey2xyz(key.as_bytes()).and_then(|at| fns::parent(
        at.x,
        at.y,
        at.z,
        Some(n),
    ));
    lines.told(
        format_args!("parent of {key} with n = {n}, and its steps"),
        says,
        Answer(up.map(Cut)),
    )
}
