// What document 01 says of keys: the calls that it adds, a part of the caller's own key and beside it the number by which it is refused,
// and the limit of a key's digits.
use std::fmt::{self, Display};
use std::io;
use vectors_lines::shown::{Answer, Digits};
use vectors_lines::tally::Lines;

// One digit more than a key may have.
const LONG: &str = "3333333333333333333333333333333";

// The part that is handed back, `-` if it is empty. Behind a refusal stands the part that came with it, which is to be nothing.
#[derive(Clone, Copy)]
struct Part<'a> {
    refused: u8,
    bytes: &'a [u8],
}

impl Display for Part<'_> {
    fn fmt<W: fmt::Write>(&self, f: &mut fmt::Formatter<W>) -> fmt::Result {
        let digits = Digits(self.bytes);
        match (self.refused, self.bytes) {
            (0, []) => f.write_str("-"),
            (0, _) => write!(f, "{digits}"),
            (number, _) => write!(f, "refusal {number}{digits}"),
        }
    }
}

pub fn ancestors<R: Print + Alloc>(lines: &mut Lines<'_, R>) -> io::Result<()> {
    lines.source(
        "Document 01, Quadkey: an ancestor's key is the leading part of a key, longer is 3",
    )?;
    for (key, n, says) in [
        ("130", 0, "-"),
        ("130", 2, "13"),
        ("130", 3, "130"),
        ("130", 4, "refusal 3"),
        ("134", 2, "refusal 5"),
        (LONG, 31, "refusal 4"),
        (LONG, 32, "refusal 3"),
    ] {
        let part = Part {
            refused: key_parts::ancestor_key_refusal(key.as_bytes(), n),
            bytes: key_parts::ancestor_key(key.as_bytes(), n),
        };
        lines.told(format_args!("first {n} digits of {key}"), says, part)?;
    }
    Ok(())
}

pub fn shared<R: Print + Alloc>(lines: &mut Lines<'_, R>) -> io::Result<()> {
    lines.source("Document 01, Quadkey: of two keys, the key of their deepest shared ancestor")?;
    for (a, b, says) in [
        ("130", "133", "13"),
        ("13", "130", "13"),
        ("0", "3", "-"),
        ("130", "134", "refusal 5"),
        ("130", LONG, "refusal 4"),
        ("134", LONG, "refusal 4"),
    ] {
        let part = Part {
            refused: key_parts::shared_key_refusal(a.as_bytes(), b.as_bytes()),
            bytes: key_parts::shared_key(a.as_bytes(), b.as_bytes()),
        };
        lines.told(format_args!("what {a} and {b} share"), says, part)?;
    }
    Ok(())
}

pub fn digits<R: Print + Alloc>(lines: &mut Lines<'_, R>) -> io::Result<()> {
    lines.source("Document 02, K11: Document 01's plates with 29 and 30 digits become 30 and 31")?;
    let key = LONG.as_bytes();
    let read = Answer(key_reader::quadkey2xyz(&key[..30]).map(|_| "accepted"));
    lines.told("30 digits", "accepted", read)?;
    let read = Answer(key_reader::quadkey2xyz(key).map(|_| "accepted"));
    lines.told("31 digits", "refusal 4", read)
}
