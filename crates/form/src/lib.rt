// Form lines, by their bytes: which lines are forms, and where the parts of a form end.
#![tactic(auto)]

ghost use Rattle.std.specs.Prelude.{◌≡◌, ◌≤◌, drop, length};
ghost use Rattle.constants.specs.Limits.{max_open};
ghost use Rattle.errors.specs.Cases.{check_number};
ghost use Rattle.form.specs.Ends.{FormEnds, PairEnds, KeysEnds};
ghost use Rattle.form.specs.Form.{is_key_byte, too_deep, open_behind};
ghost use Rattle.form.specs.Reading.{line_refusal, whole_refusal};
ghost use Rattle.form.specs.Words.{pair_front, word_at, run_length_of, key_length};

use constants::{MAX_LINE, MAX_OPEN};
use errors::Refusal;

// The operations on two forms.
#[derive(Clone, Copy, Debug, PartialEq, Eq)]
pub enum Verb {
    Plus,
    Both,
    Minus,
}

// What the front of a form says that it is.
#[derive(Clone, Copy, Debug, PartialEq, Eq)]
pub enum Word {
    Tiles,
    Pair(Verb),
}

// How many bytes stand before the keys of `tiles`: the bracket and the word.
pub const TILES_FRONT: usize = 6;

// Whether the line is refused before any key is read.
pub fn check(line: &[u8]) -> Result<(), Refusal>
    ensures { check_number result ≡ line_refusal line.now }
{
    if line.len() > MAX_LINE {
        return Err(Refusal::LineLength);
    }
    if too_deep(line) {
        return Err(Refusal::Brackets);
    }
    whole(line)
}

// Whether one form takes all of the line.
fn whole(line: &[u8]) -> Result<(), Refusal>
    ensures { check_number result ≡ whole_refusal line.now }
{
    let n = form_end(line).ok_or(Refusal::NoForm)?;
    if n < line.len() {
        return Err(Refusal::NoForm);
    }
    Ok(())
}

// Whether more brackets are open at some byte than may be.
fn too_deep(line: &[u8]) -> bool
    ensures { result ≡ too_deep 0 line.now }
{
    let mut depth = 0;
    for &b in line {
        depth = open_behind(depth, b);
        if depth > MAX_OPEN {
            return true;
        }
    }
    false
}

fn open_behind(depth: usize, b: u8) -> usize
    requires { depth ≤ max_open }
    ensures { result ≡ open_behind depth b }
{
    match b {
        b'(' => depth + 1,
        b')' => depth.saturating_sub(1),
        _ => depth,
    }
}

// Where the form at the front of the bytes ends.
#[cycle(form_end_pair_end)]
pub fn form_end(bytes: &[u8]) -> Option<usize>
    ensures { FormEnds result bytes.now }
{
    match word_at(bytes)? {
        Word::Tiles => Some(TILES_FRONT + keys_end(&bytes[TILES_FRONT..])?),
        Word::Pair(verb) => {
            let n = pair_front(verb);
            Some(n + pair_end(&bytes[n..])?)
        }
    }
}

// How many bytes stand before the left form of a pair: the bracket, the word and a space.
pub fn pair_front(verb: Verb) -> usize
    ensures { result ≡ length (pair_front verb) }
{
    match verb {
        Verb::Plus | Verb::Both => 6,
        Verb::Minus => 7,
    }
}

// Where two forms with a space between them and a closing bracket behind them end.
#[cycle(form_end_pair_end)]
fn pair_end(bytes: &[u8]) -> Option<usize>
    ensures { PairEnds result bytes.now }
{
    let left = form_end(bytes)?;
    if *bytes.get(left)? != b' ' {
        return None;
    }
    let last = left + 1 + form_end(&bytes[left + 1..])?;
    if *bytes.get(last)? != b')' {
        return None;
    }
    Some(last + 1)
}

// Where keys, a space before each, and a closing bracket behind them end.
fn keys_end(bytes: &[u8]) -> Option<usize>
    ensures { KeysEnds result bytes.now }
{
    // A `while`: no index is counted, since a key's length decides the next place.
    let mut at = 0;
    while *bytes.get(at)? != b')' {
        at += key_length(bytes, at)?;
    }
    Some(at + 1)
}

// How many bytes from a place on are a space and a key, if they are.
pub fn key_length(bytes: &[u8], at: usize) -> Option<usize>
    ensures { result ≡ key_length (drop at bytes.now) }
{
    if *bytes.get(at)? != b' ' {
        return None;
    }
    let n = run_length(&bytes[at + 1..]);
    if n == 0 { None } else { Some(n + 1) }
}

fn run_length(bytes: &[u8]) -> usize
    ensures { result ≡ run_length_of bytes.now }
{
    bytes
        .iter()
        .position(|b| !is_key_byte(*b))
        .unwrap_or(bytes.len())
}

fn is_key_byte(b: u8) -> bool
    ensures { result ≡ is_key_byte b }
{
    // Of these four the compiler makes one test. Of `!matches!` it made three: for a long key 1.6 times the instructions, 3 times the time.
    b != b' ' && b != b'(' && b != b')' && b != b'\n'
}

// Which of the four words a form starts with.
pub fn word_at(bytes: &[u8]) -> Option<Word>
    ensures { result ≡ word_at bytes.now }
{
    if bytes.starts_with(b"(tiles") {
        return Some(Word::Tiles);
    }
    if bytes.starts_with(b"(plus ") {
        return Some(Word::Pair(Verb::Plus));
    }
    if bytes.starts_with(b"(both ") {
        return Some(Word::Pair(Verb::Both));
    }
    if bytes.starts_with(b"(minus ") {
        return Some(Word::Pair(Verb::Minus));
    }
    None
}
