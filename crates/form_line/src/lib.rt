// What is printed for a form line: how many tiles its area has and their keys, or the refusal.
#![tactic(auto)]

ghost use Rattle.std.specs.Prelude.{◌≡◌, [], ◌∷◌, ◌+◌, ◌<◌, ◌≤◌, length};
ghost use Rattle.errors.specs.Answer.{number_of, written};
ghost use Rattle.errors.specs.Cases.{left};
ghost use Rattle.form_line.specs.Decimal.{decimal};
ghost use Rattle.form_line.specs.Few.{Fits, IsEntry};
ghost use Rattle.form_line.specs.Line.{key_shown, entry_shown, keys_text, list_text, refusal_text, line_written};
ghost use Rattle.form_line.specs.Stores.{Stored};
ghost use Rattle.quadkey.specs.Key.{key_of};
ghost use Rattle.tile.specs.OnMap.{OnMap};

use constants::FORM_PLACES;
use errors::Refusal;

// The line's answer, without a newline.
pub fn answer(line: &[u8], out: &mut [u8]) -> Result<usize, Refusal>
    ensures { left result out.new ≡ line_written line.now out.old }
{
    // As many places as a form may need: no heap is a rule of the project.
    let mut list = [0u64; FORM_PLACES];
    match form_area::area(line, &mut list) {
        Ok(n) => listed(&list[..n], out),
        Err(why) => refused(why, out),
    }
}

fn refused(why: Refusal, out: &mut [u8]) -> Result<usize, Refusal>
    ensures { left result out.new ≡ written 0 (refusal_text (number_of why)) out.old }
{
    let number = errors::number(why) as usize;
    let n = REFUSED.len() + number_length(number) + 1;
    if out.len() < n {
        return Err(Refusal::Memory);
    }
    let mut w = Writer { out, at: 0 };
    w.bytes(&REFUSED);
    w.number(number);
    w.byte(b')');
    Ok(n)
}

const REFUSED: [u8; 9] = *b"(refused ";

fn listed(list: &[u64], out: &mut [u8]) -> Result<usize, Refusal>
    requires { Fits list.now }
    ensures { left result out.new ≡ written 0 (list_text list.now) out.old }
{
    let n = 2 + number_length(list.len()) + keys_length(list);
    if out.len() < n {
        return Err(Refusal::Memory);
    }
    let mut w = Writer { out, at: 0 };
    w.byte(b'(');
    w.number(list.len());
    w.keys(list);
    w.byte(b')');
    Ok(n)
}

// How many bytes the keys take, each with a space before it.
fn keys_length(list: &[u64]) -> usize
    requires { Fits list.now }
    ensures { result ≡ length (keys_text list.now) }
{
    let mut n = 0;
    for &entry in list {
        n += 1 + key_length(entry);
    }
    n
}

fn key_length(entry: u64) -> usize
    requires { IsEntry entry }
    ensures { result ≡ length (entry_shown entry) }
{
    match ids::entry_tile(entry) {
        Ok(t) => {
            if t.z == 0 {
                return 1;
            }
            t.z as usize
        }
        Err(_) => 0,
    }
}

// It calls itself, as `decimal` of the promise does.
fn number_length(n: usize) -> usize
    requires { n < 1000 }
    ensures { result ≡ length (decimal n) }
{
    if n < 10 {
        return 1;
    }
    number_length(n / 10) + 1
}

fn digit(n: usize) -> u8
    requires { n < 10 }
    ensures { result ≡ 48 + n }
{
    b'0' + n as u8
}

// What is written stands in the memory from the front on, and the next byte goes to `at`.
#[derive(Drop)]
struct Writer<'a> {
    out: &'a mut [u8],
    at: usize,
}

impl Writer<'_> {
    fn byte(&mut self, b: u8)
        requires { self.old.at < length self.old.out.now }
        ensures same_reference { self.new.out.ghost_name ≡ self.old.out.ghost_name }
        ensures stored { Stored (b ∷ []) self.old.at self.new.at self.old.out.now self.new.out.now }
    {
        self.out[self.at] = b;
        self.at += 1;
    }

    fn bytes(&mut self, text: &[u8])
        requires { self.old.at + length text.now ≤ length self.old.out.now }
        ensures same_reference { self.new.out.ghost_name ≡ self.old.out.ghost_name }
        ensures stored { Stored text.now self.old.at self.new.at self.old.out.now self.new.out.now }
    {
        let end = self.at + text.len();
        self.out[self.at..end].copy_from_slice(text);
        self.at = end;
    }

    // It calls itself, as `decimal` of the promise does: the first digit is written first.
    fn number(&mut self, n: usize)
        requires { self.old.at + length (decimal n) ≤ length self.old.out.now }
        ensures same_reference { self.new.out.ghost_name ≡ self.old.out.ghost_name }
        ensures stored { Stored (decimal n) self.old.at self.new.at self.old.out.now self.new.out.now }
    {
        if n < 10 {
            self.byte(digit(n));
            return;
        }
        self.number(n / 10);
        self.byte(digit(n % 10));
    }

    // The keys, each with a space before it.
    fn keys(&mut self, list: &[u64])
        requires fits { Fits list.now }
        requires list_in_bounds { self.old.at + length (keys_text list.now) ≤ length self.old.out.now }
        ensures same_reference { self.new.out.ghost_name ≡ self.old.out.ghost_name }
        ensures stored { Stored (keys_text list.now) self.old.at self.new.at self.old.out.now self.new.out.now }
    {
        for &entry in list {
            self.byte(b' ');
            self.key(entry);
        }
    }

    fn key(&mut self, entry: u64)
        requires entry { IsEntry entry }
        requires in_bounds { self.old.at + length (entry_shown entry) ≤ length self.old.out.now }
        ensures same_reference { self.new.out.ghost_name ≡ self.old.out.ghost_name }
        ensures stored { Stored (entry_shown entry) self.old.at self.new.at self.old.out.now self.new.out.now }
    {
        if let Ok(t) = ids::entry_tile(entry) {
            self.tile(t.x, t.y, t.z);
        }
    }

    // `-` is the empty key.
    fn tile(&mut self, x: u32, y: u32, z: u8)
        requires on_map { OnMap x y z }
        requires z_in_bounds { self.old.at + length (key_shown (key_of x y z)) ≤ length self.old.out.now }
        ensures same_reference { self.new.out.ghost_name ≡ self.old.out.ghost_name }
        ensures stored { Stored (key_shown (key_of x y z)) self.old.at self.new.at self.old.out.now self.new.out.now }
    {
        if z == 0 {
            self.byte(b'-');
            return;
        }
        if let Ok(n) = quadkey::xyz2quadkey(x, y, z, &mut self.out[self.at..]) {
            self.at += n;
        }
    }
}
