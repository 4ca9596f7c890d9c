// Standard input as lines: bytes are taken in as they come, and the answers of the lines come out.
#![tactic(auto)]

ghost use Rattle.std.specs.Prelude.{◌≡◌, [], suc, ◌≤◌, min, length, take, drop, set};
ghost use Rattle.constants.specs.Limits.{max_line};
ghost use Rattle.errors.specs.Answer.{written};
ghost use Rattle.errors.specs.Cases.{left};
ghost use Rattle.form_stream.specs.Scan.{scan_at, scan, feed_of, scan_of};
ghost use Rattle.form_stream.specs.Steps.{Takes, LineEnds};
ghost use Rattle.form_stream.specs.Stream.{said, reply as Stream·reply};

use constants::MAX_LINE;
use errors::Refusal;

// How many bytes of a line are kept: one more than a line may have.
pub const KEPT: usize = MAX_LINE + 1;

// How far the input is taken in: so many bytes of the chunk, and so many of the line so far are kept. The line and its length are lent apart,
// as `nori_form_feed` of the C interface lends them.
#[derive(Clone, Copy, Debug, PartialEq, Eq)]
pub struct Feeding {
    pub at: usize,
    pub len: usize,
}

// How far the input is taken in after a call, and how many bytes it wrote.
// Beside `Feeding`, since that alone goes into the next call; both go out through the C interface by number.
#[derive(Clone, Copy, Debug, PartialEq, Eq)]
pub struct Fed {
    pub feeding: Feeding,
    pub filled: usize,
}

// A chunk of the input, from where it is taken in to, behind the line so far: what is to be printed goes to `out`, as far as there is
// room for it. Until the chunk is used up, `feeding` is what the call before handed back.
pub fn feed(chunk: &[u8], feeding: Feeding, line: &mut [u8; KEPT], out: &mut [u8]) -> Fed
    ensures { scan_of result line.new out.new
        ≡ feed_of chunk.now feeding.at feeding.len line.old out.old }
{
    feed_lines(chunk, feeding.at, line, feeding.len.min(KEPT), out)
}

// Before the next chunk: nothing of it is taken in, and the line so far goes on.
pub fn next_chunk(feeding: Feeding) -> Feeding
    ensures { (result.at ≡ 0) × (result.len ≡ feeding.len) }
{
    Feeding {
        at: 0,
        len: feeding.len,
    }
}

// The end of the input behind a line so far.
pub fn finish(line: &[u8; KEPT], len: usize, out: &mut [u8]) -> Result<usize, Refusal>
    ensures { left result out.new ≡ written 0 (said (take len line.now) []) out.old }
{
    if len == 0 {
        return Ok(0);
    }
    reply(&line[..len.min(KEPT)], out)
}

fn feed_lines(chunk: &[u8], from: usize, line: &mut [u8], len: usize, out: &mut [u8]) -> Fed
    requires { (length line.old ≡ suc max_line) × (len ≤ length line.old) }
    ensures { scan_of result line.new out.new
        ≡ scan (drop from chunk.now) (scan_at from len 0 line.old out.old) }
{
    // The place is kept by hand: it goes from line to line, and the next call takes it up where `out` was too short.
    let mut held = len;
    let mut filled = 0;
    let mut i = from;
    while i < chunk.len() {
        let taken = take_line(chunk, i, line, held);
        let at = taken.at;
        let n = taken.len;
        if at == chunk.len() {
            return Fed {
                feeding: taken,
                filled,
            };
        }
        match reply(&line[..n], &mut out[filled..]) {
            Ok(m) => {
                filled += m;
                held = 0;
                i = at + 1;
            }
            Err(_) => {
                return Fed {
                    feeding: taken,
                    filled,
                };
            }
        }
    }
    Fed {
        feeding: Feeding { at: i, len: held },
        filled,
    }
}

// The bytes of a chunk up to the end of a line, or of the chunk. The loop counts the place, since the place is the answer.
fn take_line(chunk: &[u8], from: usize, line: &mut [u8], len: usize) -> Feeding
    requires from_in_bounds { from ≤ length chunk.now }
    requires line_len { (length line.old ≡ suc max_line) × (len ≤ length line.old) }
    ensures { Takes chunk.now from line.old len line.new result
        × LineEnds chunk.now result.at }
{
    let mut i = from;
    let mut n = len;
    while i < chunk.len() {
        let b = chunk[i];
        if b == b'\n' {
            return Feeding { at: i, len: n };
        }
        n = keep(b, line, n);
        i += 1;
    }
    Feeding { at: i, len: n }
}

// A byte goes to the line, if the line is not too long already.
fn keep(b: u8, line: &mut [u8], len: usize) -> usize
    requires { (length line.old ≡ suc max_line) × (len ≤ length line.old) }
    ensures { (result ≡ min (suc len) (suc max_line)) × (line.new ≡ set line.old len b) }
{
    if len < line.len() {
        line[len] = b;
        return len + 1;
    }
    len
}

// The answer of a line, on a line of its own. The answer is lent one place less, so that its newline has one.
fn reply(line: &[u8], out: &mut [u8]) -> Result<usize, Refusal>
    ensures { left result out.new ≡ written 0 (Stream·reply line.now) out.old }
{
    let room = out.len();
    if room == 0 {
        return Err(Refusal::Memory);
    }
    match form_line::answer(line, &mut out[..room - 1]) {
        Ok(n) => {
            out[n] = b'\n';
            Ok(n + 1)
        }
        Err(_) => Err(Refusal::Memory),
    }
}
