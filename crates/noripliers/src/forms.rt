// Form lines, which the Rust does not have: what the program areas reads and prints. A form is (tiles K K ..), which settles
// the tiles of keys, - for the root's, or (plus F F), (both F F) or (minus F F) of two forms. A line is without its newline.
ghost use Rattle.std.specs.Prelude.{◌≡◌, [], take};
ghost use Rattle.c_give.specs.Exported.{answered_in};
ghost use Rattle.errors.specs.Answer.{written};
ghost use Rattle.form.specs.Reading.{line_refusal};
ghost use Rattle.form_area.specs.Area.{area_written};
ghost use Rattle.form_line.specs.Line.{line_written};
ghost use Rattle.form_stream.specs.Scan.{scan_at, feed_of};
ghost use Rattle.form_stream.specs.Stream.{said};

use form_stream::KEPT;

// Whether a line is refused before any key is read: nothing but the number comes back.
// Refused: 13, 14, 15.
#[unsafe(no_mangle)]
pub extern "C" fn nori_form_check(line: &[u8]) -> u8
    ensures { result ≡ line_refusal line.now }
{
    c_forms::check(line)
}

// The settled list of a line's form. Each list on the way has NORI_FORM_PLACES places, and out may have any number. Of 4, 5 and 12
// the first from the left is given.
// Refused: 13, 14, 15, 4, 5, 12.
#[unsafe(no_mangle)]
pub extern "C" fn nori_form_area(line: &[u8], out: &mut [u64], count: &mut u64) -> u8
    ensures { answered_in result count.new out.new ≡ area_written line.now out.old }
{
    c_forms::area(line, out, count)
}

// What is printed for a line, without a newline: the count and the keys of its area, as (2 3 01), or its refusal, as
// (refused 15).
// Refused: 12.
#[unsafe(no_mangle)]
pub extern "C" fn nori_form_answer(line: &[u8], out: &mut [u8], count: &mut u64) -> u8
    ensures { answered_in result count.new out.new ≡ line_written line.now out.old }
{
    c_forms::answer(line, out, count)
}

// Takes in a chunk of the input behind a line of which line holds len bytes, 0 at first, and writes the answers of the lines that
// end in it, each with its newline. next bytes of the chunk are taken in, line holds kept bytes of the line so far, and filled
// bytes are written. It stops before the first newline whose answer has no room, but takes in some of the chunk where out has
// 32 * NORI_FORM_PLACES places.
// Never refused.
#[unsafe(no_mangle)]
pub extern "C" fn nori_form_feed(
    chunk: &[u8],
    line: &mut [u8; KEPT],
    len: usize,
    out: &mut [u8],
    next: &mut u64,
    kept: &mut u64,
    filled: &mut u64,
) -> u8
    ensures { (result ≡ 0) × (scan_at next.new kept.new filled.new line.new out.new
        ≡ feed_of chunk.now 0 len line.old out.old) }
{
    c_forms::feed(chunk, line, len, out, next, kept, filled)
}

// The end of the input: the answer of a last line without newline, of which line holds len bytes. Where len is 0 there is none.
// Refused: 12.
#[unsafe(no_mangle)]
pub extern "C" fn nori_form_finish(
    line: &[u8; KEPT],
    len: usize,
    out: &mut [u8],
    count: &mut u64,
) -> u8
    ensures { answered_in result count.new out.new
        ≡ written 0 (said (take len line.now) []) out.old }
{
    c_forms::finish(line, len, out, count)
}
