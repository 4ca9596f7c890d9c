// What the exported calls on form lines do: each asks the library and hands the answer on in numbers.
#![tactic(auto)]

ghost use Rattle.std.specs.Prelude.{◌≡◌, [], take};
ghost use Rattle.c_give.specs.Exported.{answered_in};
ghost use Rattle.errors.specs.Answer.{written};
ghost use Rattle.form.specs.Reading.{line_refusal};
ghost use Rattle.form_area.specs.Area.{area_written};
ghost use Rattle.form_line.specs.Line.{line_written};
ghost use Rattle.form_stream.specs.Scan.{scan_at, feed_of};
ghost use Rattle.form_stream.specs.Stream.{said};

use form_stream::{Feeding, KEPT};

pub fn check(line: &[u8]) -> u8
    ensures { result ≡ line_refusal line.now }
{
    errors::check_number(form::check(line))
}

pub fn area(line: &[u8], out: &mut [u64], count: &mut u64) -> u8
    ensures { answered_in result count.new out.new ≡ area_written line.now out.old }
{
    let answer = form_area::area(line, out);
    c_give::count(answer, count)
}

pub fn answer(line: &[u8], out: &mut [u8], count: &mut u64) -> u8
    ensures { answered_in result count.new out.new ≡ line_written line.now out.old }
{
    let answer = form_line::answer(line, out);
    c_give::count(answer, count)
}

pub fn feed(
    chunk: &[u8],
    line: &mut [u8; KEPT],
    len: usize,
    out: &mut [u8],
    next: &mut u64,
    kept: &mut u64,
    filled: &mut u64,
) -> u8
    ensures { (result ≡ 0) × (scan_at next.new kept.new filled.new line.new out.new
        ≡ feed_of chunk.now 0 len line.old out.old) }
{
    let fed = form_stream::feed(chunk, Feeding { at: 0, len }, line, out);
    let feeding = fed.feeding;
    *next = feeding.at as u64;
    *kept = feeding.len as u64;
    *filled = fed.filled as u64;
    0
}

pub fn finish(line: &[u8; KEPT], len: usize, out: &mut [u8], count: &mut u64) -> u8
    ensures { answered_in result count.new out.new
        ≡ written 0 (said (take len line.now) []) out.old }
{
    let answer = form_stream::finish(line, len, out);
    c_give::count(answer, count)
}
