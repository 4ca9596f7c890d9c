// Refusal 6 of union, common part, difference and the test of a settled list: the longest lists that they take, and one entry more.
use errors::Refusal;
use replay::entries::BLANK;
use replay::{answers, entries};
use std::alloc::{AllocError, Global};
use std::io;
use tile::Tile;
use vectors_lines::shown::Answer;
use vectors_lines::tally::Lines;

// Places enough for two lists of 65,537 entries.
const ROOM: usize = 131074;

pub fn lists<R: Print + Alloc>(lines: &mut Lines<'_, R>, alloc: Global) -> io::Result<()> {
    lines.source(
        "Document 01, Refusals: 6 over 65,536 entries; a refusal leaves lent memory unchanged",
    )?;
    let more = settled_row(alloc)?;
    let most = more.get(..65536).unwrap_or(&[]);
    let mut out = [BLANK; ROOM];
    on_lists(lines, "union", area::union, &more, &mut out, most, 131072)?;
    on_lists(
        lines,
        "common part",
        area::common_part,
        &more,
        &mut out,
        most,
        131072,
    )?;
    on_lists(
        lines,
        "difference",
        area::difference,
        &more,
        &mut out,
        &[],
        0,
    )?;
    let settled = Answer(area::is_settled(most).map(yes_or_no));
    lines.told("are 65536 entries settled", "yes", settled)?;
    let settled = Answer(area::is_settled(&more).map(yes_or_no));
    lines.told("are 65537 entries settled", "refusal 6", settled)
}

// The entries of the top row of zoom 17, from the left on: a settled list, since of four siblings it has two at most.
fn settled_row(alloc: Global) -> Result<Vec<u64>, AllocError> {
    (0..65537)
        .map(|x| entries::of_tile(Tile { x, y: 0, z: 17 }))
        .collect(alloc)
}

// A list with itself, both as long as can be: these entries are left of it, then 0 up to n places. Then a list that is too long, as the
// first and as the second. Each call writes in the same memory, blank before: it is 1 MiB, and each instance of this function would have
// two of its own.
fn on_lists<R: Print + Alloc, F: Fn(&[u64], &[u64], &mut [u64]) -> Result<usize, Refusal>>(
    lines: &mut Lines<'_, R>,
    name: &str,
    work: F,
    more: &[u64],
    out: &mut [u64],
    left: &[u64],
    n: usize,
) -> io::Result<()>
    requires { F.IsAlwaysCallable work }
{
    let most = more.get(..65536).unwrap_or(&[]);
    out.fill(BLANK);
    let given = Answer(work(most, most, out));
    lines.told(
        format_args!("{name} of 65536 and 65536 entries"),
        format_args!("{} and memory as promised", left.len()),
        format_args!("{given} and {}", memory(out, left, n)),
    )?;
    for (a, b) in [(more, [].as_slice()), ([].as_slice(), more)] {
        out.fill(BLANK);
        let given = Answer(work(a, b, out));
        lines.told(
            format_args!("{name} of {} and {} entries", a.len(), b.len()),
            "refusal 6 and memory as promised",
            format_args!("{given} and {}", memory(out, &[], 0)),
        )?;
    }
    Ok(())
}

// Whether the lent memory, blank before, holds these entries, then 0 up to n places.
fn memory(out: &[u64], entries: &[u64], n: usize) -> &'static str {
    if answers::holds(out, entries, n) {
        "memory as promised"
    } else {
        "other memory"
    }
}

fn yes_or_no(yes: bool) -> &'static str {
    if yes { "yes" } else { "no" }
}
