// The plate of document 01 that is the limit of a list's entries.
use std::io;
use vectors_lines::shown::Answer;
use vectors_lines::tally::Lines;

// Lists of nothing but the root.
pub fn lists<R: Print + Alloc>(lines: &mut Lines<'_, R>) -> io::Result<()> {
    let tiles = [ids::entry(0, 0, 0); 65537];
    let mut list = [0; 65537];
    lines.source("Document 01, Plates")?;
    let most = merge::simplify(&tiles[..65536], None, &mut list);
    let settled = Answer(most.map(|_| "accepted"));
    lines.told("65536 entries", "accepted", settled)?;
    let more = merge::simplify(&tiles, None, &mut list);
    let settled = Answer(more.map(|_| "accepted"));
    lines.told("65537 entries", "refusal 6", settled)
}
