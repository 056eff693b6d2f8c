//! A line of a file with a mark under a place of it, and the forms of what may stand in a promise file.

use crate::page::Page;
use crate::places::place_of;
use std::alloc::{AllocError, Global};

// How many bytes of a line are shown before a place at most, and in all.
const BEFORE: usize = 60;

const SHOWN: usize = 110;

/// The forms of the declarations of a promise file, and what one may look like.
pub const FORMS: &str = "\
    A promise file is made of these declarations; network and commit stand once, and // begins a comment:\n  \
    network N;                                the number of the AS\n  \
    commit N;                                 the commit delay in seconds\n  \
    neighbour NAME as N at A.B.C.D;           one for each neighbour\n  \
    group NAME = NEIGHBOUR, NEIGHBOUR;\n  \
    define NAME = A.B.C.D/L, A.B.C.D/L le N;  a set of prefixes\n  \
    promise NAME grace N { FORMULA }          the grace in seconds\n\
    Such as:\n  \
    network 64500;\n  \
    commit 60;\n  \
    neighbour transit as 64510 at 192.0.2.10;\n  \
    define own = 203.0.113.0/24 le 26;\n  \
    promise only_own grace 10 { sent(transit) implies prefix in own }\n";

// The part of a line that is shown, and how many of its bytes stand before the place.
fn window(line: &[u8], before: usize) -> (&[u8], usize) {
    let from = before.saturating_sub(BEFORE).min(line.len());
    let to = line.len().min(from.saturating_add(SHOWN));
    (&line[from..to], before - from)
}

/// Adds where an offset of a file stands: the file's name, the line and the column, the line itself, and a mark under
/// the place. An offset past the end is the end.
pub fn put_place(
    page: &mut Page,
    alloc: Global,
    name: &str,
    bytes: &[u8],
    offset: u64,
) -> Result<(), AllocError> {
    let at = offset.min(bytes.len() as u64) as usize;
    let place = place_of(bytes, at);
    page.shown(name.as_bytes())?;
    page.text(": line ")?;
    page.number(alloc, place.line)?;
    page.text(", column ")?;
    page.number(alloc, place.column)?;
    page.text("\n  ")?;
    let (line, before) = window(place.text, (place.column - 1) as usize);
    page.shown(line)?;
    page.text("\n  ")?;
    page.blanks(before as u64)?;
    page.text("^\n")
}
