// The limits of the papers. Each stands here once for the code, and once in specs/ for the promises.
#![tactic(auto)]

// The deepest zoom.
pub const MAX_ZOOM: u8 = 30;

// The room for the longest key: a digit for each zoom.
pub const MAX_DIGITS: usize = MAX_ZOOM as usize;

// The deepest zoom of the numbers of `to_id`: those of deeper ones would not fit 64 bits.
pub const MAX_ID_ZOOM: u8 = 29;

// The most entries of a list, of tiles or of zooms.
pub const MAX_ENTRIES: usize = 65536;

// The most boxes that are summed.
pub const MAX_BOXES: usize = 8;

// The most bytes of a line, without its newline.
pub const MAX_LINE: usize = 4096;

// The most brackets that may be open in a line.
pub const MAX_OPEN: usize = 16;

// The places of each list of a form.
pub const FORM_PLACES: usize = 256;
