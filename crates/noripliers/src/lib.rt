// Noripliers for C and Rust: the integer arithmetic of map tiles, quadkeys and tile areas. Each function is proved to be the
// library's call, for every input. The names are those of the Rust crate utiles-core, which is called the Rust below.
//
// A call returns 0 where it is accepted, and otherwise the number of its refusal: of several that apply, the one that its comment
// names first. Each value comes back through a pointer. Where the call is refused it is 0, and lent memory is as it was before, as
// is a reader of keys, which nori_key_feed changes in its place.
//
// So look at every result. 0 is a value like others: for a tile, an entry and a key's length it is the root, and a list with a
// refusal that went unseen covers the whole map. Each call is marked NORI_NODISCARD: a compiler of C23, of C++17, gcc and clang
// warn of a result that is not used.
//
// A list is a pointer and a count of entries, lent memory a pointer and a count of places; a key, a line and a chunk are bytes and
// a length. An answer goes to the front of the lent memory, which needs a place for each of its entries, and its count of entries
// comes back; the places behind it stay as they were. Where a call needs or sets more, its comment says so. A list of tiles holds
// the numbers of nori_entry. Yes is 1 and no is 0.
//
// No pointer may be null, also that of an empty list. What a call writes may overlap nothing else that it is handed. Nothing is
// kept between calls and nothing is allocated: any thread may call. A call on lists of more than 4,096 entries
// needs up to 1.6 MB of stack, any other at most 256 KB.
#![tactic(auto)]

// The comment above and those on the functions are the texts of the header, which tools/bindings writes. A module NAME_rs has the
// calls of the Rust's NAME.rs.
// The header's order: version tile_rs quadkey_rs fns_rs parent_rs sibling_relationship_rs tile_zbox_rs zoom_rs bbox_rs merge_rs areas forms
pub mod areas;
pub mod bbox_rs;
pub mod fns_rs;
pub mod forms;
pub mod merge_rs;
pub mod parent_rs;
pub mod quadkey_rs;
pub mod sibling_relationship_rs;
pub mod tile_rs;
pub mod tile_zbox_rs;
pub mod version;
pub mod zoom_rs;
