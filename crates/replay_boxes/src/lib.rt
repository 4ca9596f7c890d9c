// The part of `replay_rust` for boxes and zooms: tile_zbox.rs, zoom.rs and bbox.rs. It is a crate of its own so that each is checked in
// less time.
#![tactic(auto)]

pub mod bbox_rs;
pub mod tile_zbox_rs;
pub mod zoom_rs;
