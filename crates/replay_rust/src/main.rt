// Replays the Rust's answers, with a module for each of its files, here or in `replay_boxes`. Prints the name of each module and how many
// calls of it the list has, and each line whose answer, or the memory that the call left, is not what the list says.
#![tactic(auto)]

mod fns_rs;
mod merge_rs;
mod parent_rs;
mod quadkey_rs;
mod sibling_relationship_rs;
mod tile_rs;

use replay::calls;
use replay::calls::{Played, Player};
use replay::parse::Call;
use replay_boxes::{bbox_rs, tile_zbox_rs, zoom_rs};
use std::io;

// The Rust's files.
#[derive(Clone, Copy, Debug, PartialEq, Eq)]
enum Module {
    SiblingRelationship,
    Tile,
    Quadkey,
    Fns,
    Parent,
    TileZBox,
    Zoom,
    BBox,
    Merge,
}

// The module that the calls are of: none before the first name, or behind a name of no module.
#[derive(Drop)]
struct Replay {
    module: Option<Module>,
}

fn main(rt: HostRuntime) -> io::Result<()> {
    calls::replay(&rt, &mut Replay { module: None })
}

impl Player for Replay {
    fn play(&mut self, call: Call<'_>) -> io::Result<Played> {
        if call.given.is_empty() && call.want.is_empty() {
            self.module = Module::of(call.name);
            return Ok(Played::Begins);
        }
        let same = match self.module {
            Some(module) => module.replayed(call),
            None => None,
        };
        Ok(Played::from(same == Some(true)))
    }
}

impl Module {
    fn of(name: &[u8]) -> Option<Module> {
        match name {
            b"sibling_relationship" => Some(Module::SiblingRelationship),
            b"tile" => Some(Module::Tile),
            b"quadkey" => Some(Module::Quadkey),
            b"fns" => Some(Module::Fns),
            b"parent" => Some(Module::Parent),
            b"tile_zbox" => Some(Module::TileZBox),
            b"zoom" => Some(Module::Zoom),
            b"bbox" => Some(Module::BBox),
            b"merge" => Some(Module::Merge),
            _ => None,
        }
    }

    // Whether the call answers what the list says; None where the module has no such call.
    fn replayed(self, call: Call<'_>) -> Option<bool> {
        match self {
            Module::SiblingRelationship => sibling_relationship_rs::replayed(call),
            Module::Tile => tile_rs::replayed(call),
            Module::Quadkey => quadkey_rs::replayed(call),
            Module::Fns => fns_rs::replayed(call),
            Module::Parent => parent_rs::replayed(call),
            Module::TileZBox => tile_zbox_rs::replayed(call),
            Module::Zoom => zoom_rs::replayed(call),
            Module::BBox => bbox_rs::replayed(call),
            Module::Merge => merge_rs::replayed(call),
        }
    }
}
