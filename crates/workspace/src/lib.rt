// Both work memories: where the graph and the vertices lie in them; edges read, vertices read and written there.
#![tactic(auto)]

pub mod edge_words;
pub mod round_start;
pub mod vertex_words;
mod words;

ghost use Rattle.workspace.specs.Layout.{mem, Room, Loaded, Ready};

use graph::Size;

// A graph in work memory, to be read.
#[derive(Clone, Copy)]
pub struct Graph<'a> {
    pub words: &'a [u32],
    pub size: Size,
    ghost loaded: { Loaded size words.now },
}

// The vertices in both work memories, to be read.
#[derive(Clone, Copy)]
pub struct Vertices<'a> {
    pub work: &'a [u32],
    pub wide: &'a [u64],
    pub size: Size,
    ghost room: { Room size (mem work.now wide.now) },
}

// The work memories lent to a call, which hold a graph and its vertices.
#[derive(Drop)]
pub struct Workspace<'a> {
    pub work: &'a mut [u32],
    pub wide: &'a mut [u64],
    pub size: Size,
    ghost ready: { Ready size (mem work.now wide.now) },
}
