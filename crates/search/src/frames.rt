// Frame by frame: the root's token enters at the first, and at each later one every node takes its turn, from the last
// to the first. A contract that begins with ((f : ..) → ..) speaks of what is known before the call by the record f.
ghost use Rattle.std.specs.Prelude.{◌-◌, ◌<◌, length, get_or};
ghost use Rattle.storing.specs.Gains.{GainsRoom, KnownSymbol};
ghost use Rattle.storing.specs.Stored.{VertexTable};
ghost use Rattle.search.specs.Running.{Empty, Run, StoredAt, CallNumbers, FrameTables, Frame};

use crate::gains::{frame_gains, put_emissions};
use crate::letters::{letter_table, link_table, symbols_at};
use crate::turns::{enter_nodes, take_turn};
use checking::Vertex;
use endian::u16_at;
use storing::{Letter, Moves};

// The numbers of a call: hits wanted, nodes, the offset of the section Symbols, and letters in use.
#[derive(Clone, Copy)]
pub(crate) struct Numbers {
    pub n: usize,
    pub nodes: usize,
    pub symbols: usize,
    pub used: usize,
}

// The tables of frame t: the gains, and the emissions that enter the nodes. They depend on its symbol alone, so they
// stay where it is that of the frame before: a sound lasts longer than a frame.
fn frame_tables(
    voice: &[u8],
    lexicon: &[u8],
    frames: &[u8],
    t: usize,
    numbers: Numbers,
    letters: &[Letter; 64],
    gains: &mut [Moves; 64],
    vertices: &mut [Vertex; 402],
)
    requires t_in_bounds { (t < length frames.now) × KnownSymbol voice.now (get_or frames.now t 0) }
    requires call_numbers { CallNumbers voice.now lexicon.now numbers letters.now }
    requires vertex_table { VertexTable voice.now lexicon.now numbers.n vertices.old × GainsRoom gains.old
        × (0 < t → FrameTables voice.now lexicon.now (get_or frames.now (t - 1) 0) numbers letters.now gains.old
        vertices.old) }
    ensures { FrameTables voice.now lexicon.now (get_or frames.now t 0) numbers
        letters.now gains.new vertices.new }
{
    let symbol = frames[t];
    if t > 0 {
        if symbol == frames[t - 1] {
            return;
        }
    }
    frame_gains(
        voice,
        numbers.symbols,
        symbol as usize,
        letters,
        numbers.used,
        gains,
    );
    put_emissions(lexicon, numbers.nodes, gains, vertices);
}

// One frame, whose tables are made: at the first the root's token enters an empty store, and at each later one every
// node takes its turn.
fn frame(
    voice: &[u8],
    lexicon: &[u8],
    t: usize,
    numbers: Numbers,
    vertices: &[Vertex; 402],
    gains: &[Moves; 64],
    links: &[u32; 64],
    store: &mut [u8],
)
    requires { Frame voice.now lexicon.now t numbers.n numbers.nodes vertices.now gains.now links.now
        store.old }
    ensures { (f : Frame voice.now lexicon.now t numbers.n numbers.nodes
        vertices.now gains.now links.now store.old)
        → StoredAt voice.now lexicon.now f.frames numbers.n t store.new }
{
    let n = numbers.n;
    if t == 0 {
        enter_nodes(lexicon, n, vertices, store);
        return;
    }
    for node in (1..=numbers.nodes).rev() {
        take_turn(voice, lexicon, n, vertices, gains, links, node, store);
    }
}

// All frames, of which there is at least one, after what is read once a call.
pub(crate) fn all_frames(
    voice: &[u8],
    lexicon: &[u8],
    frames: &[u8],
    n: usize,
    vertices: &mut [Vertex; 402],
    store: &mut [u8],
)
    requires run { Run voice.now lexicon.now frames.now n vertices.old store.old }
    requires empty { Empty store.old }
    ensures stored_at { StoredAt voice.now lexicon.now frames.now n
        (length frames.now - 1) store.new }
    ensures vertex_table { VertexTable voice.now lexicon.now n vertices.new }
{
    let mut letters = [Letter::BLANK; 64];
    let used = letter_table(voice, lexicon, &mut letters);
    let links = link_table(voice);
    let nodes = u16_at(lexicon, 0) as usize;
    let numbers = Numbers {
        n,
        nodes,
        symbols: symbols_at(voice),
        used,
    };
    let mut gains = [Moves::BLANK; 64];
    for t in 0..frames.len() {
        frame_tables(
            voice, lexicon, frames, t, numbers, &letters, &mut gains, vertices,
        );
        frame(voice, lexicon, t, numbers, vertices, &gains, &links, store);
    }
}
