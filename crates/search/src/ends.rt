// After the last frame: the tokens of the last states from which an arc leads to the sink are candidates for the list
// of hits.
ghost use Rattle.std.specs.Prelude.{◌≡◌, ◌≤◌};
ghost use Rattle.lexicon.specs.Lexicon.{node_count};
ghost use Rattle.graph.specs.Graph.{graph_of};
ghost use Rattle.decoder.specs.Decoding.{hits};
ghost use Rattle.storing.specs.Held.{held};
ghost use Rattle.search.specs.Running.{Arcs, last_arc, Ending, Ended, Run, Empty};

use crate::frames::all_frames;
use crate::store::{copy_place, offer};
use checking::Vertex;
use decoder::token::LIFT;
use endian::{number_of, u16_at};
use lexicon::list_at;

// The increment of the arc to the sink, if there is one: the path counts of the successors stored before it.
fn last_increment(lexicon: &[u8], vertices: &[Vertex; 402], node: usize) -> Option<u32>
    requires { Arcs lexicon.now vertices.now × (node ≤ node_count lexicon.now) }
    ensures { result ≡ last_arc (graph_of lexicon.now) node }
{
    let sink = u16_at(lexicon, 0) as usize + 1;
    let mut increment = 0;
    for &pair in list_at(lexicon, vertices[node].arcs_at as usize) {
        let next = number_of(pair) as usize;
        if next == sink {
            return Some(increment);
        }
        increment += vertices[next].paths;
    }
    None
}

// The tokens of a node's last state are candidates for the list, if an arc leads from it to the sink.
fn offer_end(
    lexicon: &[u8],
    n: usize,
    vertices: &[Vertex; 402],
    node: usize,
    store: &[u8],
    list: &mut [u8],
)
    requires { Ending lexicon.now n vertices.now node store.now list.old }
    ensures { (e : Ending lexicon.now n vertices.now node store.now
        list.old) → Ended e list.new }
{
    let Some(increment) = last_increment(lexicon, vertices, node) else {
        return;
    };
    // the place of its last state ends where the next vertex's begins
    let last = vertices[node + 1].first_slot as usize - n;
    // the move to the sink scores 0
    offer(list, n, store, last, LIFT, LIFT + increment as u64);
}

// The list of hits as tokens: all frames, and then each node's end.
pub(crate) fn best_words(
    voice: &[u8],
    lexicon: &[u8],
    frames: &[u8],
    n: usize,
    vertices: &mut [Vertex; 402],
    store: &mut [u8],
) -> [u64; 8]
    requires run { Run voice.now lexicon.now frames.now n vertices.old store.old }
    requires empty { Empty store.old }
    ensures { result ≡ held 8 (hits voice.now (graph_of lexicon.now) frames.now n) }
{
    // never so: it tells the compiler that n is at least 1, which takes a test out of each loop over a place
    if n == 0 {
        return [0; 8];
    }
    all_frames(voice, lexicon, frames, n, vertices, store);
    let mut list = [0u8; 64];
    let nodes = u16_at(lexicon, 0) as usize;
    for node in (1..=nodes).rev() {
        offer_end(lexicon, n, vertices, node, &store[..], &mut list[..]);
    }
    let mut best = [0; 8];
    copy_place(&list[..], n, &mut best);
    best
}
