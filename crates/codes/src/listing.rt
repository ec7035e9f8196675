// Listing: a walk through the graph, depth first. A vertex goes through its arcs, and each arc enters the vertex that
// it leads to.
ghost use Rattle.std.specs.Prelude.{◌≡◌, [], ◌∷◌, ◌++◌, suc, ◌+◌, ◌≤◌, ◌<◌, length, take};
ghost use Rattle.call.specs.Table.{answer_of};
ghost use Rattle.lexicon.specs.Lexicon.{node_count, successors};
ghost use Rattle.graph.specs.Graph.{graph_of};
ghost use Rattle.codes.specs.Lookup.{listing};
ghost use Rattle.codes.specs.Steps.{OpenedImages};
ghost use Rattle.codes.specs.Lines.{lines_from, lines_over, WalksFrom, Enters, RoomForLines, Wrote, arcs_on_ways};
ghost use Rattle.codes.specs.Lines.{Countable, CountedFrom, BytesAnswered};

use crate::image::{arcs_of, node_count, print_byte};
use call::Refusal;
use checking::Vertex;
use endian::{number_of, u16_at};

// Writes the first letters of the word and byte 10 from an offset on, and answers where they end.
fn put_line(word: &[u8; 32], letters: usize, out: &mut [u8], at: usize) -> usize
    requires { (letters ≤ 32) × (length word.now ≡ 32) × (at + letters < length out.old) }
    ensures { Wrote (take letters word.now ++ (10 ∷ [])) letters at word.now word.now out.old out.new result }
{
    // by letters: the library's copy of a length that varies calls memmove, which the header does not ask of C
    for i in 0..letters {
        out[at + i] = word[i];
    }
    out[at + letters] = 10;
    at + letters + 1
}

// Goes through the arcs of a vertex, the root or a node; the letters up to it are in the word. A loop, so that the walk
// takes stack only for the vertices of one path.
#[cycle(arc_step_vertex_step)]
fn vertex_step(
    voice: &[u8],
    lexicon: &[u8],
    vertices: &[Vertex; 402],
    vertex: usize,
    word: &mut [u8; 32],
    depth: usize,
    out: &mut [u8],
    at: usize,
) -> usize
    requires walks_from { WalksFrom voice.now lexicon.now vertices.now vertex depth }
    requires room_for_lines { RoomForLines (lines_over voice.now (graph_of lexicon.now) (successors lexicon.now vertex)
        (take depth word.old)) word.old out.old at }
    ensures { Wrote (lines_over voice.now (graph_of lexicon.now) (successors lexicon.now vertex)
        (take depth word.old)) depth at word.old word.new out.old out.new result }
{
    let mut end = at;
    for &pair in arcs_of(lexicon, vertices, vertex) {
        let next = number_of(pair) as usize;
        end = arc_step(voice, lexicon, vertices, next, word, depth, out, end);
    }
    end
}

// Enters the vertex that an arc leads to: at the sink the line is written; a node adds its letter, and the walk goes
// through its arcs.
#[cycle(arc_step_vertex_step)]
fn arc_step(
    voice: &[u8],
    lexicon: &[u8],
    vertices: &[Vertex; 402],
    vertex: usize,
    word: &mut [u8; 32],
    depth: usize,
    out: &mut [u8],
    at: usize,
) -> usize
    requires enters { Enters voice.now lexicon.now vertices.now vertex depth }
    requires room_for_lines { RoomForLines (lines_from voice.now (graph_of lexicon.now) vertex (take depth word.old))
        word.old out.old at }
    ensures { Wrote (lines_from voice.now (graph_of lexicon.now) vertex (take depth word.old)) depth at word.old
        word.new out.old out.new result }
{
    if node_count(lexicon) < vertex {
        return put_line(word, depth, out, at);
    }
    word[depth] = print_byte(voice, lexicon, vertex);
    vertex_step(voice, lexicon, vertices, vertex, word, depth + 1, out, at)
}

// The arcs on all ways from a vertex: each way has its first arc, and the arcs of a way from the vertex that it leads
// to.
fn arcs_on_ways(lexicon: &[u8], vertices: &[Vertex; 402], totals: &[u32; 402], vertex: usize) -> u32
    requires countable { Countable lexicon.now vertices.now }
    requires vertex_bound { (vertex ≤ node_count lexicon.now) × CountedFrom lexicon.now totals.now (suc vertex) }
    ensures { result ≡ arcs_on_ways (graph_of lexicon.now) vertex }
{
    let mut total = vertices[vertex].paths;
    for &pair in arcs_of(lexicon, vertices, vertex) {
        total += totals[number_of(pair) as usize];
    }
    total
}

// The bytes of the listing, which are known before one of them is written.
fn listing_size(lexicon: &[u8], vertices: &[Vertex; 402]) -> u32
    requires { Countable lexicon.now vertices.now }
    ensures { result ≡ arcs_on_ways (graph_of lexicon.now) 0 }
{
    let mut totals = [0u32; 402];
    let sink = u16_at(lexicon, 0) as usize + 1;
    for vertex in (0..sink).rev() {
        totals[vertex] = arcs_on_ways(lexicon, vertices, &totals, vertex);
    }
    totals[0]
}

// Row 16, and then the lines.
pub(crate) fn put_listing(
    voice: &[u8],
    lexicon: &[u8],
    vertices: &[Vertex; 402],
    out: &mut [u8],
) -> Result<u32, Refusal>
    requires { OpenedImages voice.now lexicon.now vertices.now }
    ensures { BytesAnswered (listing voice.now (graph_of lexicon.now)) (answer_of result)
        out.old out.new }
{
    let size = listing_size(lexicon, vertices);
    if out.len() < size as usize {
        return Err(Refusal::Output);
    }
    let mut word = [0u8; 32];
    vertex_step(voice, lexicon, vertices, 0, &mut word, 0, out, 0);
    Ok(size)
}
