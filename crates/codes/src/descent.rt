// Code to word: from the root along the arcs to which the code leads (document 000, pseudo-code 5).
ghost use Rattle.std.specs.Prelude.{◌≡◌, ◌≤◌, ◌<◌, length, take};
ghost use Rattle.call.specs.Table.{answer_of};
ghost use Rattle.call.specs.Buffers.{written};
ghost use Rattle.lexicon.specs.Lexicon.{node_count};
ghost use Rattle.graph.specs.Graph.{graph_of, path_count, word_count};
ghost use Rattle.graph.specs.Words.{spelled};
ghost use Rattle.codes.specs.Steps.{Tabled, Stepped, letters_of_code, Spellable, Spelled, Printable, room_answer};

use crate::image::arcs_of;
use call::Refusal;
use checking::Vertex;
use endian::{number_of, u16_at};

// The vertex that an arc leads to, and what is left of a code behind the arc.
#[derive(Drop)]
struct Step {
    pub vertex: usize,
    pub code: u32,
}

// The arc along which the code leads, and what of the code is left behind it: the path counts of the successors before
// it are taken off.
fn descend(lexicon: &[u8], vertices: &[Vertex; 402], vertex: usize, code: u32) -> Step
    requires tabled { Tabled lexicon.now vertices.now }
    requires vertex_bound { (vertex ≤ node_count lexicon.now) × (code < path_count (graph_of lexicon.now) vertex) }
    ensures { Stepped (graph_of lexicon.now) vertex code result.vertex result.code }
{
    let mut left = code;
    for &pair in arcs_of(lexicon, vertices, vertex) {
        let next = number_of(pair) as usize;
        let count = vertices[next].paths;
        if left < count {
            return Step {
                vertex: next,
                code: left,
            };
        }
        left -= count;
    }
    // the code is below the path counts of all of them together
    unreachable!()
}

// Writes the letters of the word of a code below W, as indexes, and answers their number.
pub(crate) fn spell(
    lexicon: &[u8],
    vertices: &[Vertex; 402],
    code: u32,
    letters: &mut [u8; 32],
) -> usize
    requires spellable { Spellable lexicon.now vertices.now }
    requires code_bound { (code < word_count (graph_of lexicon.now)) × (length letters.old ≡ 32) }
    ensures { Spelled (letters_of_code (graph_of lexicon.now) code) letters.old
        letters.new result }
{
    let sink = u16_at(lexicon, 0) as usize + 1;
    let mut step = descend(lexicon, vertices, 0, code);
    let mut length = 0;
    // the walk ends at the sink, after as many letters as the word has: a `for` would have to count to a limit
    while step.vertex < sink {
        letters[length] = lexicon[1 + step.vertex];
        length += 1;
        step = descend(lexicon, vertices, step.vertex, step.code);
    }
    length
}

// Writes the first n letters at the output's start, as print bytes, or answers 16 where they have no room.
pub(crate) fn put_word(
    voice: &[u8],
    out: &mut [u8],
    letters: &[u8; 32],
    n: usize,
) -> Result<u32, Refusal>
    requires { (n ≤ 32) × (length letters.now ≡ 32) × Printable voice.now (take n letters.now) }
    ensures result_value { answer_of result ≡ room_answer (spelled voice.now (take n letters.now))
        out.old }
    ensures out_after { out.new ≡ written (answer_of result)
        (spelled voice.now (take n letters.now)) out.old }
{
    if out.len() < n {
        return Err(Refusal::Output);
    }
    for i in 0..n {
        out[i] = voice[1 + 2 * letters[i] as usize];
    }
    Ok(n as u32)
}
