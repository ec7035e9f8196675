// A word is sought from the root on, depth first: the arcs of a vertex are tried in stored order, so the first way that
// is found is the first in code order. Where none leads on, the pair of letter position and vertex is marked, so that
// it is not tried again.
ghost use Rattle.std.specs.Prelude.{◌≡◌, ℕ, ◌+◌, ◌≤◌, length, get_or, replicate};
ghost use Rattle.call.specs.Table.{answer_of};
ghost use Rattle.lexicon.specs.Lexicon.{node_count, numbers_of, listed};
ghost use Rattle.graph.specs.Graph.{graph_of};
ghost use Rattle.checking.specs.Tables.{no_vertex};
ghost use Rattle.lookup.specs.Seeking.{code_after, sought_answer, prints_column};
ghost use Rattle.lookup.specs.Seeking.{wanted_at, Seekable};
ghost use Rattle.lookup.specs.Marks.{Chained};
ghost use Rattle.lookup.specs.Trying.{Trying, Tried, LedOn, Seeking};

use crate::image::END;
use crate::marks::{NONE, ROW, clear_marks, set_mark};
use call::Refusal;
use checking::{LETTERS, Vertex};
use endian::{number_of, u16_at, u16_of};

// An arc that fits: its index in the vertex's list, and the vertex that it leads to.
#[derive(Clone, Copy)]
struct Arc {
    pub index: usize,
    pub next: usize,
}

// How a vertex's list goes on: the first arc that fits, if there is one, behind the path counts of those that are
// passed.
#[derive(Drop)]
struct Ahead {
    pub passed: u32,
    pub arc: Option<Arc>,
}

// The list of a vertex. The table says where it is, so it is read without the tests of `list_at`, which every turn
// would pay for.
fn arcs_of<'a>(lexicon: &'a [u8], vertices: &[Vertex; 402], vertex: usize) -> &'a [[u8; 2]]
    requires { Seekable lexicon.now vertices.now × (vertex ≤ node_count lexicon.now) }
    ensures { numbers_of result.now ≡ listed lexicon.now (get_or vertices.now vertex no_vertex).arcs_at }
{
    let at = vertices[vertex].arcs_at as usize;
    let count = u16_of(lexicon[at], lexicon[at + 1]) as usize;
    let start = at + 2;
    let end = start + 2 * count;
    let (arcs, _) = lexicon[start..end].as_chunks::<2>();
    arcs
}

// From an arc of the vertex's list on, the first that fits.
fn next_arc(
    lexicon: &[u8],
    vertices: &[Vertex; 402],
    word: &[u8],
    i: usize,
    vertex: usize,
    first: usize,
) -> Ahead
    requires { Trying lexicon.now vertices.now word.now i vertex first }
    ensures by_index { (c : ℕ) → Tried lexicon.now (prints_column vertices.now)
        word.now i vertex first c → LedOn lexicon.now (prints_column vertices.now)
        word.now i vertex first result.arc (c + result.passed) }
    ensures few { result.passed ≤ 1048576 }
{
    let wanted = wanted_at(word, i);
    let arcs = arcs_of(lexicon, vertices, vertex);
    let mut passed = 0;
    for index in first..arcs.len() {
        let next = number_of(arcs[index]) as usize;
        let known = &vertices[next];
        // what it prints
        if known.first_slot == wanted {
            return Ahead {
                passed,
                arc: Some(Arc { index, next }),
            };
        }
        passed += known.paths;
    }
    Ahead { passed, arc: None }
}

// What a search found: the code of the word, if it has one, and the pair that it marked last.
#[derive(Drop)]
struct Sought {
    pub code: Option<u32>,
    pub last: usize,
}

// The code counts on while the search goes down and up again: behind a vertex that leads nowhere all its paths are
// counted. For each letter the path has the vertex that the search came through, and the arc that it took.
fn seek(lexicon: &[u8], vertices: &[Vertex; 402], word: &[u8], marks: &mut [u8]) -> Sought
    requires { Seeking lexicon.now vertices.now word.now marks.old }
    ensures code_value { result.code ≡ code_after (prints_column vertices.now) (graph_of lexicon.now) 0 word.now }
    ensures marks_len { (length marks.new ≡ 26534) × Chained marks.new result.last }
{
    let mut path = [(0, 0); 33];
    let mut i = 0;
    let mut vertex = 0;
    let mut first = 0;
    let mut code = 0;
    let mut last = NONE;
    // a turn goes down, or on, or marks a pair and goes up: how many there are is not known before
    loop {
        let ahead = next_arc(lexicon, vertices, word, i, vertex, first);
        code += ahead.passed;
        let Some(arc) = ahead.arc else {
            let pair = 1 + ROW * i + vertex;
            set_mark(marks, pair, last);
            last = pair;
            if i == 0 {
                return Sought { code: None, last };
            }
            i -= 1;
            let (before, index) = path[i];
            vertex = before;
            first = index + 1;
            continue;
        };
        if i == word.len() {
            return Sought {
                code: Some(code),
                last,
            };
        }
        if u16_at(marks, 2 * (1 + ROW * (i + 1) + arc.next)) != 0 {
            code += vertices[arc.next].paths;
            first = arc.index + 1;
        } else {
            path[i] = (vertex, arc.index);
            i += 1;
            vertex = arc.next;
            first = 0;
        }
    }
}

// What the next vertex has to print.
fn wanted_at(word: &[u8], i: usize) -> u32
    ensures { result ≡ wanted_at word.now i }
{
    match word.get(i) {
        Some(byte) => *byte as u32,
        None => END,
    }
}

// The code of a word, or 13.
pub(crate) fn look_up(
    lexicon: &[u8],
    vertices: &[Vertex; 402],
    word: &[u8],
    marks: &mut [u8],
) -> Result<u32, Refusal>
    requires { Seekable lexicon.now vertices.now × (marks.old ≡ replicate 26534 0) }
    ensures result_value { answer_of result ≡ sought_answer (prints_column vertices.now) (graph_of lexicon.now)
        word.now }
    ensures marks_after { marks.new ≡ replicate 26534 0 }
{
    if (LETTERS as usize) < word.len() {
        return Err(Refusal::NoWord);
    }
    let found = seek(lexicon, vertices, word, marks);
    clear_marks(marks, found.last);
    found.code.ok_or(Refusal::NoWord)
}
