// Print bytes and lists in the images.
ghost use Rattle.std.specs.Prelude.{◌≡◌, ◌≤◌, get_or};
ghost use Rattle.voice.specs.Voice.{print_byte};
ghost use Rattle.lexicon.specs.Lexicon.{node_count, node_letter, numbers_of, listed};
ghost use Rattle.checking.specs.Tables.{no_vertex, WellFormed};
ghost use Rattle.codes.specs.Steps.{Readable, Tabled};

use checking::Vertex;
use endian::u16_of;

// The print byte of a node's letter.
pub(crate) fn print_byte(voice: &[u8], lexicon: &[u8], node: usize) -> u8
    requires { Readable voice.now lexicon.now node }
    ensures { result ≡ print_byte voice.now (node_letter lexicon.now node) }
{
    let letter = lexicon[1 + node] as usize;
    voice[1 + 2 * letter]
}

// N, with which a lexicon begins: two bytes are there, so they are read without the tests of `u16_at`, which the walk
// would pay for at each arc.
pub(crate) fn node_count(lexicon: &[u8]) -> usize
    requires { WellFormed lexicon.now }
    ensures { result ≡ node_count lexicon.now }
{
    u16_of(lexicon[0], lexicon[1]) as usize
}

// The list of a vertex. The table says where it is, so it is read without the tests of `list_at`, which the walk would
// pay for at each vertex of each word. Lookup has the same: a shared function would be public, and test.
pub(crate) fn arcs_of<'a>(
    lexicon: &'a [u8],
    vertices: &[Vertex; 402],
    vertex: usize,
) -> &'a [[u8; 2]]
    requires { Tabled lexicon.now vertices.now × (vertex ≤ node_count lexicon.now) }
    ensures { numbers_of result.now ≡ listed lexicon.now (get_or vertices.now vertex no_vertex).arcs_at }
{
    let at = vertices[vertex].arcs_at as usize;
    let count = u16_of(lexicon[at], lexicon[at + 1]) as usize;
    let start = at + 2;
    let end = start + 2 * count;
    let (arcs, _) = lexicon[start..end].as_chunks::<2>();
    arcs
}
