// The fields of a lexicon image, section by section, in one pass over its bytes (rows 4 and 5 of document 01's refusal
// table).
ghost use Rattle.std.specs.Prelude.{◌≡◌, ◌+◌, ◌≤◌, length};
ghost use Rattle.voice.specs.Fields.{verdict, verdict_of};
ghost use Rattle.lexicon.specs.Lexicon.{node_count};
ghost use Rattle.lexicon.specs.Sections.{number_at, highest_of, arc_at, NodesFound, Listing, ListFound, ArcsFound, reserve_fields};

use call::inside;
use endian::u16_at;
use voice::Fault;

// The most nodes of a lexicon, and the most arcs.
const NODES: usize = 400;

const ARCS: usize = 4000;

// The u16 at an offset, from `low` to `high`.
fn number(lexicon: &[u8], at: usize, low: usize, high: usize) -> Result<usize, Fault>
    requires { at ≤ length lexicon.now }
    ensures { result ≡ number_at lexicon.now at low high }
{
    if lexicon.len() - at < 2 {
        return Err(Fault::WrongLength);
    }
    let n = u16_at(lexicon, at) as usize;
    if !inside(n, low, high) {
        return Err(Fault::OutOfRange);
    }
    Ok(n)
}

// Nodes: N, and a letter index for each node. Answers N.
pub(crate) fn nodes(lexicon: &[u8], letters: usize) -> Result<usize, Fault>
    ensures { NodesFound letters lexicon.now result }
{
    let n = number(lexicon, 0, 1, NODES)?;
    for node in 1..n + 1 {
        let at = 1 + node;
        if lexicon.len() <= at {
            return Err(Fault::WrongLength);
        }
        if letters <= (lexicon[at] as usize) {
            return Err(Fault::OutOfRange);
        }
    }
    Ok(n)
}

// The highest successor that a vertex may have: the root does not lead to the sink.
fn highest(vertex: usize, nodes: usize) -> usize
    requires { nodes ≤ 400 }
    ensures { result ≡ highest_of vertex nodes }
{
    if vertex == 0 { nodes } else { nodes + 1 }
}

// The successor that stands at an offset, if it may and this list has not named it yet.
fn arc(
    lexicon: &[u8],
    at: usize,
    vertex: usize,
    nodes: usize,
    seen: &[u16; 402],
) -> Result<usize, Fault>
    requires { (at ≤ length lexicon.now) × (vertex ≤ nodes) × (nodes ≤ 400) }
    ensures { result ≡ arc_at lexicon.now at vertex nodes seen.now }
{
    let s = number(lexicon, at, vertex + 1, highest(vertex, nodes))?;
    let mark = (vertex + 1) as u16;
    if seen[s] == mark {
        return Err(Fault::OutOfRange);
    }
    Ok(s)
}

// The list of a vertex, after lists that have `total` arcs. Answers its count. `seen` holds for each vertex one more
// than the last vertex whose list named it, and 0 where none has (an Option would take twice the stack), so that
// nothing is cleared between lists.
fn list(
    lexicon: &[u8],
    start: usize,
    vertex: usize,
    nodes: usize,
    total: usize,
    seen: &mut [u16; 402],
) -> Result<usize, Fault>
    requires { Listing lexicon.now start vertex nodes total seen.old }
    ensures { ListFound lexicon.now vertex total seen.new result }
{
    let count = number(lexicon, start, 1, (nodes + 1).min(ARCS - total))?;
    for i in 0..count {
        let s = arc(lexicon, start + 2 + 2 * i, vertex, nodes, seen)?;
        seen[s] = (vertex + 1) as u16;
    }
    Ok(count)
}

// Arcs: the lists of the vertices 0 to N. Answers where they end.
pub(crate) fn arcs(lexicon: &[u8], nodes: usize) -> Result<usize, Fault>
    requires { (nodes ≡ node_count lexicon.now) × (nodes ≤ 400) × (2 + nodes ≤ length lexicon.now) }
    ensures { ArcsFound lexicon.now result }
{
    let mut seen = [0u16; 402];
    let mut at = 2 + nodes;
    let mut total = 0;
    for vertex in 0..nodes + 1 {
        let count = list(lexicon, at, vertex, nodes, total, &mut seen)?;
        at += 2 + 2 * count;
        total += count;
    }
    Ok(at)
}

// Reserve, and the end of the bytes.
pub(crate) fn reserve(lexicon: &[u8], at: usize) -> Result<(), Fault>
    requires { at ≤ length lexicon.now }
    ensures { verdict_of result ≡ verdict (length lexicon.now) at (reserve_fields lexicon.now at) }
{
    number(lexicon, at, 0, 0)?;
    if lexicon.len() - at == 2 {
        Ok(())
    } else {
        Err(Fault::WrongLength)
    }
}
