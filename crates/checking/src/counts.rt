// Refusal 9: the path count of every vertex; W is the root's.
ghost use Rattle.std.specs.Prelude.{◌≡◌, suc, ◌+◌, min, ◌≤◌, replicate};
ghost use Rattle.call.specs.Limits.{most_words};
ghost use Rattle.lexicon.specs.Lexicon.{sink_of};
ghost use Rattle.graph.specs.Graph.{graph_of};
ghost use Rattle.checking.specs.Tables.{TableOf, capped_count};
ghost use Rattle.checking.specs.Filling.{AtVertex};

use crate::offsets::Lists;
use endian::number_of;

// One more than the most words of a lexicon: a count stops here, so that nothing wraps.
const CAP: u32 = 1048577;

fn capped_sum(a: u32, b: u32) -> u32
    ensures { result ≡ min (a + b) (suc most_words) }
{
    a.saturating_add(b).min(CAP)
}

// The path count of a vertex: the sum over its successors.
fn path_count(lists: Lists, counts: &[u32; 402], vertex: usize) -> u32
    requires { AtVertex (capped_count (graph_of lists.lexicon.now)) lists.lexicon.now counts.now vertex }
    ensures { result ≡ capped_count (graph_of lists.entry.lexicon.now) vertex }
{
    let mut sum = 0;
    for &pair in lists.successors(vertex) {
        sum = capped_sum(sum, counts[number_of(pair) as usize]);
    }
    sum
}

// From the sink down, since arcs lead to greater vertices.
pub(crate) fn count_paths(lists: Lists, counts: &mut [u32; 402])
    requires { counts.old ≡ replicate 402 0 }
    ensures { TableOf (suc (sink_of lists.entry.lexicon.now)) (capped_count (graph_of lists.entry.lexicon.now))
        counts.new }
{
    let sink = lists.sink();
    counts[sink] = 1;
    for vertex in (0..sink).rev() {
        counts[vertex] = path_count(lists, counts, vertex);
    }
}
