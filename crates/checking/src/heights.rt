// Refusal 8: the longest word. The height of a vertex is the most letters on a way from it to the sink, its own
// included.
ghost use Rattle.std.specs.Prelude.{◌≡◌};
ghost use Rattle.graph.specs.Graph.{graph_of};
ghost use Rattle.graph.specs.Conditions.{long_word, has_long_word};
ghost use Rattle.checking.specs.Filling.{AtVertex};
ghost use Rattle.checking.specs.Longest.{height, height_above};

use crate::offsets::Lists;
use endian::number_of;

// The greatest height of the successors of a vertex.
fn height_above(lists: Lists, heights: &[u16; 402], vertex: usize) -> u16
    requires { AtVertex (height (graph_of lists.lexicon.now)) lists.lexicon.now heights.now vertex }
    ensures { result ≡ height_above (graph_of lists.entry.lexicon.now) vertex }
{
    let mut most = 0;
    for &pair in lists.successors(vertex) {
        most = most.max(heights[number_of(pair) as usize]);
    }
    most
}

// The letters of the longest word: heights from the sink down, since arcs lead to greater vertices. The sink is 0 high,
// and the root has no letter.
pub(crate) fn longest_word(lists: Lists) -> u16
    ensures { long_word result ≡ has_long_word (graph_of lists.entry.lexicon.now) }
{
    let mut heights = [0u16; 402];
    for vertex in (1..lists.sink()).rev() {
        heights[vertex] = 1 + height_above(lists, &heights, vertex);
    }
    height_above(lists, &heights, 0)
}
