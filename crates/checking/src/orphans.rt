// Refusal 6: a node that is nobody's successor.
ghost use Rattle.std.specs.Prelude.{◌≡◌, suc, ◌≤◌};
ghost use Rattle.lexicon.specs.Lexicon.{node_count};
ghost use Rattle.graph.specs.Graph.{graph_of};
ghost use Rattle.graph.specs.Conditions.{orphan};
ghost use Rattle.checking.specs.Marks.{SuccessorsMarked};

use crate::offsets::Lists;
use endian::number_of;

// Marks the successors of a vertex, after those of the vertices below it.
fn mark_successors(lists: Lists, vertex: usize, marks: &mut [bool; 402])
    requires { (vertex ≤ node_count lists.lexicon.now) × SuccessorsMarked lists.lexicon.now vertex marks.old }
    ensures { SuccessorsMarked lists.entry.lexicon.now (suc vertex) marks.new }
{
    for &pair in lists.successors(vertex) {
        marks[number_of(pair) as usize] = true;
    }
}

// Marks every successor, and looks for a node, 1 to N, without a mark.
pub(crate) fn has_orphan(lists: Lists) -> bool
    ensures { result ≡ orphan (graph_of lists.entry.lexicon.now) }
{
    let sink = lists.sink();
    let mut marks = [false; 402];
    for vertex in 0..sink {
        mark_successors(lists, vertex, &mut marks);
    }
    marks[1..sink].contains(&false)
}
