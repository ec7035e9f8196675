// The table of vertices that the calls after checking are handed.
ghost use Rattle.std.specs.Prelude.{◌≡◌};
ghost use Rattle.checking.specs.Tables.{vertices_of, Tables, WellFormed};

use crate::Vertex;
use crate::offsets::sink_of;

// Puts what is known of each vertex up to the sink. All after it is blank, and made so at once: a call with a small
// lexicon does not go through 402 entries.
pub(crate) fn put_vertices(
    lexicon: &[u8],
    offsets: &[u16; 402],
    counts: &[u32; 402],
    vertices: &mut [Vertex; 402],
)
    requires { WellFormed lexicon.now × Tables lexicon.now offsets.now counts.now }
    ensures { vertices.new ≡ vertices_of lexicon.now }
{
    let sink = sink_of(lexicon);
    *vertices = [Vertex::BLANK; 402];
    for u in 0..sink + 1 {
        vertices[u] = Vertex {
            arcs_at: offsets[u] as u32,
            paths: counts[u],
            ..Vertex::BLANK
        };
    }
}
