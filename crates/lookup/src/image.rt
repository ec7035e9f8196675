// What the vertices of a lexicon print.
ghost use Rattle.graph.specs.Checking.{Accepted};
ghost use Rattle.checking.specs.Tables.{Vertices};
ghost use Rattle.lookup.specs.Seeking.{Printed};

use checking::Vertex;
use endian::u16_at;

// What the sink prints: a number that is no byte, so that one comparison an arc serves nodes and sink.
pub(crate) const END: u32 = 256;

// Fills in what each vertex prints, so that the search compares one number an arc. It stands in the field of the first
// slot, which no lookup needs: beside the path count, so that an arc reads one place.
pub(crate) fn put_prints(voice: &[u8], lexicon: &[u8], vertices: &mut [Vertex; 402])
    requires { Accepted voice.now lexicon.now × Vertices lexicon.now vertices.old }
    ensures { Printed voice.now lexicon.now vertices.new }
{
    let sink = u16_at(lexicon, 0) as usize + 1;
    for node in 1..sink {
        let letter = lexicon[1 + node] as usize;
        vertices[node].first_slot = voice[1 + 2 * letter] as u32;
    }
    vertices[sink].first_slot = END;
}
