// The places of a lexicon, one for each state of each node, are numbered node by node, and with them their slots.
ghost use Rattle.std.specs.Prelude.{◌≡◌, ◌≤◌};
ghost use Rattle.voice.specs.Fields.{well_formed};
ghost use Rattle.voice.specs.Voice.{letter_count, voice_verdict};
ghost use Rattle.lexicon.specs.Lexicon.{lexicon_verdict};
ghost use Rattle.storing.specs.Places.{VertexRows, SlotsPut};

use checking::Vertex;
use decoder::score::Score;
use endian::u16_at;

// Puts the first slot of each node and of the sink into the table of vertices. A place has n slots, so a node's first
// is n times the number of states of the nodes with lower numbers. The sink, where words end and no state is, gets an
// impossible emission. Answers the number of all slots.
pub(crate) fn find_slots(
    voice: &[u8],
    lexicon: &[u8],
    n: usize,
    vertices: &mut [Vertex; 402],
) -> usize
    requires voice_value { (voice_verdict voice.now ≡ well_formed)
        × (lexicon_verdict (letter_count voice.now) lexicon.now ≡ well_formed) }
    requires n_bound { (n ≤ 8) × VertexRows vertices.old }
    ensures { SlotsPut voice.now lexicon.now n vertices.old
        vertices.new result }
{
    let sink = u16_at(lexicon, 0) as usize + 1;
    let mut slot = 0;
    for node in 1..sink {
        let letter = lexicon[1 + node] as usize;
        vertices[node].first_slot = slot as u32;
        slot += n * (voice[2 + 2 * letter] as usize);
    }
    vertices[sink].first_slot = slot as u32;
    // so that no token is passed on to it
    let none = Score::IMPOSSIBLE;
    vertices[sink].emission = none.0;
    slot
}
