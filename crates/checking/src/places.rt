// Refusal 7: the places of a lexicon, one for each state of each node.
ghost use Rattle.std.specs.Prelude.{◌≡◌};
ghost use Rattle.voice.specs.Fields.{well_formed};
ghost use Rattle.voice.specs.Voice.{letter_count, voice_verdict};
ghost use Rattle.lexicon.specs.Lexicon.{lexicon_verdict};
ghost use Rattle.graph.specs.Graph.{graph_of};
ghost use Rattle.graph.specs.Conditions.{place_count};

use crate::offsets::sink_of;

pub(crate) fn place_count(voice: &[u8], lexicon: &[u8]) -> usize
    requires { (voice_verdict voice.now ≡ well_formed)
        × (lexicon_verdict (letter_count voice.now) lexicon.now ≡ well_formed) }
    ensures { result ≡ place_count voice.now (graph_of lexicon.now) }
{
    let mut count: usize = 0;
    for &letter in &lexicon[2..1 + sink_of(lexicon)] {
        count += voice[2 + 2 * letter as usize] as usize;
    }
    count
}
