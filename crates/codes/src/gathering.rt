// Gathering: the words in code order as letter indexes, each in a slot of its own.
ghost use Rattle.std.specs.Prelude.{◌≡◌, ◌++◌, ◌+◌, ◌≤◌, ◌<◌, length, take, drop};
ghost use Rattle.call.specs.Table.{answer_of};
ghost use Rattle.graph.specs.Graph.{graph_of, word_count};
ghost use Rattle.codes.specs.Steps.{letters_of_code, Spellable};
ghost use Rattle.codes.specs.Gathering.{slot_of};
ghost use Rattle.codes.specs.Slots.{Gatherable, SlotsAnswered};

use crate::descent::spell;
use call::Refusal;
use checking::Vertex;

// The bytes of a slot: the length of a word, and room for its letters.
const SLOT: usize = 33;

// The most words that are gathered (row 17).
const WORDS: u32 = 2000;

// Writes the slot of a code below W from an offset on, whole, since the output may hold anything.
fn put_slot(lexicon: &[u8], vertices: &[Vertex; 402], code: u32, out: &mut [u8], at: usize)
    requires spellable { Spellable lexicon.now vertices.now }
    requires code_bound { (code < word_count (graph_of lexicon.now)) × (at + 33 ≤ length out.old) }
    ensures { out.new ≡ take at out.old
        ++ slot_of (letters_of_code (graph_of lexicon.now) code) ++ drop (at + 33) out.old }
{
    let mut letters = [0u8; 32];
    let n = spell(lexicon, vertices, code, &mut letters);
    out[at] = n as u8;
    out[at + 1..at + SLOT].copy_from_slice(&letters);
}

// Rows 17 and 16, and then a slot for each code.
pub(crate) fn put_slots(
    lexicon: &[u8],
    vertices: &[Vertex; 402],
    words: u32,
    out: &mut [u8],
) -> Result<u32, Refusal>
    requires { Gatherable lexicon.now vertices.now words }
    ensures { SlotsAnswered (graph_of lexicon.now) (answer_of result) out.old
        out.new }
{
    if WORDS < words {
        return Err(Refusal::WordList);
    }
    if out.len() < SLOT * words as usize {
        return Err(Refusal::Output);
    }
    for code in 0..words {
        put_slot(lexicon, vertices, code, out, SLOT * code as usize);
    }
    Ok(words)
}
