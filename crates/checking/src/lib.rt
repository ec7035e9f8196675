// Checking: the conditions 6 to 10 of document 01's refusal table, and the calls that test 1 to 10: `open`, which
// leaves a table for the work that follows, and `check`.
#![tactic(auto)]

ghost use Rattle.std.specs.Prelude.{◌≡◌};
ghost use Rattle.call.specs.Table.{answer_of};
ghost use Rattle.voice.specs.Fields.{well_formed};
ghost use Rattle.voice.specs.Voice.{letter_count, voice_verdict};
ghost use Rattle.lexicon.specs.Lexicon.{lexicon_verdict};
ghost use Rattle.graph.specs.Checking.{lexicon_rows, image_rows, check_answer, check_work};
ghost use Rattle.checking.specs.Tables.{opened_vertices};
ghost use Rattle.checking.specs.Judging.{Blank, graph_rows, ImagesJudged};

use crate::counts::count_paths;
use crate::heights::longest_word;
use crate::offsets::{Lists, find_offsets};
use crate::orphans::has_orphan;
use crate::pairs::{PAIR_BYTES, has_same_letters};
use crate::places::place_count;
use crate::vertices::put_vertices;
use call::{Refusal, WORK_SPACE, clear};

mod counts;
mod heights;
mod offsets;
mod orphans;
mod pairs;
mod places;
mod vertices;

// The most places of a lexicon (row 7), letters of a word (row 8), and words (row 9).
const PLACES: usize = 1000;

pub const LETTERS: u16 = 32;

const WORDS: u32 = 1048576;

// What the calls after checking are handed of a vertex.
#[derive(Clone, Copy, PartialEq, Eq, PartialOrd, Ord, Hash, Debug, Default)]
pub struct Vertex {
    // the offset of its successors' count, which their list follows
    pub arcs_at: u32,
    // its path count
    pub paths: u32,
    // its first slot in the token store, which is the search's to fill; a lookup puts here what the vertex prints,
    // since a field more would make an arc's read a cache line longer
    pub first_slot: u32,
    // the emission that enters it at a frame, which is the search's to fill
    pub emission: u32,
}

impl Vertex {
    // A vertex of which nothing is known.
    pub const BLANK: Vertex = Vertex {
        arcs_at: 0,
        paths: 0,
        first_slot: 0,
        emission: 0,
    };
}

// Rows 6 to 10, or W. A count of paths stops above the limit, so that W is exact wherever row 9 does not apply.
fn judge_graph(
    voice: &[u8],
    lexicon: &[u8],
    pairs: &mut [u8],
    offsets: &mut [u16; 402],
    counts: &mut [u32; 402],
) -> Result<u32, Refusal>
    requires voice_value { voice_verdict voice.now ≡ well_formed }
    requires lexicon_value { lexicon_verdict (letter_count voice.now) lexicon.now ≡ well_formed }
    requires blank { Blank pairs.old offsets.old counts.old }
    ensures { ImagesJudged (graph_rows voice.now lexicon.now) (answer_of result)
        lexicon.now offsets.new counts.new }
{
    find_offsets(lexicon, offsets);
    let lists = Lists { lexicon, offsets };
    if has_orphan(lists) {
        return Err(Refusal::Orphan);
    }
    if PLACES < place_count(voice, lexicon) {
        return Err(Refusal::Places);
    }
    if LETTERS < longest_word(lists) {
        return Err(Refusal::LongWord);
    }
    count_paths(lists, counts);
    let words = counts[0];
    if WORDS < words {
        return Err(Refusal::WordCount);
    }
    if has_same_letters(lists, pairs) {
        return Err(Refusal::SameLetters);
    }
    Ok(words)
}

// Rows 4 to 10, or W: the lexicon is judged with the L of a well-formed voice model.
fn judge_lexicon(
    voice: &[u8],
    lexicon: &[u8],
    pairs: &mut [u8],
    offsets: &mut [u16; 402],
    counts: &mut [u32; 402],
) -> Result<u32, Refusal>
    requires voice_value { voice_verdict voice.now ≡ well_formed }
    requires blank { Blank pairs.old offsets.old counts.old }
    ensures { ImagesJudged (lexicon_rows voice.now lexicon.now) (answer_of result)
        lexicon.now offsets.new counts.new }
{
    lexicon::judge(lexicon, voice[0] as usize)?;
    judge_graph(voice, lexicon, pairs, offsets, counts)
}

// Rows 2 to 10, or W.
fn judge_images(
    voice: &[u8],
    lexicon: &[u8],
    pairs: &mut [u8],
    offsets: &mut [u16; 402],
    counts: &mut [u32; 402],
) -> Result<u32, Refusal>
    requires { Blank pairs.old offsets.old counts.old }
    ensures { ImagesJudged (image_rows voice.now lexicon.now) (answer_of result)
        lexicon.now offsets.new counts.new }
{
    voice::judge(voice)?;
    judge_lexicon(voice, lexicon, pairs, offsets, counts)
}

// Checks both images, answers W, and leaves the row of each vertex for the work that follows. A refusal leaves the
// table as it was.
pub fn open(
    voice: &[u8],
    lexicon: &[u8],
    work: &mut [u8],
    vertices: &mut [Vertex; 402],
) -> Result<u32, Refusal>
    ensures result_value { answer_of result ≡ check_answer voice.now lexicon.now work.old }
    ensures work_after { work.new ≡ check_work voice.now lexicon.now work.old }
    ensures vertices_after { vertices.new
        ≡ opened_vertices (answer_of result) lexicon.now vertices.old }
{
    if work.len() < WORK_SPACE {
        return Err(Refusal::WorkSpace);
    }
    let mut offsets = [0u16; 402];
    let mut counts = [0u32; 402];
    let answer = judge_images(
        voice,
        lexicon,
        &mut work[0..PAIR_BYTES],
        &mut offsets,
        &mut counts,
    );
    clear(work);
    let words = answer?;
    put_vertices(lexicon, &offsets, &counts, vertices);
    Ok(words)
}

// Checks both images and answers W.
pub fn check(voice: &[u8], lexicon: &[u8], work: &mut [u8]) -> Result<u32, Refusal>
    ensures result_value { answer_of result ≡ check_answer voice.now lexicon.now work.old }
    ensures work_after { work.new ≡ check_work voice.now lexicon.now work.old }
{
    let mut vertices = [Vertex::BLANK; 402];
    open(voice, lexicon, work, &mut vertices)
}
