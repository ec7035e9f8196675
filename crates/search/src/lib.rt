// The search: the token store in bytes, the turns of a frame, and the call that finds the best words as tokens.
//
// What is read of the images in more than one place (docs/FORMAT.md): voice[2 + 2 * letter] is a letter's number of
// states, 1 to 4, and lexicon[1 + node] the letter of a node; nodes have the numbers from 1 on. A table of vertices has
// 402 entries: for 400 nodes, the root, which is 0, and the sink, which comes after the last node.
#![tactic(auto)]

ghost use Rattle.std.specs.Prelude.{◌≡◌};
ghost use Rattle.call.specs.Table.{answer_of};
ghost use Rattle.decoder.specs.Decoding.{decode_work};
ghost use Rattle.search.specs.Found.{search_answer, search_tokens};

use crate::ends::best_words;
use crate::judge::judge_call;
use crate::places::find_slots;
use call::{Refusal, zero};
use checking::{Vertex, open};

mod ends;
mod frames;
mod gains;
mod judge;
mod letters;
mod places;
mod store;
mod tokens;
mod turns;

// Finds the n best words and puts them in tokens, best first, with no token after them; or answers the first refusal
// that applies to decoding, and leaves tokens as they are. Of the output, which decoding writes later, it
// looks at the length alone.
pub fn search(
    voice: &[u8],
    lexicon: &[u8],
    frames: &[u8],
    n: u32,
    work: &mut [u8],
    out: &[u8],
    tokens: &mut [u64; 8],
) -> Result<(), Refusal>
    ensures result_value { answer_of result ≡ search_answer voice.now lexicon.now frames.now n
        work.old out.now }
    ensures work_after { work.new ≡ decode_work voice.now lexicon.now frames.now n
        work.old }
    ensures tokens_after { tokens.new ≡ search_tokens voice.now lexicon.now frames.now
        n work.old out.now tokens.old }
{
    let mut vertices = [Vertex::BLANK; 402];
    open(voice, lexicon, work, &mut vertices)?;
    judge_call(voice, frames, n, out)?;
    let count = n as usize;
    let slots = find_slots(voice, lexicon, count, &mut vertices);
    // a store of n tokens a place, so of at most 8 * 8 * 1,000 bytes, which the work space has; checking left it clear,
    // so nothing else has to be cleared again
    let bytes = 8 * slots;
    *tokens = best_words(
        voice,
        lexicon,
        frames,
        count,
        &mut vertices,
        &mut work[..bytes],
    );
    zero(&mut work[..bytes]);
    Ok(())
}
