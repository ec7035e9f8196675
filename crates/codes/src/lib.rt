// Code to word, listing, and gathering: definitions in specs/. Word to code is the crate lookup's.
#![tactic(auto)]

ghost use Rattle.std.specs.Prelude.{◌≡◌};
ghost use Rattle.call.specs.Table.{answer_of};
ghost use Rattle.codes.specs.Lookup.{list_answer, list_out, list_work};
ghost use Rattle.codes.specs.Lookup.{code_to_word_answer, code_to_word_work, code_to_word_out};
ghost use Rattle.codes.specs.Gathering.{gather_answer, gather_work, gather_out};

use crate::descent::{put_word, spell};
use crate::gathering::put_slots;
use crate::listing::put_listing;
use call::Refusal;
use checking::{Vertex, open};

mod descent;
mod gathering;
mod image;
mod listing;

// Writes the word of a code, as print bytes, and answers the bytes written.
pub fn code_to_word(
    voice: &[u8],
    lexicon: &[u8],
    code: u32,
    work: &mut [u8],
    out: &mut [u8],
) -> Result<u32, Refusal>
    ensures result_value { answer_of result ≡ code_to_word_answer voice.now lexicon.now code work.old
        out.old }
    ensures work_after { work.new ≡ code_to_word_work voice.now lexicon.now code
        work.old }
    ensures out_after { out.new ≡ code_to_word_out voice.now lexicon.now code
        work.old out.old }
{
    let mut vertices = [Vertex::BLANK; 402];
    let words = open(voice, lexicon, work, &mut vertices)?;
    if words <= code {
        return Err(Refusal::Code);
    }
    let mut letters = [0u8; 32];
    let n = spell(lexicon, &vertices, code, &mut letters);
    put_word(voice, out, &letters, n)
}

// Writes the words in code order, each followed by byte 10, and answers the bytes written.
pub fn list(voice: &[u8], lexicon: &[u8], work: &mut [u8], out: &mut [u8]) -> Result<u32, Refusal>
    ensures result_value { answer_of result ≡ list_answer voice.now lexicon.now work.old
        out.old }
    ensures work_after { work.new ≡ list_work voice.now lexicon.now work.old }
    ensures out_after { out.new ≡ list_out voice.now lexicon.now work.old
        out.old }
{
    let mut vertices = [Vertex::BLANK; 402];
    open(voice, lexicon, work, &mut vertices)?;
    put_listing(voice, lexicon, &vertices, out)
}

// Writes the words in code order as letter indexes, each in a slot of 33 bytes, and answers their number.
pub fn gather(voice: &[u8], lexicon: &[u8], work: &mut [u8], out: &mut [u8]) -> Result<u32, Refusal>
    ensures result_value { answer_of result ≡ gather_answer voice.now lexicon.now work.old
        out.old }
    ensures work_after { work.new ≡ gather_work work.old }
    ensures out_after { out.new ≡ gather_out voice.now lexicon.now work.old
        out.old }
{
    let mut vertices = [Vertex::BLANK; 402];
    let words = open(voice, lexicon, work, &mut vertices)?;
    put_slots(lexicon, &vertices, words, out)
}
