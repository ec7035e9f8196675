// Word to code, of one word and of a stock list in one call: definitions in codes/specs.
#![tactic(auto)]

ghost use Rattle.std.specs.Prelude.{◌≡◌};
ghost use Rattle.call.specs.Table.{answer_of};
ghost use Rattle.codes.specs.Lookup.{word_to_code_answer, word_to_code_work};
ghost use Rattle.codes.specs.Items.{words_to_codes_answer, words_to_codes_work, words_to_codes_out};

use crate::image::put_prints;
use crate::items::{ANSWER, count_items, put_answers};
use crate::marks::MARKS;
use crate::seeking::look_up;
use call::Refusal;
use checking::{Vertex, open};

mod image;
mod items;
mod marks;
mod seeking;

// The code of a word, given as print bytes.
pub fn word_to_code(
    voice: &[u8],
    lexicon: &[u8],
    word: &[u8],
    work: &mut [u8],
) -> Result<u32, Refusal>
    ensures result_value { answer_of result ≡ word_to_code_answer voice.now lexicon.now word.now
        work.old }
    ensures work_after { work.new ≡ word_to_code_work voice.now lexicon.now word.now
        work.old }
{
    let mut vertices = [Vertex::BLANK; 402];
    open(voice, lexicon, work, &mut vertices)?;
    put_prints(voice, lexicon, &mut vertices);
    look_up(lexicon, &vertices, word, &mut work[0..MARKS])
}

// Looks up each item of a stock list, writes a refusal number and a code for each, and answers their number.
pub fn words_to_codes(
    voice: &[u8],
    lexicon: &[u8],
    items: &[u8],
    work: &mut [u8],
    out: &mut [u8],
) -> Result<u32, Refusal>
    ensures result_value { answer_of result ≡ words_to_codes_answer voice.now lexicon.now items.now
        work.old out.old }
    ensures work_after { work.new ≡ words_to_codes_work voice.now lexicon.now
        items.now work.old }
    ensures out_after { out.new ≡ words_to_codes_out voice.now lexicon.now items.now
        work.old out.old }
{
    let mut vertices = [Vertex::BLANK; 402];
    open(voice, lexicon, work, &mut vertices)?;
    let count = count_items(items)?;
    if out.len() < ANSWER * count as usize {
        return Err(Refusal::Output);
    }
    put_prints(voice, lexicon, &mut vertices);
    put_answers(lexicon, &vertices, items, &mut work[0..MARKS], out);
    Ok(count)
}
