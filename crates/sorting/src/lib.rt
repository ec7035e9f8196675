// The words of a lexicon in dictionary order, in a table: definitions in specs/.
#![tactic(auto)]

ghost use Rattle.std.specs.Prelude.{◌≡◌};
ghost use Rattle.call.specs.Table.{answer_of};
ghost use Rattle.sorting.specs.Listing.{word_table_answer, word_table_work, word_table_further};

use crate::gathering::collect;
use crate::table::{put_table, zero_part};
use call::{FURTHER_SPACE, Refusal, WORK_SPACE, clear};

mod gathering;
mod laying;
mod letters;
mod ordering;
mod rows;
mod slots;
mod table;

// The row of slot numbers and its spare one, in the work space.
const ROWS: usize = 16000;

// Writes the words of a lexicon in dictionary order, each in a slot of 33 bytes, to the start of the further work
// space, and answers how many there are.
pub fn word_table(
    voice: &[u8],
    lexicon: &[u8],
    work: &mut [u8],
    further: &mut [u8],
) -> Result<u32, Refusal>
    ensures result_value { answer_of result
        ≡ word_table_answer voice.now lexicon.now work.old further.old }
    ensures work_after { work.new ≡ word_table_work work.old further.old }
    ensures further_after { further.new
        ≡ word_table_further voice.now lexicon.now work.old further.old }
{
    if work.len() < WORK_SPACE {
        return Err(Refusal::WorkSpace);
    }
    if further.len() < FURTHER_SPACE {
        return Err(Refusal::WorkSpace);
    }
    let n = match collect(voice, lexicon, work, further) {
        Ok(n) => n,
        Err(refusal) => {
            zero_part(further, 0, FURTHER_SPACE);
            return Err(refusal);
        }
    };
    let answer = put_table(further, &mut work[0..ROWS], n as usize);
    clear(work);
    answer
}
