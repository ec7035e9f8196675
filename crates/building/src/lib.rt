// The nodes of a table of words in dictionary order, their numbers and their arcs, and the call that writes the
// canonical image that they make: definitions in canonical/specs.
#![tactic(auto)]

ghost use Rattle.std.specs.Prelude.{◌≡◌, ◌≤◌, length, take, replicate};
ghost use Rattle.call.specs.Table.{answer_of};
ghost use Rattle.call.specs.Buffers.{zeroed};
ghost use Rattle.canonical.specs.Canonical.{canonical_answer, canonical_out, canonical_work, canonical_further};
ghost use Rattle.sorting.specs.Slots.{words_from};
ghost use Rattle.registering.specs.Register.{Shared};
ghost use Rattle.registering.specs.Building.{Given, Buildable, ImageAnswered};

use crate::marking::mark_words;
use crate::register::NO_ROW;
use crate::sharing::share;
use crate::walk::walk_all;
use crate::writing::build_image;
use call::{Refusal, zero};
use sorting::word_table;

mod lists;
mod marking;
mod numbering;
mod register;
mod sharing;
mod vertices;
mod walk;
mod writing;

// The bytes of 2,000 words in their slots with the marks behind them, and of the letters that each shares with the word
// before it.
const TABLE: usize = 132033;

const SHARED: usize = 2000;

// Writes the canonical image of the words in a table that is marked, or answers 18 or 16.
fn build(
    voice: &[u8],
    words: &[u8],
    n: usize,
    shared: &[u8],
    out: &mut [u8],
) -> Result<u32, Refusal>
    requires { Buildable voice.now words.now n × (1 ≤ n) × Shared words.now n shared.now }
    ensures { ImageAnswered voice.now (words_from words.now 0 n) (answer_of result)
        out.old out.new }
{
    let mut rows = [NO_ROW; 401];
    let mut chains = [0u16; 256];
    let mut links = [0u16; 2400];
    let count = walk_all(words, n, shared, &mut rows, &mut chains, &mut links).ok_or(
        Refusal::CanonicalImage,
    )?;
    build_image(voice, words, n, shared, &mut rows, &links, count, out)
}

// Marks the words in a table and builds from them, and makes the table and that of shared letters zero.
fn build_and_zero(
    voice: &[u8],
    words: &mut [u8],
    n: usize,
    shared: &mut [u8],
    out: &mut [u8],
) -> Result<u32, Refusal>
    requires given { Given voice.now words.old n }
    requires in_bounds { (132033 ≤ length words.old) × (2000 ≤ length shared.old) }
    ensures image_answered { ImageAnswered voice.now (words_from words.old 0 n) (answer_of result)
        out.old out.new }
    ensures words_after { words.new ≡ replicate (length words.old) 0 }
    ensures shared_after { shared.new ≡ replicate (length shared.old) 0 }
{
    mark_words(words, n);
    share(words, n, shared);
    let answer = build(voice, words, n, shared, out);
    zero(words);
    zero(shared);
    answer
}

// Builds from the words in the bytes before one end, with those before the other to work in, and makes both zero again.
// The ends are no constants here: a part with an end as large as TABLE is slow to check.
fn build_in(
    voice: &[u8],
    further: &mut [u8],
    table: usize,
    n: usize,
    work: &mut [u8],
    row: usize,
    out: &mut [u8],
) -> Result<u32, Refusal>
    requires given { Given voice.now (take table further.old) n }
    requires le_table { (132033 ≤ table) × (table ≤ length further.old) × (2000 ≤ row) × (row ≤ length work.old) }
    ensures image_answered { ImageAnswered voice.now (words_from (take table further.old) 0 n) (answer_of result)
        out.old out.new }
    ensures further_after { further.new ≡ zeroed table further.old }
    ensures work_after { work.new ≡ zeroed row work.old }
{
    build_and_zero(voice, &mut further[..table], n, &mut work[..row], out)
}

// Writes the canonical image of a lexicon, and answers the bytes written.
pub fn canonical(
    voice: &[u8],
    lexicon: &[u8],
    work: &mut [u8],
    further: &mut [u8],
    out: &mut [u8],
) -> Result<u32, Refusal>
    ensures result_value { answer_of result ≡ canonical_answer voice.now lexicon.now work.old
        further.old out.old }
    ensures work_after { work.new ≡ canonical_work work.old further.old }
    ensures further_after { further.new ≡ canonical_further work.old further.old }
    ensures out_after { out.new ≡ canonical_out voice.now lexicon.now work.old
        further.old out.old }
{
    let n = word_table(voice, lexicon, work, further)?;
    build_in(voice, further, TABLE, n as usize, work, SHARED, out)
}
