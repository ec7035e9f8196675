// The table of words in dictionary order, at the start of the further work space.
ghost use Rattle.std.specs.Prelude.{◌≡◌, ◌||◌, map, ◌≤◌, length, ltb};
ghost use Rattle.endian.specs.Lists.{sum};
ghost use Rattle.call.specs.Limits.{further_space};
ghost use Rattle.call.specs.Table.{answer_of};
ghost use Rattle.canonical.specs.Dictionary.{words_in_order};
ghost use Rattle.sorting.specs.Slots.{Holds, words_from};
ghost use Rattle.sorting.specs.Tabled.{Waiting, zeroed_part, Tabled};

use crate::laying::in_order;
use call::{FURTHER_SPACE, Refusal, zero};

// The most words of a list, and the most letters in all; refusal 17 above them.
const WORDS: usize = 2000;

const LETTERS: usize = 16000;

// The letters of the first n words in all.
fn letter_total(words: &[u8], n: usize) -> usize
    requires { (n ≤ 2000) × Holds words.now n }
    ensures { result ≡ sum (map length (words_from words.now 0 n)) }
{
    let mut total = 0;
    for i in 0..n {
        total += words[33 * i] as usize;
    }
    total
}

// Whether q words are too many, or the letters of the first q; over 2,000 words are only counted and stand in no slots.
fn is_long(words: &[u8], q: usize) -> bool
    requires { q ≤ 2000 → Holds words.now q }
    ensures { result ≡ ltb 2000 q || ltb 16000 (sum (map length (words_from words.now 0 q))) }
{
    WORDS < q || LETTERS < letter_total(words, q)
}

// Makes a part zero. The ends are no constants here: a part with an end as large as the further work space's is slow to
// check.
pub(crate) fn zero_part(further: &mut [u8], from: usize, to: usize)
    requires { (from ≤ to) × (to ≤ length further.old) }
    ensures { further.new ≡ zeroed_part from to further.old }
{
    zero(&mut further[from..to]);
}

// Makes the table of n gathered words, each once, and answers how many there are.
pub(crate) fn put_table(further: &mut [u8], rows: &mut [u8], n: usize) -> Result<u32, Refusal>
    requires in_bounds { (16000 ≤ length rows.old) × (further_space ≤ length further.old) }
    requires waiting { Waiting further.old n }
    ensures { Tabled (words_in_order (words_from further.old 2001 n)) further.old (answer_of result)
        further.new }
{
    let q = in_order(further, rows, n);
    if is_long(further, q) {
        zero_part(further, 0, FURTHER_SPACE);
        return Err(Refusal::WordList);
    }
    zero_part(further, 33 * q, FURTHER_SPACE);
    Ok(q as u32)
}
