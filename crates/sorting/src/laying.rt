// Words laid out in the order of a row, each once, from slot 0 on.
ghost use Rattle.std.specs.Prelude.{ℕ, ◌+◌, ◌-◌, ◌≤◌, ◌<◌, length};
ghost use Rattle.sorting.specs.Slots.{Slot};
ghost use Rattle.endian.specs.Rows.{number_at};
ghost use Rattle.sorting.specs.Rows.{Gathered, Rising, LaidWord, LaidOut, Numbered, Dictionary};

use crate::ordering::{sort, stands_before};
use crate::rows::{number, put_number};
use crate::slots::copy_slot;

// Lays the word of place k out behind q words, if it is not the one before it, and answers how many words there are.
fn lay_word(words: &mut [u8], rows: &[u8], q: usize, k: usize) -> usize
    requires q_bound { (q ≤ 4000) × (k < 4000) × (16000 ≤ length rows.now) × (66033 ≤ length words.old) }
    requires slot { Slot words.old (number_at rows.now k) }
    requires slot_2 { 1 ≤ k → Slot words.old (number_at rows.now (k - 1)) }
    ensures { LaidWord words.old rows.now q k result words.new }
{
    if 0 < k {
        if !stands_before(words, rows, k - 1, k) {
            return q;
        }
    }
    if 2000 <= q {
        return q + 1;
    }
    let s = number(rows, k);
    copy_slot(words, s, q);
    q + 1
}

// Lays the words of n places out, and answers how many different ones there are; over 2,000 they are counted only.
pub(crate) fn lay_out(words: &mut [u8], rows: &[u8], n: usize) -> usize
    requires n_bound { (n ≤ 4000) × (16000 ≤ length rows.now) × (66033 ≤ length words.old) }
    requires gathered { Gathered words.old rows.now n }
    requires rising { Rising words.old rows.now 0 n }
    ensures { LaidOut words.old rows.now n result words.new }
{
    let mut q = 0;
    for k in 0..n {
        q = lay_word(words, rows, q, k);
    }
    q
}

// Numbers n slots of words as gathered, from 2,001 on.
fn number_slots(rows: &mut [u8], n: usize)
    requires { (n ≤ 4000) × (16000 ≤ length rows.old) }
    ensures { Numbered rows.old n rows.new }
{
    for k in 0..n {
        put_number(rows, k, 2001 + k);
    }
}

// Puts n words, gathered in the slots from 2,001 on, into dictionary order, each once, from slot 0 on, and answers how
// many there are; over 2,000 they are counted only.
pub(crate) fn in_order(words: &mut [u8], rows: &mut [u8], n: usize) -> usize
    requires n_bound { (n ≤ 4000) × (16000 ≤ length rows.old) × (66033 ≤ length words.old) }
    requires by_index { (p : ℕ) → p < n → Slot words.old (2001 + p) }
    ensures { Dictionary words.old n result words.new }
{
    number_slots(rows, n);
    sort(words, rows, 0, n);
    lay_out(words, rows, n)
}
