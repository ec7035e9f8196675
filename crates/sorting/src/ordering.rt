// Slot numbers put into the dictionary order of the words in their slots, by merging: the library's sorts ask for a
// comparison of any two numbers, and these have to be numbers of slots that hold words.
ghost use Rattle.std.specs.Prelude.{◌≡◌, ◌+◌, ◌*◌, ◌-◌, ◌≤◌, ◌<◌, length};
ghost use Rattle.canonical.specs.Dictionary.{precedes};
ghost use Rattle.sorting.specs.Slots.{Slot};
ghost use Rattle.endian.specs.Rows.{number_at};
ghost use Rattle.sorting.specs.Rows.{word_of, Points, Rising, Taken, Merged, Ordered};

use crate::letters::before;
use crate::rows::{copy_back, copy_number, number};
use crate::slots::word;

// Whether the word of place j stands before that of place i.
pub(crate) fn stands_before(words: &[u8], rows: &[u8], j: usize, i: usize) -> bool
    requires j_in_bounds { (2 * j + 2 ≤ length rows.now) × (2 * i + 2 ≤ length rows.now) }
    requires slot { Slot words.now (number_at rows.now j) × Slot words.now (number_at rows.now i) }
    ensures { result ≡ precedes (word_of words.now rows.now j)
        (word_of words.now rows.now i) }
{
    let a = number(rows, j);
    let b = number(rows, i);
    before(word(words, a), word(words, b))
}

// Writes the next number of two runs at place k of the spare row, and answers how far the first run is taken. Equal
// words: the first run's.
fn take_next(words: &[u8], rows: &mut [u8], mid: usize, hi: usize, i: usize, k: usize) -> usize
    requires i_le_mid { (i ≤ mid) × (i ≤ k) × (k + mid ≤ hi + i) × (k < hi) }
    requires hi_bound { (hi ≤ 4000) × (16000 ≤ length rows.old) × (mid ≤ hi) }
    requires points { Points words.now rows.old i hi }
    ensures { Taken words.now rows.old mid hi i k result rows.new }
{
    let j = k + mid - i;
    if mid <= i {
        copy_number(rows, j, 4000 + k);
        return i;
    }
    if j < hi {
        if stands_before(words, rows, j, i) {
            copy_number(rows, j, 4000 + k);
            return i;
        }
    }
    copy_number(rows, i, 4000 + k);
    i + 1
}

// Merges two runs that stand in order, from lo up to mid and from there up to hi, into the spare row.
fn merge(words: &[u8], rows: &mut [u8], lo: usize, mid: usize, hi: usize)
    requires lo_le_mid { (lo ≤ mid) × (mid ≤ hi) × (hi ≤ 4000) × (16000 ≤ length rows.old) }
    requires points { Points words.now rows.old lo hi }
    requires rising { Rising words.now rows.old lo mid }
    requires rising_2 { Rising words.now rows.old mid hi }
    ensures { Merged words.now rows.old lo hi rows.new }
{
    let mut i = lo;
    for k in lo..hi {
        i = take_next(words, rows, mid, hi, i, k);
    }
}

// Puts the numbers from lo up to hi into the order of their words.
pub(crate) fn sort(words: &[u8], rows: &mut [u8], lo: usize, hi: usize)
    requires lo_le_hi { (lo ≤ hi) × (hi ≤ 4000) × (16000 ≤ length rows.old) }
    requires points { Points words.now rows.old lo hi }
    ensures { Ordered words.now rows.old lo hi rows.new }
{
    if hi - lo < 2 {
        return;
    }
    let mid = lo + (hi - lo) / 2;
    sort(words, rows, lo, mid);
    sort(words, rows, mid, hi);
    // two halves that stand in order already, as they do where a list is stored in order
    if !stands_before(words, rows, mid, mid - 1) {
        return;
    }
    merge(words, rows, lo, mid, hi);
    copy_back(rows, lo, hi);
}
