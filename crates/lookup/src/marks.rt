// Marks of pairs of a letter position and a vertex, in a row of numbers, one for each pair from 1 on: a marked pair's
// number names the pair that was marked before it. So the marks are cleared where they were set, from the last one on.
ghost use Rattle.std.specs.Prelude.{◌≡◌, ◌+◌, ◌*◌, ◌≤◌, ◌<◌, length, replicate};
ghost use Rattle.endian.specs.Rows.{number_at, NumberPut};
ghost use Rattle.lookup.specs.Marks.{Chained, PairMarked};

use endian::u16_at;

// The pairs of a letter position, one for each vertex.
pub(crate) const ROW: usize = 402;

// The bytes of the row: a number for each vertex at 33 letter positions, and number 0, which is no pair's, so that a
// row of zeros has no mark.
pub(crate) const MARKS: usize = 26534;

// No pair: it ends the chain. It is stored in the row as the pairs are, in two bytes, so it is a number and no Option.
pub(crate) const NONE: usize = 13267;

// Writes the number of a pair. Sorting has the same for its rows: a shared function would be public, and test for room.
fn put_number(marks: &mut [u8], pair: usize, n: usize)
    requires { (2 * pair + 2 ≤ length marks.old) × (n < 65536) }
    ensures { NumberPut marks.old pair n marks.new }
{
    let at = 2 * pair;
    marks[at..at + 2].copy_from_slice(&(n as u16).to_le_bytes());
}

// Marks a pair.
pub(crate) fn set_mark(marks: &mut [u8], pair: usize, last: usize)
    requires marks_len { (length marks.old ≡ 26534) × Chained marks.old last }
    requires le_pair { (1 ≤ pair) × (pair ≤ 13266) × (number_at marks.old pair ≡ 0) }
    ensures { PairMarked marks.old pair marks.new }
{
    put_number(marks, pair, last);
}

// Clears all marks, from the last one on.
pub(crate) fn clear_marks(marks: &mut [u8], last: usize)
    requires { (length marks.old ≡ 26534) × Chained marks.old last }
    ensures { marks.new ≡ replicate 26534 0 }
{
    let mut pair = last;
    // the chain says where it ends: there is no count of its pairs, nor are they in a slice
    while pair != NONE {
        let before = u16_at(marks, 2 * pair) as usize;
        put_number(marks, pair, 0);
        pair = before;
    }
}
