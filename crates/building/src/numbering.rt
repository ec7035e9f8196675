// The numbers of the nodes: by their longest continuation, longest first, and equals as they were registered. They are
// put into the register itself, where its chains and marks stood.
ghost use Rattle.std.specs.Prelude.{◌≡◌, ◌≤◌, [], ◌++◌};
ghost use Rattle.registering.specs.Numbering.{heights_in, places_of, places_below, Rows, Low, PlacedIn};

use registering::Row;

// One more than the most letters of a continuation.
fn top_of(rows: &[Row; 401], count: usize) -> usize
    requires { Rows rows.now count }
    ensures { Low (heights_in rows.now) count result × (result ≤ 33) }
{
    let mut top = 0;
    for row in &rows[..count] {
        top = top.max(row.longest as usize + 1);
    }
    top
}

// Numbers the nodes with a longest continuation of h letters from k on, and answers the number for the next.
fn number_level(rows: &mut [Row; 401], count: usize, h: usize, k: usize) -> usize
    requires rows { Rows rows.old count }
    requires placed_in { PlacedIn rows.old rows.old count
        (places_of (heights_in rows.old) h 0 count ++ places_below (heights_in rows.old) count h) k }
    ensures { PlacedIn rows.old rows.new count
        (places_below (heights_in rows.old) count h) result }
{
    let mut next = k;
    for r in 0..count {
        if rows[r].longest as usize == h {
            rows[next].mark_or_place = r as u16;
            next += 1;
            rows[r].chain_or_number = next as u16;
        }
    }
    next
}

// Puts the places of all nodes in order, and gives each its number, from 1.
pub(crate) fn number_all(rows: &mut [Row; 401], count: usize)
    requires { Rows rows.old count }
    ensures { PlacedIn rows.old rows.new count [] count }
{
    let mut k = 0;
    for h in (0..top_of(rows, count)).rev() {
        k = number_level(rows, count, h, k);
    }
}
