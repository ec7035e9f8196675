// The arcs of a vertex, by its row: the first word behind it, how many there are, and how many of their letters stand
// before it. The first arc is that of the first word, and another begins with each further word that parts from the
// word before it there.
ghost use Rattle.std.specs.Prelude.{◌≡◌, ◌+◌, ◌*◌, ◌≤◌, ◌<◌, length, get_or};
ghost use Rattle.endian.specs.Bytes.{u16_bytes};
ghost use Rattle.image.specs.Image.{list_bytes};
ghost use Rattle.registering.specs.Numbering.{numbers_in};
ghost use Rattle.registering.specs.Arcs.{partings_of, link_number, list_of, list_length, Spanned, Readable};
ghost use Rattle.registering.specs.Image.{Put, ArcsPut};

use crate::walk::WORD_LINKS;
use registering::Row;

// Writes a number at an offset. Sorting and lookup have the like: a shared function would be public, and test for room.
pub(crate) fn put_number(out: &mut [u8], at: usize, n: u16)
    requires { at + 2 ≤ length out.old }
    ensures { Put (u16_bytes n) at out.old out.new (at + 2) }
{
    out[at..at + 2].copy_from_slice(&n.to_le_bytes());
}

// How many arcs a vertex has.
pub(crate) fn list_length(shared: &[u8], row: &Row) -> usize
    requires { Spanned shared.now row.now }
    ensures { result ≡ list_length shared.now row.now }
{
    let first = row.first as usize;
    let stop = first + row.many as usize;
    let depth = row.depth;
    let mut arcs = 1;
    for i in first + 1..stop {
        if shared[i] as u16 == depth {
            arcs += 1;
        }
    }
    arcs
}

// The number of the node that a word leads to which parts from the word before it.
fn link_number(links: &[u16; 2400], rows: &[Row; 401], i: usize) -> u16
    requires { (i < 2000) × (get_or links.now (400 + i) 0 < 400) }
    ensures { result ≡ link_number links.now (numbers_in rows.now) i }
{
    rows[links[WORD_LINKS + i] as usize].chain_or_number
}

// Writes the numbers that the arcs of a vertex lead to behind the first, from an offset on, and answers how many.
fn put_arcs(
    shared: &[u8],
    links: &[u16; 2400],
    rows: &[Row; 401],
    row: &Row,
    out: &mut [u8],
    at: usize,
) -> usize
    requires readable { Readable shared.now links.now row.now }
    requires row_in_bounds { at + 2 * length (partings_of shared.now row.now) ≤ length out.old }
    ensures { ArcsPut shared.now links.now (numbers_in rows.now)
        row.now at out.old out.new result }
{
    let first = row.first as usize;
    let stop = first + row.many as usize;
    let depth = row.depth;
    let mut arcs = 0;
    for i in first + 1..stop {
        if shared[i] as u16 == depth {
            put_number(out, at + 2 * arcs, link_number(links, rows, i));
            arcs += 1;
        }
    }
    arcs
}

// Writes the list of a vertex from an offset on, its count last, since that is known last, and answers where it ends.
pub(crate) fn put_list(
    shared: &[u8],
    links: &[u16; 2400],
    rows: &[Row; 401],
    row: &Row,
    first: u16,
    out: &mut [u8],
    at: usize,
) -> usize
    requires readable { Readable shared.now links.now row.now }
    requires first_in_bounds { at
        + length (list_bytes (list_of shared.now links.now (numbers_in rows.now) row.now first))
        ≤ length out.old }
    ensures { Put (list_bytes (list_of shared.now links.now (numbers_in rows.now)
        row.now first)) at out.old out.new result }
{
    let later = put_arcs(shared, links, rows, row, out, at + 4);
    put_number(out, at + 2, first);
    put_number(out, at, (later + 1) as u16);
    at + 4 + 2 * later
}
