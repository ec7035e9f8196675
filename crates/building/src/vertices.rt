// The vertices of the image, by their rows in the register: the root, and then the nodes in the order of their numbers.
ghost use Rattle.std.specs.Prelude.{◌≡◌, ◌≤◌};
ghost use Rattle.registering.specs.Numbering.{numbers_in};
ghost use Rattle.registering.specs.Arcs.{place_in, vertex_in, first_arc, NodeRow};
ghost use Rattle.registering.specs.Image.{letter_in, LetterRow};

use registering::Row;

// The bytes of a word's slot: its length, and 32 letters.
const SLOT: usize = 33;

// The root's place in the register, behind those of the nodes. In the links its place is that of the first word's link.
pub(crate) const ROOT: usize = 400;

// The place of a vertex in the register.
pub(crate) fn place_of(rows: &[Row; 401], vertex: usize) -> usize
    requires { (vertex ≤ 400) × (place_in rows.now vertex ≤ 400) }
    ensures { result ≡ place_in rows.now vertex }
{
    if vertex == 0 {
        return ROOT;
    }
    rows[vertex - 1].mark_or_place as usize
}

// Where the first arc of a vertex leads: to the sink where its first word ends, else along that word to the node at a
// place.
pub(crate) fn first_arc(words: &[u8], rows: &[Row; 401], count: usize, row: &Row, place: u16) -> u16
    requires { (count ≤ 400) × NodeRow words.now row.now place }
    ensures { result ≡ first_arc words.now (numbers_in rows.now) count row.now
        place }
{
    if words[SLOT * (row.first as usize)] as u16 == row.depth {
        return count as u16 + 1;
    }
    rows[place as usize].chain_or_number
}

// The letter of a node, by its vertex: the last of those before it in its first word.
pub(crate) fn letter_of(words: &[u8], rows: &[Row; 401], vertex: usize) -> u8
    requires vertex_bound { (vertex ≤ 400) × (place_in rows.now vertex ≤ 400) }
    requires letter_row { LetterRow words.now (vertex_in rows.now vertex) }
    ensures { result ≡ letter_in words.now (vertex_in rows.now vertex) }
{
    let place = place_of(rows, vertex);
    let row = &rows[place];
    words[SLOT * (row.first as usize) + row.depth as usize]
}
