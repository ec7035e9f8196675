// The canonical image, from the tables: its size, its places, and its bytes.
ghost use Rattle.std.specs.Prelude.{◌≡◌, map, suc, ◌+◌, ◌≤◌, length};
ghost use Rattle.endian.specs.Lists.{sum};
ghost use Rattle.call.specs.Table.{answer_of};
ghost use Rattle.voice.specs.Voice.{states};
ghost use Rattle.sorting.specs.Slots.{words_from};
ghost use Rattle.registering.specs.Building.{ImageAnswered};
ghost use Rattle.registering.specs.Image.{Put, letters_from, lists_from, lists_length, table_image};
ghost use Rattle.registering.specs.Image.{Lettered, Measured, Listed, Voiced, Drawn};

use crate::lists::{list_length, put_list, put_number};
use crate::numbering::number_all;
use crate::register::NO_ROW;
use crate::vertices::{ROOT, first_arc, letter_of, place_of};
use call::Refusal;
use registering::Row;

// The most places of a lexicon.
const PLACES: usize = 1000;

// The bytes of the image: the number of nodes, their letters, the lists of the vertices, and the reserve.
fn image_size(shared: &[u8], rows: &[Row; 401], count: usize) -> usize
    requires { Measured shared.now rows.now count }
    ensures { result ≡ 4 + count + lists_length shared.now rows.now 0 (suc count) }
{
    let mut size = 4 + count;
    for vertex in 0..count + 1 {
        let place = place_of(rows, vertex);
        size += 2 + 2 * list_length(shared, &rows[place]);
    }
    size
}

// The places of the nodes, one for each state of each.
fn place_total(voice: &[u8], words: &[u8], rows: &[Row; 401], count: usize) -> usize
    requires lettered { Lettered words.now rows.now count }
    requires voiced { Voiced voice.now words.now rows.now count }
    ensures { result ≡ sum (map (states voice.now)
        (letters_from words.now rows.now 1 count)) }
{
    let mut places: usize = 0;
    for node in 0..count {
        let letter = letter_of(words, rows, node + 1) as usize;
        places += voice[2 + 2 * letter] as usize;
    }
    places
}

// Writes the letters of the nodes, behind their number.
fn put_letters(words: &[u8], rows: &[Row; 401], count: usize, out: &mut [u8])
    requires { Lettered words.now rows.now count × (2 + count ≤ length out.old) }
    ensures { Put (letters_from words.now rows.now 1 count) 2
        out.old out.new (2 + count) }
{
    for node in 0..count {
        out[2 + node] = letter_of(words, rows, node + 1);
    }
}

// Writes the lists of the vertices, behind the letters, and answers where they end.
fn put_lists(
    words: &[u8],
    shared: &[u8],
    links: &[u16; 2400],
    rows: &[Row; 401],
    count: usize,
    out: &mut [u8],
) -> usize
    requires listed { Listed words.now shared.now links.now rows.now count }
    requires count_in_bounds { 2 + count
        + length (lists_from words.now shared.now links.now rows.now count 0 (suc count))
        ≤ length out.old }
    ensures { Put (lists_from words.now shared.now links.now
        rows.now count 0 (suc count)) (2 + count) out.old out.new result }
{
    let mut at = 2 + count;
    for vertex in 0..count + 1 {
        let place = place_of(rows, vertex);
        let row = &rows[place];
        let first = first_arc(words, rows, count, row, links[place]);
        at = put_list(shared, links, rows, row, first, out, at);
    }
    at
}

// Writes the image at the output's start.
fn put_image(
    words: &[u8],
    shared: &[u8],
    links: &[u16; 2400],
    rows: &[Row; 401],
    count: usize,
    out: &mut [u8],
)
    requires lettered { Lettered words.now rows.now count }
    requires listed { Listed words.now shared.now links.now rows.now count }
    requires count_in_bounds { length (table_image words.now shared.now links.now rows.now count) ≤ length out.old }
    ensures { Put (table_image words.now shared.now links.now
        rows.now count) 0 out.old out.new
        (length (table_image words.now shared.now links.now
        rows.now count)) }
{
    put_number(out, 0, count as u16);
    put_letters(words, rows, count, out);
    let end = put_lists(words, shared, links, rows, count, out);
    put_number(out, end, 0);
}

// Row 18 for the places, and row 16; then the image of the words whose nodes are registered.
pub(crate) fn build_image(
    voice: &[u8],
    words: &[u8],
    n: usize,
    shared: &[u8],
    rows: &mut [Row; 401],
    links: &[u16; 2400],
    count: usize,
    out: &mut [u8],
) -> Result<u32, Refusal>
    requires { Drawn voice.now words.now n shared.now rows.old links.now count }
    ensures { ImageAnswered voice.now (words_from words.now 0 n) (answer_of result)
        out.old out.new }
{
    // the root has all words behind it, and none of their letters before it
    rows[ROOT] = Row {
        many: n as u16,
        ..NO_ROW
    };
    number_all(rows, count);
    if PLACES < place_total(voice, words, rows, count) {
        return Err(Refusal::CanonicalImage);
    }
    let size = image_size(shared, rows, count);
    if out.len() < size {
        return Err(Refusal::Output);
    }
    put_image(words, shared, links, rows, count, out);
    Ok(size as u32)
}
