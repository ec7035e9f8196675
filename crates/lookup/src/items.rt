// A stock list: items of a length byte and that many letters, and the answers to them, 8 bytes each.
ghost use Rattle.std.specs.Prelude.{◌≡◌, ◌++◌, false, ◌+◌, ◌*◌, ◌≤◌, length, take, drop, replicate};
ghost use Rattle.endian.specs.Bytes.{u32_bytes};
ghost use Rattle.call.specs.Table.{answer_of};
ghost use Rattle.graph.specs.Graph.{graph_of};
ghost use Rattle.codes.specs.Items.{items_of, runs_past, answer_bytes};
ghost use Rattle.lookup.specs.Seeking.{prints_column, Seekable};
ghost use Rattle.lookup.specs.Items.{count_answer, sought_bytes};

use crate::seeking::look_up;
use call::Refusal;
use checking::Vertex;
use endian::u32_bytes;

// The most items of a list (row 19).
const ITEMS: u32 = 1000;

// The bytes of an answer.
pub(crate) const ANSWER: usize = 8;

// The number of items, or 19: the list is read to its end before any item is looked up.
pub(crate) fn count_items(items: &[u8]) -> Result<u32, Refusal>
    ensures { answer_of result ≡ count_answer items.now }
{
    let mut rest = items;
    let mut count = 0;
    while let [letters, behind @ ..] = rest {
        if count == ITEMS {
            return Err(Refusal::Items);
        }
        let Some((_, after)) = behind.split_at_checked(*letters as usize) else {
            return Err(Refusal::Items);
        };
        rest = after;
        count += 1;
    }
    Ok(count)
}

// Writes the two numbers of an answer.
fn put_numbers(out: &mut [u8], at: usize, refusal: u32, code: u32)
    requires { at + 8 ≤ length out.old }
    ensures { out.new ≡ take at out.old ++ (u32_bytes refusal ++ u32_bytes code) ++ drop (at + 8) out.old }
{
    out[at..at + 4].copy_from_slice(&u32_bytes(refusal));
    out[at + 4..at + ANSWER].copy_from_slice(&u32_bytes(code));
}

// Writes the answer to an item.
fn put_answer(out: &mut [u8], at: usize, answer: Result<u32, Refusal>)
    requires { at + 8 ≤ length out.old }
    ensures { out.new ≡ take at out.old ++ answer_bytes (answer_of answer) ++ drop (at + 8) out.old }
{
    match answer {
        Ok(code) => put_numbers(out, at, 0, code),
        Err(refusal) => {
            let number = refusal.number();
            put_numbers(out, at, number as u32, 0)
        }
    }
}

// Looks the items up, one after the other, and writes the answers to them.
pub(crate) fn put_answers(
    lexicon: &[u8],
    vertices: &[Vertex; 402],
    items: &[u8],
    marks: &mut [u8],
    out: &mut [u8],
)
    requires seekable { Seekable lexicon.now vertices.now × (marks.old ≡ replicate 26534 0) }
    requires value { (runs_past items.now ≡ false) × (8 * length (items_of items.now) ≤ length out.old) }
    ensures marks_after { marks.new ≡ replicate 26534 0 }
    ensures out_after { out.new ≡ sought_bytes (prints_column vertices.now)
        (graph_of lexicon.now) (items_of items.now)
        ++ drop (8 * length (items_of items.now)) out.old }
{
    let mut rest = items;
    let mut answered = 0;
    while let [letters, behind @ ..] = rest {
        let (word, after) = behind.split_at(*letters as usize);
        let answer = look_up(lexicon, vertices, word, marks);
        put_answer(out, answered, answer);
        answered += ANSWER;
        rest = after;
    }
}
