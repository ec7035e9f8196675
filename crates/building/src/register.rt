// The register of nodes, each by the words that have its prefix.
ghost use Rattle.std.specs.Prelude.{◌≡◌, ◌*◌, ◌+◌, ◌≤◌, ◌<◌, get_or, drop, set};
ghost use Rattle.endian.specs.Lists.{same};
ghost use Rattle.canonical.specs.Nodes.{same_words, same_node};
ghost use Rattle.sorting.specs.Slots.{word_at, Slot};
ghost use Rattle.registering.specs.Register.{Words, Register, Chained, Group as WordGroup, GroupRow, Entered};
ghost use Rattle.registering.specs.Register.{rests_from, node_at, row_node};
ghost use Rattle.registering.specs.Finding.{Lettered, Found};

use crate::sharing::Group;
use registering::Row;

// The row of no node.
pub(crate) const NO_ROW: Row = Row {
    first: 0,
    many: 0,
    depth: 0,
    longest: 0,
    chain_or_number: 0,
    mark_or_place: 0,
};

// The most nodes that are registered.
const NODES: usize = 400;

// What stands behind the first d letters of the word in slot i. (A whole word is sorting's `word`, private there.)
fn rest<'a>(words: &'a [u8], i: usize, d: usize) -> &'a [u8]
    requires { Slot words.now i × (d ≤ get_or words.now (33 * i) 0) }
    ensures { result.now ≡ drop d (word_at words.now i) }
{
    let at = 33 * i;
    &words[at + 1 + d..at + 1 + words[at] as usize]
}

// Whether n words from i on have the same behind d letters as n words from j on behind e letters.
fn same_rests(words: &[u8], i: usize, d: usize, j: usize, e: usize, n: usize) -> bool
    requires { Lettered words.now i n d × Lettered words.now j n e }
    ensures { result ≡ same_words (rests_from words.now d i n) (rests_from words.now e j n) }
{
    for k in 0..n {
        if rest(words, i + k, d) != rest(words, j + k, e) {
            return false;
        }
    }
    true
}

// Whether the node of a row is that of a group with the same letter: another mark, another number of words, or another
// longest continuation, tells that it is not before any word is looked at.
fn is_node(words: &[u8], n: usize, row: &Row, a: Group) -> bool
    requires words { Words words.now n × GroupRow words.now n row.now }
    requires word_group { WordGroup words.now n a.first a.many a.depth a.longest a.mark }
    requires row_value { (row_node words.now row.now).letter ≡ get_or words.now (33 * a.first + a.depth) 0 }
    ensures { result ≡ same_node (row_node words.now row.now)
        (node_at words.now a.first a.many a.depth) }
{
    if row.mark_or_place as usize != a.mark {
        return false;
    }
    let many = row.many as usize;
    if many != a.many {
        return false;
    }
    let longest = row.longest as usize;
    if longest != a.longest {
        return false;
    }
    same_rests(
        words,
        row.first as usize,
        row.depth as usize,
        a.first,
        a.depth,
        many,
    )
}

// The place of the node of a group, looked for through the chain of its letter, if it is there.
fn find(
    words: &[u8],
    n: usize,
    rows: &[Row; 401],
    chains: &[u16; 256],
    count: usize,
    letter: u8,
    a: Group,
) -> Option<usize>
    requires words { Words words.now n × Register words.now n rows.now count }
    requires chained { Chained words.now rows.now chains.now count }
    requires word_group { WordGroup words.now n a.first a.many a.depth a.longest a.mark }
    requires letter_value { letter ≡ get_or words.now (33 * a.first + a.depth) 0 }
    ensures { Found words.now rows.now count
        (node_at words.now a.first a.many a.depth) result }
{
    let mut place = chains[letter as usize] as usize;
    while let Some(r) = place.checked_sub(1) {
        let row = &rows[r];
        if is_node(words, n, row, a) {
            return Some(r);
        }
        place = row.chain_or_number as usize;
    }
    None
}

// Puts the row of a group behind count rows, and at the head of the chain of its letter.
fn append(rows: &mut [Row; 401], chains: &mut [u16; 256], count: usize, letter: u8, a: Group)
    requires { (count < 400) × (a.first ≤ 2000) × (a.many ≤ 2000) × (a.depth ≤ 32) × (a.longest ≤ 32)
        × (a.mark < 65536) }
    ensures rows_after { rows.new ≡ set rows.old count (record {
      first = a.first;
      many = a.many;
      depth = a.depth;
      longest = a.longest;
      chain_or_number = get_or chains.old letter 0;
      mark_or_place = a.mark;
    }) }
    ensures chains_after { chains.new ≡ set chains.old letter (count + 1) }
{
    let chain = letter as usize;
    rows[count] = Row {
        first: a.first as u16,
        many: a.many as u16,
        depth: a.depth as u16,
        longest: a.longest as u16,
        chain_or_number: chains[chain],
        mark_or_place: a.mark as u16,
    };
    chains[chain] = (count + 1) as u16;
}

// Looks for the node of a group, through the chain of its letter, and registers it where it is not there. Answers its
// place, or none where it is new and there is no room.
pub(crate) fn enter(
    words: &[u8],
    n: usize,
    rows: &mut [Row; 401],
    chains: &mut [u16; 256],
    count: usize,
    a: Group,
) -> Option<usize>
    requires words { Words words.now n × Register words.now n rows.old count }
    requires chained { Chained words.now rows.old chains.old count }
    requires word_group { WordGroup words.now n a.first a.many a.depth a.longest a.mark }
    ensures { Entered words.now n rows.old count a.first a.many a.depth
        rows.new chains.new result }
{
    let at = 33 * a.first + a.depth;
    let letter = words[at];
    if let Some(r) = find(words, n, rows, chains, count, letter, a) {
        return Some(r);
    }
    if count == NODES {
        return None;
    }
    append(rows, chains, count, letter, a);
    Some(count)
}
