// Refusal 10: two different full paths with the same letters. The paths part at some vertex, into two successors that
// have something in common: ways to the sink with the same letters. Which vertices have something in common is kept in
// a table of bits, filled from vertex N down. Two nodes can have something in common only if their letters are the
// same, so the nodes of a letter are chained: `firsts` has each letter's first node, `nexts` the next after each node,
// and the sink stands for none: Options would take twice the stack, of which a call has 16 KiB.
ghost use Rattle.std.specs.Prelude.{◌≡◌, suc, ◌+◌, ◌*◌, ◌≤◌, ◌<◌, length, true, MatchOption};
ghost use Rattle.endian.specs.Lists.{any};
ghost use Rattle.call.specs.Buffers.{zeroed};
ghost use Rattle.lexicon.specs.Lexicon.{node_count, node_letter, successors};
ghost use Rattle.graph.specs.Graph.{graph_of};
ghost use Rattle.graph.specs.Conditions.{same_letters};
ghost use Rattle.checking.specs.Bits.{bit, BitSet, Joined};
ghost use Rattle.checking.specs.Pairs.{clash_at};
ghost use Rattle.checking.specs.PairTable.{PairsMarked, MaskOf, Gathered, PairSet, RowDone, Chains, RowParts};
ghost use Rattle.checking.specs.PairTable.{PairsAsked};

use crate::offsets::Lists;
use call::zero;
use endian::number_of;

// The bytes of a row: a bit for each vertex.
const ROW: usize = 51;

// Its bits.
const ROW_BITS: usize = 408;

// The most bytes of the table: a row for each vertex.
pub(crate) const PAIR_BYTES: usize = 20502;

fn has_bit(mask: &[u8; 51], i: usize) -> bool
    requires { i < 408 }
    ensures { result ≡ bit mask.now i }
{
    let k = (i % 8) as u32;
    (mask[i / 8] >> k) % 2 == 1
}

fn set_bit(pairs: &mut [u8], i: usize)
    requires { i < 8 * length pairs.old }
    ensures { BitSet i pairs.old pairs.new }
{
    let k = (i % 8) as u32;
    pairs[i / 8] |= 1 << k;
}

// Joins the row at an offset to the mask.
fn join_row(mask: &mut [u8; 51], pairs: &[u8], at: usize)
    requires { (length mask.old ≡ 51) × (at + 51 ≤ length pairs.now) }
    ensures { Joined mask.old pairs.now at mask.new }
{
    for (i, byte) in mask.iter_mut().enumerate() {
        *byte |= pairs[at + i];
    }
}

// The mask of the rows of u's successors, or none if one of them has something in common with an earlier one.
fn gather(lists: Lists, u: usize, pairs: &[u8]) -> Option<[u8; 51]>
    requires { (u ≤ node_count lists.lexicon.now) × PairsMarked (graph_of lists.lexicon.now) (suc u) pairs.now }
    ensures { MatchOption result (clash_at (graph_of lists.entry.lexicon.now) u ≡ true)
        (Gathered (graph_of lists.entry.lexicon.now) u) }
{
    let mut mask = [0; 51];
    for &pair in lists.successors(u) {
        let s = number_of(pair) as usize;
        if has_bit(&mask, s) {
            return None;
        }
        join_row(&mut mask, pairs, s * ROW);
    }
    Some(mask)
}

// Some successor of v has its bit in the mask.
fn meets_mask(lists: Lists, v: usize, mask: &[u8; 51]) -> bool
    requires { v ≤ node_count lists.lexicon.now }
    ensures { result ≡ any (bit mask.now) (successors lists.entry.lexicon.now v) }
{
    for &pair in lists.successors(v) {
        if has_bit(mask, number_of(pair) as usize) {
            return true;
        }
    }
    false
}

// Marks the pair of u and v, two nodes with the same letter, both ways, if they have something in common.
fn mark_pair(lists: Lists, u: usize, v: usize, mask: &[u8; 51], pairs: &mut [u8])
    requires { (u ≤ node_count lists.lexicon.now) × (v ≤ node_count lists.lexicon.now)
        × (length pairs.old ≡ 20502) }
    ensures { PairSet u v (any (bit mask.now) (successors lists.entry.lexicon.now v))
        pairs.old pairs.new }
{
    if meets_mask(lists, v, mask) {
        set_bit(pairs, u * ROW_BITS + v);
        set_bit(pairs, v * ROW_BITS + u);
    }
}

// Marks the pair of u with itself, and those with the later nodes of its letter: of the vertices from u on, it can have
// something in common with no other.
fn mark_row(lists: Lists, nexts: &[u16; 402], u: usize, mask: &[u8; 51], pairs: &mut [u8])
    requires row_parts { RowParts lists.lexicon.now nexts.now u pairs.old }
    requires mask_of { MaskOf (graph_of lists.lexicon.now) u mask.now }
    ensures { PairsMarked (graph_of lists.entry.lexicon.now) u pairs.new }
{
    let sink = lists.sink();
    set_bit(pairs, u * ROW_BITS + u);
    let mut v = nexts[u] as usize;
    // the chain says where it ends, so no range counts its nodes
    while v < sink {
        mark_pair(lists, u, v, mask, pairs);
        v = nexts[v] as usize;
    }
}

// Whether two successors of u have something in common; if not, the pairs with u are marked.
fn add_row(lists: Lists, nexts: &[u16; 402], u: usize, pairs: &mut [u8]) -> bool
    requires { RowParts lists.lexicon.now nexts.now u pairs.old }
    ensures { RowDone (graph_of lists.entry.lexicon.now) u pairs.new result }
{
    let Some(mask) = gather(lists, u, &pairs[..]) else {
        return true;
    };
    mark_row(lists, nexts, u, &mask, pairs);
    false
}

// Puts node u at the beginning of its letter's chain, in which the nodes above it are.
fn chain_node(lists: Lists, u: usize, firsts: &mut [u16; 64], nexts: &mut [u16; 402])
    requires { (u ≤ node_count lists.lexicon.now) × (node_letter lists.lexicon.now u < 64)
        × Chains (graph_of lists.lexicon.now) (suc u) firsts.old nexts.old }
    ensures { Chains (graph_of lists.entry.lexicon.now) u firsts.new nexts.new }
{
    let letter = lists.lexicon[1 + u] as usize;
    nexts[u] = firsts[letter];
    firsts[letter] = u as u16;
}

// The pair of the sink with itself alone is marked. No row after the sink's is ever read, so only those up to it are
// made zero.
fn begin_table(sink: usize, pairs: &mut [u8])
    requires { (sink < 402) × (length pairs.old ≡ 20502) }
    ensures { BitSet (sink * 408 + sink) (zeroed (51 * (sink + 1)) pairs.old) pairs.new }
{
    zero(&mut pairs[0..ROW * (sink + 1)]);
    set_bit(pairs, sink * ROW_BITS + sink);
}

// Chains the nodes and adds their rows, from node N down, until one finds two successors with something in common. The
// root has no letter, so it needs no row.
pub(crate) fn has_same_letters(lists: Lists, pairs: &mut [u8]) -> bool
    requires { PairsAsked lists.lexicon.now pairs.old }
    ensures value { result ≡ same_letters (graph_of lists.entry.lexicon.now) }
    ensures pairs_len_unchanged { length pairs.new ≡ length pairs.old }
{
    let sink = lists.sink();
    begin_table(sink, pairs);
    let mut firsts = [sink as u16; 64];
    let mut nexts = [0; 402];
    for u in (1..sink).rev() {
        chain_node(lists, u, &mut firsts, &mut nexts);
        if add_row(lists, &nexts, u, pairs) {
            return true;
        }
    }
    gather(lists, 0, &pairs[..]).is_none()
}
