// The sink of a lexicon, where the list of each vertex begins in the image, and both handed on together.
ghost use Rattle.std.specs.Prelude.{◌≡◌, ◌+◌, ◌≤◌, ◌<◌, length, replicate};
ghost use Rattle.lexicon.specs.Lexicon.{node_count, sink_of, arcs_at};
ghost use Rattle.checking.specs.Tables.{TableOf, WellFormed, WithOffsets, SuccessorPairs};

use endian::{u16_at, u16_of};

// A well-formed lexicon with the table of where its lists begin.
#[derive(Clone, Copy)]
pub(crate) struct Lists<'a> {
    pub lexicon: &'a [u8],
    pub offsets: &'a [u16; 402],
    // Truncated, since the fact holds a number: the letters for which the lexicon is well formed.
    ghost located: { ∥ WithOffsets lexicon.now offsets.now ∥₁ },
}

impl<'a> Lists<'a> {
    pub(crate) fn sink(self) -> usize
        ensures value { result ≡ sink_of self.entry.lexicon.now }
        ensures few { (0 < result) × (result < 402) }
    {
        sink_of(self.lexicon)
    }

    // The successors of a vertex, two bytes each. The list is there, so it is read without the tests of `list_at`,
    // which every pair of nodes would pay for.
    pub(crate) fn successors(self, vertex: usize) -> &'a [[u8; 2]]
        requires { vertex ≤ node_count self.lexicon.now }
        ensures { SuccessorPairs self.entry.lexicon.now vertex result.now }
    {
        let at = self.offsets[vertex] as usize;
        let count = u16_of(self.lexicon[at], self.lexicon[at + 1]) as usize;
        let start = at + 2;
        let end = start + 2 * count;
        let (pairs, _) = self.lexicon[start..end].as_chunks::<2>();
        pairs
    }
}

// The sink, which comes after the nodes.
pub(crate) fn sink_of(lexicon: &[u8]) -> usize
    requires { WellFormed lexicon.now }
    ensures value { result ≡ sink_of lexicon.now }
    ensures few { (0 < result) × (result < 402) }
    ensures letters_there { 1 + result ≤ length lexicon.now }
{
    u16_at(lexicon, 0) as usize + 1
}

// Where the list of each vertex begins, with its count.
pub(crate) fn find_offsets(lexicon: &[u8], offsets: &mut [u16; 402])
    requires { WellFormed lexicon.now × (offsets.old ≡ replicate 402 0) }
    ensures { TableOf (sink_of lexicon.now) (arcs_at lexicon.now) offsets.new }
{
    let sink = sink_of(lexicon);
    let mut at = 1 + sink;
    for u in 0..sink {
        offsets[u] = at as u16;
        at += 2 + 2 * u16_at(lexicon, at) as usize;
    }
}
