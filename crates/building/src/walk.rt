// The prefixes in dictionary order, each looked for once; where its node is known, the run of its words is passed over.
ghost use Rattle.std.specs.Prelude.{◌≡◌, ◌<◌, length, MatchOption};
ghost use Rattle.registering.specs.Register.{Words, Shared, Register, Chained, Full, Built};
ghost use Rattle.registering.specs.Walking.{Walked, Passed};

use crate::register::enter;
use crate::sharing::group_of;
use registering::Row;

// Where the links of words begin, behind those of nodes.
pub(crate) const WORD_LINKS: usize = 400;

// How many nodes there are, and the word to go on with.
#[derive(Clone, Copy)]
struct Progress {
    count: usize,
    next: usize,
}

// Registers and links the nodes of the prefixes that the word in slot i is the first to have, up to one that is known,
// whose run of words is passed over. The place of each node found is put into the link before it: of the word itself,
// then of the node registered last. Answers none where there is no room for a node more.
fn walk_word(
    words: &[u8],
    n: usize,
    shared: &[u8],
    rows: &mut [Row; 401],
    chains: &mut [u16; 256],
    links: &mut [u16; 2400],
    count: usize,
    i: usize,
) -> Option<Progress>
    requires words { Words words.now n × Shared words.now n shared.now × (i < n) }
    requires walked { Walked words.now n shared.now rows.old chains.old links.old count i }
    ensures { MatchOption result (Full words.now n)
        (λ p. Passed words.now n shared.now rows.new chains.new links.new i p.count p.next) }
{
    let letters = words[33 * i] as usize;
    let mut link = WORD_LINKS + i;
    let mut total = count;
    for d in shared[i] as usize..letters {
        let a = group_of(words, shared, n, i, d + 1);
        let r = enter(words, n, rows, chains, total, a)?;
        links[link] = r as u16;
        if r < total {
            return Some(Progress {
                count: total,
                next: i + a.many,
            });
        }
        total += 1;
        link = r;
    }
    Some(Progress {
        count: total,
        next: i + 1,
    })
}

// Registers and links the nodes of all prefixes, and answers how many there are, or none where there is no room.
pub(crate) fn walk_all(
    words: &[u8],
    n: usize,
    shared: &[u8],
    rows: &mut [Row; 401],
    chains: &mut [u16; 256],
    links: &mut [u16; 2400],
) -> Option<usize>
    requires words { Words words.now n × Shared words.now n shared.now }
    requires register { Register words.now n rows.old 0 × Chained words.now rows.old chains.old 0 }
    requires links_len { length links.old ≡ 2400 }
    ensures { MatchOption result (Full words.now n)
        (λ count. Built words.now n shared.now rows.new links.new count) }
{
    let mut i = 0;
    let mut count = 0;
    // a loop by hand: runs of words are passed over, so the step differs from turn to turn
    while i < n {
        let progress = walk_word(words, n, shared, rows, chains, links, count, i)?;
        count = progress.count;
        i = progress.next;
    }
    Some(count)
}
