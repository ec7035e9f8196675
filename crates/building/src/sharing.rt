// How many letters each word begins with like the word before it, and the words that share a prefix.
ghost use Rattle.std.specs.Prelude.{◌≡◌, ◌*◌, ◌+◌, ◌≤◌, ◌<◌, max, min, length, get_or};
ghost use Rattle.canonical.specs.Groups.{common};
ghost use Rattle.sorting.specs.Slots.{word_at, Holds};
ghost use Rattle.registering.specs.Register.{Words, Shared, Group as WordGroup, previous};

// The words with the first depth letters of the word in slot first, which is the first of them, the letters of the
// longest continuation, and the mark of the continuations.
#[derive(Clone, Copy)]
pub(crate) struct Group {
    pub first: usize,
    pub many: usize,
    pub depth: usize,
    pub longest: usize,
    pub mark: usize,
}

// How many letters the word in slot i and the one before it both begin with.
fn common_letters(words: &[u8], i: usize) -> u8
    requires { Holds words.now (i + 1) }
    ensures { result ≡ common (previous words.now i) (word_at words.now i) }
{
    if i == 0 {
        return 0;
    }
    let before = 33 * (i - 1);
    let here = 33 * i;
    let most = words[before].min(words[here]);
    for d in 0..most {
        let next = d as usize + 1;
        if words[before + next] != words[here + next] {
            return d;
        }
    }
    most
}

// Fills the table of shared letters: of the first word 0.
pub(crate) fn share(words: &[u8], n: usize, shared: &mut [u8])
    requires { Words words.now n × (n ≤ length shared.old) }
    ensures { Shared words.now n shared.new }
{
    for i in 0..n {
        shared[i] = common_letters(words, i);
    }
}

// The group of the first d letters of the word in slot i, where d is more than it shares with the word before it.
pub(crate) fn group_of(words: &[u8], shared: &[u8], n: usize, i: usize, d: usize) -> Group
    requires words { Words words.now n × Shared words.now n shared.now }
    requires i_lt_n { (i < n) × (get_or shared.now i 0 < d) × (d ≤ get_or words.now (33 * i) 0) }
    ensures { (result.first ≡ i) × (result.depth ≡ d)
        × WordGroup words.now n i result.many d result.longest result.mark }
{
    let mut letters = words[33 * i];
    let mut mark = words[33 * (2001 + i) + d] as usize;
    let mut many = 1;
    for k in i + 1..n {
        if (shared[k] as usize) < d {
            break;
        }
        letters = letters.max(words[33 * k]);
        mark = (91 * mark + words[33 * (2001 + k) + d] as usize) % 65536;
        many += 1;
    }
    Group {
        first: i,
        many,
        depth: d,
        longest: letters as usize - d,
        mark,
    }
}
