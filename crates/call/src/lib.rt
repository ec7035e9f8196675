// What every call has: the refusals, the answer, the test of a limit, and the work space.
#![tactic(auto)]

ghost use Rattle.std.specs.Prelude.{◌≡◌, length, replicate};
ghost use Rattle.endian.specs.Lists.{within};
ghost use Rattle.call.specs.Table.{number};
ghost use Rattle.call.specs.Buffers.{cleared};

// The least work space of a call with a lexicon; refusal 1 below it.
pub const WORK_SPACE: usize = 64000;

// The least further work space of a call that is lent two; refusal 1 below it.
pub const FURTHER_SPACE: usize = 262144;

// The refusals, in the order of the tables of documents 01 and 02.
#[derive(Clone, Copy)]
pub enum Refusal {
    // 1: work space under 64,000 bytes, or a further one under 262,144
    WorkSpace = 1,
    // 2: voice model ends inside a field, or has bytes after its last
    VoiceLength = 2,
    // 3: voice model field out of its range
    VoiceRange = 3,
    // 4: lexicon ends inside a field, or has bytes after its last
    LexiconLength = 4,
    // 5: lexicon field out of its range
    LexiconRange = 5,
    // 6: a node that is nobody's successor
    Orphan = 6,
    // 7: more than 1,000 places
    Places = 7,
    // 8: a word of more than 32 letters
    LongWord = 8,
    // 9: W above 1,048,576; where W is given, also 0
    WordCount = 9,
    // 10: two different full paths with the same letters
    SameLetters = 10,
    // 11: T 0 or above 1,000, or a symbol not below K
    Frames = 11,
    // 12: n, or the number of codes, not 1 to 8
    Count = 12,
    // 13: the bytes given spell no word
    NoWord = 13,
    // 14: packed bytes of the wrong length, or a padding bit set
    Packed = 14,
    // 15: a code not below W
    Code = 15,
    // 16: output too short
    Output = 16,
    // 17: over 2,000 words or 16,000 letters in all
    WordList = 17,
    // 18: a canonical image outside the limits on nodes, arcs or places
    CanonicalImage = 18,
    // 19: an item that runs past the end, or over 1,000 items
    Items = 19,
}

impl Refusal {
    // The number of the table. A method and no `From`: it is the number that documents name.
    pub fn number(self) -> u8
        ensures { result ≡ number self }
    {
        self as u8
    }
}

// Whether a number keeps its limits, both of them included.
pub fn inside(x: usize, low: usize, high: usize) -> bool
    ensures { result ≡ within low high x }
{
    if x < low {
        return false;
    }
    x <= high
}

// Makes a lent part zero.
pub fn zero(part: &mut [u8])
    ensures { part.new ≡ replicate (length part.old) 0 }
{
    part.fill(0);
}

// The work space as every call leaves it that refusal 1 does not end; a shorter one stays as it is.
pub fn clear(work: &mut [u8])
    ensures { work.new ≡ cleared work.old }
{
    if work.len() < WORK_SPACE {
        return;
    }
    zero(&mut work[0..WORK_SPACE]);
}
