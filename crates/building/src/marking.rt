// Marks of what follows a word's first letters, by which nodes are told apart before any letters are compared.
ghost use Rattle.std.specs.Prelude.{◌≤◌, ◌<◌, length};
ghost use Rattle.sorting.specs.Slots.{Slot};
ghost use Rattle.registering.specs.Register.{Listed};
ghost use Rattle.registering.specs.Marking.{WordMarked, WordsMarked};

// Puts the marks of the word in slot i into slot 2001 + i, from the last down: each is made from the next.
fn mark_word(words: &mut [u8], i: usize)
    requires { Slot words.old i × (i < 2000) × (132033 ≤ length words.old) }
    ensures { WordMarked words.old i 0 words.new }
{
    let from = 33 * i;
    let to = 33 * (2001 + i);
    let mut mark = 1;
    for d in (0..words[from] as usize).rev() {
        words[to + 1 + d] = mark as u8;
        mark = (37 * mark + words[from + 1 + d] as u32) % 256;
    }
    words[to] = mark as u8;
}

// Puts the marks of n words behind them.
pub(crate) fn mark_words(words: &mut [u8], n: usize)
    requires { Listed words.old n × (132033 ≤ length words.old) }
    ensures { WordsMarked words.old n words.new }
{
    for i in 0..n {
        mark_word(words, i);
    }
}
