// What is read once a call. A table of the letters that some node has, a row each: the scores of the letter's moves as
// `Score`s' numbers, its index, and the number of its first state. Document 01 has a letter's scores handled as four
// pairs of loop and step; the step of its last state is never taken, since a word goes on by the letter's link or ends.
// And a table of the links, by letter.
ghost use Rattle.std.specs.Prelude.{◌≡◌, true, cond, [], ◌∷◌, ◌+◌, ◌-◌, ◌≤◌, ◌<◌, length};
ghost use Rattle.endian.specs.Bytes.{i16};
ghost use Rattle.voice.specs.Fields.{well_formed};
ghost use Rattle.voice.specs.Voice.{letter_count, links_at, link_score, state_count, symbols_at, impossible};
ghost use Rattle.voice.specs.Voice.{voice_verdict};
ghost use Rattle.lexicon.specs.Lexicon.{node_count, lexicon_verdict};
ghost use Rattle.checking.specs.Tables.{WellFormed, FewLetters};
ghost use Rattle.storing.specs.Gains.{letter_pairs, pair_score, StoredPairs, LettersMarked, AtLetter, LetterRow};
ghost use Rattle.storing.specs.Gains.{StatesRoom, LettersRoom, LinkTable, NodeLetters, StatePut, letter_in};

use decoder::score::{STORED_IMPOSSIBLE, Score};
use endian::{i16_of, u16_at};
use storing::{Letter, Moves};

// The score of a state's loop (0) or of the step out of it (1), from its letter's pairs: a place in a pair, as the
// pairs are arrays, and no kind.
fn move_score(pairs: [[i16; 2]; 4], state: usize, which: usize) -> Score
    requires state_bound { (state < 4) × (which < 2) }
    requires stored_pairs { StoredPairs pairs }
    ensures { result.0 ≡ pair_score pairs state which }
{
    Score::from_stored(pairs[state][which])
}

// The score at an offset inside the voice model.
pub(crate) fn score_at(voice: &[u8], at: usize) -> i16
    requires { at + 2 ≤ length voice.now }
    ensures { result ≡ i16 voice.now at }
{
    i16_of(voice[at], voice[at + 1])
}

// The loop and step of a state, which begin at an offset; both impossible where there is no such state.
fn pair_at(voice: &[u8], at: usize, there: bool) -> [i16; 2]
    requires { there ≡ true → at + 4 ≤ length voice.now }
    ensures { result ≡ cond there (i16 voice.now at ∷ i16 voice.now (at + 2) ∷ [])
        (impossible ∷ impossible ∷ []) }
{
    if there {
        return [score_at(voice, at), score_at(voice, at + 2)];
    }
    [STORED_IMPOSSIBLE, STORED_IMPOSSIBLE]
}

// The scores of a letter whose states begin with number `first`: four pairs of loop and step.
fn letter_pairs(voice: &[u8], first: usize, states: usize) -> [[i16; 2]; 4]
    requires voice_value { voice_verdict voice.now ≡ well_formed }
    requires states_bound { first + states ≤ state_count voice.now }
    ensures { result ≡ letter_pairs voice.now first states }
{
    let at = 3 + 2 * (voice[0] as usize) + 4 * first;
    let first_pair = pair_at(voice, at, 0 < states);
    let second_pair = pair_at(voice, at + 4, 1 < states);
    let third_pair = pair_at(voice, at + 8, 2 < states);
    let fourth_pair = pair_at(voice, at + 12, 3 < states);
    [first_pair, second_pair, third_pair, fourth_pair]
}

// Where the section Links begins: after the letters, the number of all states (two bytes) and their pairs.
fn links_at(voice: &[u8]) -> usize
    requires { voice_verdict voice.now ≡ well_formed }
    ensures { result ≡ links_at voice.now }
{
    let states_at = 1 + 2 * (voice[0] as usize);
    states_at + 2 + 4 * (u16_at(voice, states_at) as usize)
}

// Where the section Symbols begins: after the number of links (one byte) and the links.
pub(crate) fn symbols_at(voice: &[u8]) -> usize
    requires { voice_verdict voice.now ≡ well_formed }
    ensures { result ≡ symbols_at voice.now }
{
    let at = links_at(voice);
    at + 1 + 2 * (voice[at] as usize)
}

// The link of a letter: the one score for all, or its own; `at` is the offset of the section Links.
fn link_score(voice: &[u8], at: usize, letter: usize) -> i16
    requires voice_value { (voice_verdict voice.now ≡ well_formed) × (at ≡ links_at voice.now) }
    requires letter_bound { letter < letter_count voice.now }
    ensures { result ≡ link_score voice.now letter }
{
    if voice[at] == 1 {
        return score_at(voice, at + 1);
    }
    score_at(voice, at + 1 + 2 * letter)
}

// The links of all letters, by letter, as `Score`s' numbers: a node's turn takes that of its own letter in one read.
pub(crate) fn link_table(voice: &[u8]) -> [u32; 64]
    requires { voice_verdict voice.now ≡ well_formed }
    ensures { LinkTable voice.now (letter_count voice.now) result }
{
    let mut links = [0; 64];
    let at = links_at(voice);
    let letters = voice[0] as usize;
    for letter in 0..letters {
        let link = Score::from_stored(link_score(voice, at, letter));
        links[letter] = link.0;
    }
    links
}

// Marks each letter that some node has.
fn mark_letters(lexicon: &[u8], marks: &mut [bool; 64])
    requires well_formed { WellFormed lexicon.now × FewLetters lexicon.now }
    requires letters_marked { LettersMarked lexicon.now 0 marks.old }
    ensures { LettersMarked lexicon.now (node_count lexicon.now) marks.new }
{
    let nodes = u16_at(lexicon, 0) as usize;
    // of node 1, which is the first, and of those after it
    for letter in &lexicon[2..2 + nodes] {
        marks[*letter as usize] = true;
    }
}

// Puts one state's scores: of its loop, and of the step from the state before it.
fn state_scores(pairs: [[i16; 2]; 4], s: usize, row: &mut Moves)
    requires s_bound { (s < 4) × StatesRoom row.old }
    requires stored_pairs { StoredPairs pairs }
    ensures { StatePut row.old s (pair_score pairs s 0) (pair_score pairs (s - 1) 1)
        row.new }
{
    let stay = move_score(pairs, s, 0);
    row.loops[s] = stay.0;
    if 0 < s {
        let step = move_score(pairs, s - 1, 1);
        row.steps[s] = step.0;
    }
}

// Puts the row of one letter, whose states begin with number `first`. It is made in its place, since a row that is
// returned would be copied. What the row holds for states that the letter does not have is never read.
fn letter_row(voice: &[u8], letter: usize, first: u16, row: &mut Letter)
    requires { AtLetter voice.now letter first × StatesRoom row.old.moves }
    ensures { LetterRow voice.now row.new × (letter_in row.new ≡ letter) }
{
    let states = voice[2 + 2 * letter] as usize;
    let pairs = letter_pairs(voice, first as usize, states);
    row.index = letter as u32;
    row.first_state = first as u32;
    for s in 0..states {
        state_scores(pairs, s, &mut row.moves);
    }
}

// Fills the table with the letters in use, in rising order; answers how many.
pub(crate) fn letter_table(voice: &[u8], lexicon: &[u8], letters: &mut [Letter; 64]) -> usize
    requires voice_value { (voice_verdict voice.now ≡ well_formed)
        × (lexicon_verdict (letter_count voice.now) lexicon.now
        ≡ well_formed) }
    requires rows_room { LettersRoom letters.old }
    ensures { NodeLetters voice.now lexicon.now result letters.new }
{
    let mut marks = [false; 64];
    mark_letters(lexicon, &mut marks);
    let count = voice[0] as usize;
    let mut used = 0;
    let mut first: u16 = 0;
    for letter in 0..count {
        if marks[letter] {
            letter_row(voice, letter, first, &mut letters[used]);
            used += 1;
        }
        first += voice[2 + 2 * letter] as u16;
    }
    used
}
