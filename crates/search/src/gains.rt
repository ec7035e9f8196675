// The gains of one frame's moves. A gain is what a move and the emission after it add to a token: the score of both, as
// a `Score`'s number, impossible where one of them is. The table of a frame has a row for each letter that some node
// has: the gain of each state's loop, and of the step into each state after the first. The first is entered over an
// arc, whose score is added there, so in the place of a step into it (steps[0]) the row has its emission alone.
ghost use Rattle.std.specs.Prelude.{◌≡◌, ◌+◌, ◌≤◌, ◌<◌, length, get_or};
ghost use Rattle.endian.specs.Bytes.{i16};
ghost use Rattle.voice.specs.Voice.{symbols_at};
ghost use Rattle.decoder.specs.Score.{number_of, possible};
ghost use Rattle.storing.specs.Gains.{NearBias, number_sum, LetterRow, GainRow, LetterTable, StatesRoom, GainsRoom};
ghost use Rattle.storing.specs.Gains.{Gained, KnownSymbol, StatePut, FirstPut, letter_in};
ghost use Rattle.storing.specs.Places.{VertexRows, NodesRead, EmissionsPut};

use crate::letters::score_at;
use checking::Vertex;
use decoder::score::{BIAS, Score};
use storing::{Letter, Moves};

// The score of a move and of the emission after it; impossible where one of them is.
fn gain(moved: Score, emission: Score) -> Score
    requires { NearBias moved.0 × NearBias emission.0 }
    ensures { result.0 ≡ number_sum moved.0 emission.0 }
{
    if moved.is_impossible() {
        return Score::IMPOSSIBLE;
    }
    if emission.is_impossible() {
        return Score::IMPOSSIBLE;
    }
    Score(moved.0 + emission.0 - BIAS)
}

// The emission at an offset inside the voice model, as a `Score`.
fn emission_at(voice: &[u8], at: usize) -> Score
    requires { at + 2 ≤ length voice.now }
    ensures { result.0 ≡ number_of (possible (i16 voice.now at)) }
{
    Score::from_stored(score_at(voice, at))
}

// Puts the gain of the loop of a letter's first state, and its emission.
fn first_gains(emission: Score, letter: &Moves, row: &mut Moves)
    requires { NearBias emission.0 × NearBias (get_or letter.now.loops 0 0) × StatesRoom row.old }
    ensures { FirstPut (number_sum (get_or letter.now.loops 0 0) emission.0) emission.0 row.new }
{
    let stay = gain(Score(letter.loops[0]), emission);
    row.loops[0] = stay.0;
    row.steps[0] = emission.0;
}

// Puts the gains of a later state: of its loop, and of the step into it.
fn state_gains(emission: Score, s: usize, letter: &Moves, row: &mut Moves)
    requires s_bound { (s < 4) × NearBias emission.0 × StatesRoom row.old }
    requires near_bias { NearBias (get_or letter.now.loops s 0) × NearBias (get_or letter.now.steps s 0) }
    ensures { StatePut row.old s (number_sum (get_or letter.now.loops s 0) emission.0)
        (number_sum (get_or letter.now.steps s 0) emission.0) row.new }
{
    let stay = gain(Score(letter.loops[s]), emission);
    let step = gain(Score(letter.steps[s]), emission);
    row.loops[s] = stay.0;
    row.steps[s] = step.0;
}

// Puts the row of one letter, by its row in the call's table, at a frame of symbol k; `at` is the offset of the section
// Symbols. It is made in its place, since a row that is returned would be copied.
fn letter_gains(voice: &[u8], at: usize, k: usize, letter: &Letter, row: &mut Moves)
    requires known_symbol { KnownSymbol voice.now k × (at ≡ symbols_at voice.now) }
    requires letter_row { LetterRow voice.now letter.now × StatesRoom row.old }
    ensures { GainRow voice.now k (letter_in letter.now) row.new
        × StatesRoom row.new }
{
    let index = letter.index as usize;
    let first = letter.first_state as usize;
    let symbols = voice[at] as usize;
    let states = voice[2 + 2 * index] as usize;
    let mut offset = at + 1 + 2 * (first * symbols + k);
    first_gains(emission_at(voice, offset), &letter.moves, row);
    for s in 1..states {
        // the next state's emission of k
        offset += 2 * symbols;
        let emission = emission_at(voice, offset);
        state_gains(emission, s, &letter.moves, row);
    }
}

// The table of a frame of symbol k, for the first `used` letters of the call's table; `at` as above.
pub(crate) fn frame_gains(
    voice: &[u8],
    at: usize,
    k: usize,
    letters: &[Letter; 64],
    used: usize,
    gains: &mut [Moves; 64],
)
    requires known_symbol { KnownSymbol voice.now k × (at ≡ symbols_at voice.now) }
    requires letter_table { LetterTable voice.now used letters.now × GainsRoom gains.old }
    ensures { Gained voice.now k letters.now used gains.new }
{
    for letter in &letters[..used] {
        let index = letter.index as usize;
        letter_gains(voice, at, k, letter, &mut gains[index]);
    }
}

// Puts the emission of each node's first state at the frame into the table of vertices, so that an arc finds it there,
// with all else that it asks of the vertex that it leads to.
pub(crate) fn put_emissions(
    lexicon: &[u8],
    nodes: usize,
    gains: &[Moves; 64],
    vertices: &mut [Vertex; 402],
)
    requires { NodesRead lexicon.now nodes × VertexRows vertices.old }
    ensures { EmissionsPut lexicon.now gains.now vertices.old
        vertices.new }
{
    for node in 1..nodes + 1 {
        let letter = lexicon[1 + node] as usize;
        vertices[node].emission = gains[letter].steps[0];
    }
}
