// The voice model of document 01: how its bytes are judged, field by field. Its definitions are in specs/.
#![tactic(auto)]

ghost use Rattle.std.specs.Prelude.{◌≡◌, ◌&&◌, ◌||◌, ◌<◌, eqb, length};
ghost use Rattle.endian.specs.Lists.{within};
ghost use Rattle.endian.specs.Bytes.{u8};
ghost use Rattle.call.specs.Table.{refusal_of};
ghost use Rattle.voice.specs.Fields.{well_formed, verdict_of, verdict};
ghost use Rattle.voice.specs.Voice.{print_byte, rising, letter_fields, links_at};
ghost use Rattle.voice.specs.Voice.{voice_verdict, voice_refused};
ghost use Rattle.voice.specs.Sections.{field_verdict, first_bad, letters_part, states_part, last_part};

use call::{Refusal, inside};
use endian::u16_at;

// Why an image is not well formed.
#[derive(Clone, Copy)]
pub enum Fault {
    // the bytes end inside a field, or go on after the last
    WrongLength,
    // a field is out of its range
    OutOfRange,
}

// A byte past the end reads as 0: whether a field is there is judged by its length alone.
fn byte_at(voice: &[u8], at: usize) -> u8
    ensures { result ≡ u8 voice.now at }
{
    voice.get(at).copied().unwrap_or(0)
}

// One field, from where its bytes end: that they are missing comes before its range.
fn judge_field(len: usize, end: usize, in_range: bool) -> Result<(), Fault>
    ensures { verdict_of result ≡ field_verdict len end in_range }
{
    if len < end {
        return Err(Fault::WrongLength);
    }
    if !in_range {
        return Err(Fault::OutOfRange);
    }
    Ok(())
}

// Print bytes are 33 to 126 and strictly rising.
fn good_print(voice: &[u8], i: usize) -> bool
    requires { i < 256 }
    ensures { result ≡ within 33 126 (print_byte voice.now i) && rising voice.now i }
{
    let print = byte_at(voice, 1 + 2 * i);
    if !inside(print as usize, 33, 126) {
        return false;
    }
    if i == 0 {
        return true;
    }
    byte_at(voice, 2 * i - 1) < print
}

fn judge_letter(voice: &[u8], i: usize) -> Result<(), Fault>
    requires { i < 256 }
    ensures { verdict_of result ≡ first_bad (length voice.now) (letter_fields voice.now i) }
{
    judge_field(voice.len(), 2 + 2 * i, good_print(voice, i))?;
    let states = byte_at(voice, 2 + 2 * i);
    judge_field(voice.len(), 3 + 2 * i, inside(states as usize, 1, 4))
}

// The letters, and S with them: its range is the sum of their states, which are added up on the way.
fn judge_letters(voice: &[u8]) -> Result<(), Fault>
    ensures { verdict_of result ≡ first_bad (length voice.now) (letters_part voice.now) }
{
    let letters = byte_at(voice, 0) as usize;
    judge_field(voice.len(), 1, inside(letters, 1, 64))?;
    let mut sum = 0;
    for i in 0..letters {
        judge_letter(voice, i)?;
        sum += byte_at(voice, 2 + 2 * i) as usize;
    }
    let at = 1 + 2 * letters;
    judge_field(voice.len(), at + 2, u16_at(voice, at) as usize == sum)
}

// The states of a letter are judged as one field: of their scores only the last, a step, has a range. Good letters have
// a state each, so that there is a last one.
fn judge_states(voice: &[u8]) -> Result<(), Fault>
    requires { first_bad (length voice.now) (letters_part voice.now) ≡ well_formed }
    ensures { verdict_of result ≡ first_bad (length voice.now) (states_part voice.now) }
{
    let letters = byte_at(voice, 0) as usize;
    let mut end = 3 + 2 * letters;
    for i in 0..letters {
        end += 4 * (byte_at(voice, 2 + 2 * i) as usize);
        judge_field(voice.len(), end, u16_at(voice, end - 2) == 0)?;
    }
    Ok(())
}

// The number of links is 1 or L.
fn good_link_count(letters: u8, count: u8) -> bool
    ensures { result ≡ eqb count 1 || eqb count letters }
{
    count == 1 || count == letters
}

// Links and symbols. The link scores have no range, so they are judged with K behind them; the emissions have none, so
// only the image's length is left.
fn judge_last(voice: &[u8]) -> Result<(), Fault>
    ensures { verdict_of result ≡ verdict (length voice.now) (links_at voice.now)
        (last_part voice.now) }
{
    let letters = byte_at(voice, 0);
    let states_at = 1 + 2 * (letters as usize);
    let states = u16_at(voice, states_at) as usize;
    let links_at = states_at + 2 + 4 * states;
    let links = byte_at(voice, links_at);
    judge_field(voice.len(), links_at + 1, good_link_count(letters, links))?;
    let symbols_at = links_at + 1 + 2 * (links as usize);
    let symbols = byte_at(voice, symbols_at);
    judge_field(voice.len(), symbols_at + 1, inside(symbols as usize, 1, 64))?;
    let end = symbols_at + 1 + 2 * (states * (symbols as usize));
    if end == voice.len() {
        Ok(())
    } else {
        Err(Fault::WrongLength)
    }
}

// All fields, section by section.
fn judge_fields(voice: &[u8]) -> Result<(), Fault>
    ensures { verdict_of result ≡ voice_verdict voice.now }
{
    judge_letters(voice)?;
    judge_states(voice)?;
    judge_last(voice)
}

// Whether any bytes are a well-formed voice model; if not, 2 or 3.
pub fn judge(voice: &[u8]) -> Result<(), Refusal>
    ensures { refusal_of result ≡ voice_refused voice.now }
{
    match judge_fields(voice) {
        Ok(()) => Ok(()),
        Err(Fault::WrongLength) => Err(Refusal::VoiceLength),
        Err(Fault::OutOfRange) => Err(Refusal::VoiceRange),
    }
}
