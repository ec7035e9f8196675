// What the search tests once the images are accepted: rows 11, 12 and 16 of document 01's refusal table.
ghost use Rattle.std.specs.Prelude.{◌≡◌, ◌||◌, leb, length};
ghost use Rattle.endian.specs.Lists.{any};
ghost use Rattle.call.specs.Limits.{bad_frame_count};
ghost use Rattle.call.specs.Table.{answer_of, unless};
ghost use Rattle.voice.specs.Fields.{well_formed};
ghost use Rattle.voice.specs.Voice.{voice_verdict};
ghost use Rattle.search.specs.Calling.{call_rows};

use crate::letters::symbols_at;
use call::{Refusal, inside};
use ranking::FRAMES;

// The most frames of a call (row 11).
const LONGEST: usize = FRAMES as usize;

// The most hits of a list (row 12).
const HITS: usize = 8;

// Whether the number of frames is out of its limits, or some frame's symbol is not below the number of symbols.
fn has_bad_frames(symbols: u8, frames: &[u8]) -> bool
    ensures { result
        ≡ (bad_frame_count (length frames.now) || any (λ k. leb symbols k) frames.now) }
{
    if !inside(frames.len(), 1, LONGEST) {
        return true;
    }
    frames.iter().any(|symbol| symbols <= *symbol)
}

// The first row that applies, if one does.
pub(crate) fn judge_call(voice: &[u8], frames: &[u8], n: u32, out: &[u8]) -> Result<(), Refusal>
    requires { voice_verdict voice.now ≡ well_formed }
    ensures { answer_of result ≡ unless (call_rows voice.now frames.now n out.now) tt }
{
    if has_bad_frames(voice[symbols_at(voice)], frames) {
        return Err(Refusal::Frames);
    }
    if !inside(n as usize, 1, HITS) {
        return Err(Refusal::Count);
    }
    if out.len() < 8 * (n as usize) {
        return Err(Refusal::Output);
    }
    Ok(())
}
