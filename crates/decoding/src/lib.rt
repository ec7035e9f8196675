// Decoding: the call that lists the hits. The search finds them as tokens, and each is written as a hit.
#![tactic(auto)]

ghost use Rattle.std.specs.Prelude.{◌≡◌};
ghost use Rattle.call.specs.Table.{answer_of};
ghost use Rattle.decoder.specs.Decoding.{decode_answer, decode_out, decode_work};
ghost use Rattle.decoder.specs.Demand.{MeetsDemand3};

use crate::hits::put_hits;
use call::Refusal;
use search::search;

mod hits;

// Writes the hits, at most n, and answers how many.
pub fn decode(
    voice: &[u8],
    lexicon: &[u8],
    frames: &[u8],
    n: u32,
    work: &mut [u8],
    out: &mut [u8],
) -> Result<u32, Refusal>
    ensures result_value { answer_of result ≡ decode_answer voice.now lexicon.now frames.now n work.old out.old }
    ensures work_after { work.new ≡ decode_work voice.now lexicon.now frames.now n work.old }
    ensures out_after { out.new ≡ decode_out voice.now lexicon.now frames.now n work.old out.old }
    ensures meets_demand3 { MeetsDemand3 voice.now lexicon.now frames.now n (answer_of result) out.new }
{
    let mut tokens = [0; 8];
    search(voice, lexicon, frames, n, work, &out[..], &mut tokens)?;
    let listed = put_hits(&tokens, out);
    Ok(listed)
}
