// The lines of a list of hits: code, score, mean, word.
ghost use Rattle.std.specs.Prelude.{◌≡◌, ◌+◌, ◌*◌, ◌≤◌, ◌<◌, length};
ghost use mathlib.Core.List.{flat_map};
ghost use Rattle.endian.specs.Bytes.{i32, u32};
ghost use Rattle.graph.specs.Graph.{graph_of, word_count};
ghost use Rattle.ranking.specs.Hits as spec;
ghost use Rattle.ranking.specs.Hits.{hits_read};
ghost use Rattle.report.specs.Lines.{AcceptedArguments, HoldsHits};
ghost use Rattle.report.specs.Text.{Written};
ghost use Rattle.report.specs.Report.{hit_line};

use crate::Page;
use codes::code_to_word;
use endian::{i32_of, u32_of};
use ranking::mean;

// A word that was heard, by its code, and its score.
#[derive(Clone, Copy)]
struct Hit {
    score: i32,
    code: u32,
}

// The hit at an offset: i32 score, u32 code.
fn hit_at(list: &[u8], at: usize) -> Hit
    requires { at + 8 ≤ length list.now }
    ensures score { result.score ≡ i32 list.now at }
    ensures code { result.code ≡ u32 list.now (at + 4) }
{
    let next = at + 4;
    Hit {
        score: i32_of(list[at], list[at + 1], list[at + 2], list[at + 3]),
        code: u32_of(list[next], list[next + 1], list[next + 2], list[next + 3]),
    }
}

// Puts the line of one hit; what is ready here is never refused.
fn put_hit(
    voice: &[u8],
    lexicon: &[u8],
    frames: u32,
    hit: Hit,
    work: &mut [u8],
    page: &mut Page<640>,
)
    requires accepted_arguments { AcceptedArguments voice.now lexicon.now frames work.old }
    requires code_bound { hit.code < word_count (graph_of lexicon.now) }
    requires in_bounds { page.old.length + 68 ≤ 640 }
    ensures { Written
        (hit_line voice.now (graph_of lexicon.now) frames (spec.hit hit.score hit.code)) page.old page.new }
{
    let mut word = [0u8; 32];
    let Ok(size) = code_to_word(voice, lexicon, hit.code, work, &mut word) else {
        unreachable!();
    };
    let Ok(average) = mean(hit.score, frames) else {
        unreachable!();
    };
    page.put_hit_line(hit.code, hit.score, average, &word[..size as usize]);
}

// Puts the lines of k hits, in their order.
pub(crate) fn put_lines(
    voice: &[u8],
    lexicon: &[u8],
    frames: u32,
    list: &[u8],
    k: u32,
    work: &mut [u8],
    page: &mut Page<640>,
)
    requires accepted_arguments { AcceptedArguments voice.now lexicon.now frames work.old }
    requires holds_hits { HoldsHits lexicon.now list.now k }
    requires k_in_bounds { page.old.length + 68 * k ≤ 640 }
    ensures { Written
        (flat_map (hit_line voice.now (graph_of lexicon.now) frames) (hits_read list.now k)) page.old page.new }
{
    for i in 0..k as usize {
        put_hit(voice, lexicon, frames, hit_at(list, 8 * i), work, page);
    }
}
