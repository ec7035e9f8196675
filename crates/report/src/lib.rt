// The programs hits and arcs as functions on slices: what they read, and the bytes that they print.
#![tactic(auto)]

ghost use Rattle.std.specs.Prelude.{◌≡◌, ◌+◌, ◌≤◌};
ghost use mathlib.Core.List.{◌++◌, flat_map};
ghost use Rattle.graph.specs.Graph.{graph_of, word_count};
ghost use Rattle.ranking.specs.Hits.{hits_read};
ghost use Rattle.report.specs.Arcs.{arcs_text};
ghost use Rattle.report.specs.Lines.{AcceptedArguments, HoldsHits, lent_answer};
ghost use Rattle.report.specs.Page.{Shows};
ghost use Rattle.report.specs.Text.{Written};
ghost use Rattle.report.specs.Report.{first_line, hit_line, reported, report};

use crate::input::{count, cut_image};
use crate::lines::put_lines;
use crate::vertices::put_arcs;
use call::WORK_SPACE;
use checking::check;
use decoding::decode;
use packing::width;

mod input;
mod lines;
mod text;
mod vertices;

// What a program prints, and how many bytes of it there are.
#[derive(Clone, Copy)]
pub struct Page<const N: usize> {
    pub text: [u8; N],
    pub length: usize,
}

// Puts line 1 and the lines of the k hits.
fn put_list(
    voice: &[u8],
    lexicon: &[u8],
    frames: u32,
    list: &[u8],
    k: u32,
    work: &mut [u8],
    page: &mut Page<640>,
)
    requires accepted_arguments { AcceptedArguments voice.now lexicon.now frames work.old }
    requires holds_hits { HoldsHits lexicon.now list.now k }
    requires in_bounds { page.old.length + 593 ≤ 640 }
    ensures { Written
        (first_line k (word_count (graph_of lexicon.now))
        ++ flat_map (hit_line voice.now (graph_of lexicon.now) frames)
        (hits_read list.now k))
        page.old page.new }
{
    let Ok(words) = check(voice, lexicon, work) else {
        unreachable!();
    };
    let Ok(bits) = width(words) else {
        unreachable!();
    };
    page.put_first_line(k, words, bits);
    put_lines(voice, lexicon, frames, list, k, work, page);
}

// Decodes, with room for 8 hits, and puts what is printed for the answer.
fn put_report(voice: &[u8], lexicon: &[u8], frames: &[u8], n: u32, page: &mut Page<640>)
    requires { page.old.length + 593 ≤ 640 }
    ensures { Written
        (reported voice.now (graph_of lexicon.now) frames.now n
        (lent_answer voice.now lexicon.now frames.now n))
        page.old page.new }
{
    let mut work = [0; WORK_SPACE];
    let mut list = [0u8; 64];
    let answer = decode(voice, lexicon, frames, n, &mut work, &mut list);
    match answer {
        Ok(k) => put_list(
            voice,
            lexicon,
            frames.len() as u32,
            &list,
            k,
            &mut work,
            page,
        ),
        Err(refusal) => page.put_refusal(refusal),
    }
}

// The whole program on slices: cuts the input, decodes, and prints.
pub fn report(input: &[u8]) -> Page<640>
    ensures { Shows 640 (report input.now) result.text result.length }
{
    let (voice, after_voice) = cut_image(input);
    let (lexicon, rest) = cut_image(after_voice);
    let n = count(rest);
    let frames = input::frames(rest);
    let mut page = Page::blank();
    put_report(voice, lexicon, frames, n, &mut page);
    page
}

// The whole program arcs: the lines of a lexicon image.
pub fn arcs_page(lexicon: &[u8]) -> Page<60000>
    ensures { Shows 60000 (arcs_text lexicon.now) result.text result.length }
{
    let mut page = Page::blank();
    put_arcs(lexicon, &mut page);
    page
}
