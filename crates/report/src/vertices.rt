// The lines of the program arcs: for each vertex its letter and its successors.
ghost use Rattle.std.specs.Prelude.{◌≡◌, ◌+◌, ◌*◌, ◌/◌, ◌≤◌, length};
ghost use mathlib.Core.List.{flat_map};
ghost use Rattle.endian.specs.Lists.{from};
ghost use Rattle.endian.specs.Bytes.{u16s};
ghost use Rattle.voice.specs.Fields.{well_formed};
ghost use Rattle.lexicon.specs.Lexicon.{node_count, sink_of, arc_count, lexicon_verdict};
ghost use Rattle.report.specs.Arcs.{spaced, letter_text, vertex_line, arcs_text};
ghost use Rattle.report.specs.Text.{Written};

use crate::Page;
use endian::{number_of, u16_at};
use lexicon::{judge, successors};

// Puts the numbers that a part of the image holds, each behind a space.
fn put_numbers(part: &[u8], page: &mut Page<60000>)
    requires { page.old.length + 6 * length part.now ≤ 60000 }
    ensures text { Written (spaced (u16s part.now 0 (length part.now / 2))) page.old page.new }
    ensures upper_bound { page.new.length ≤ page.old.length + 6 * length part.now }
{
    let (pairs, _) = part.as_chunks::<2>();
    for &pair in pairs {
        page.put_labelled(b" ", number_of(pair));
    }
}

// Puts a node's letter index behind a space.
fn put_letter(lexicon: &[u8], vertex: usize, page: &mut Page<60000>)
    requires { (2 + vertex ≤ length lexicon.now) × (page.old.length + 11 ≤ 60000) }
    ensures text { Written (letter_text lexicon.now vertex) page.old page.new }
    ensures upper_bound { page.new.length ≤ page.old.length + 11 }
{
    if vertex != 0 {
        page.put_labelled(b" ", lexicon[1 + vertex]);
    }
}

// Puts the line of a vertex.
fn put_vertex(lexicon: &[u8], vertex: usize, page: &mut Page<60000>)
    requires lexicon_value { lexicon_verdict 256 lexicon.now ≡ well_formed }
    requires vertex_bound { vertex ≤ node_count lexicon.now }
    requires in_bounds { page.old.length + 23 + 12 * arc_count lexicon.now vertex ≤ 60000 }
    ensures text { Written (vertex_line lexicon.now vertex) page.old page.new }
    ensures upper_bound { page.new.length ≤ page.old.length + 23 + 12 * arc_count lexicon.now vertex }
{
    page.put_number(vertex as u32);
    put_letter(lexicon, vertex, page);
    page.put_byte(58);
    put_numbers(successors(lexicon, vertex), page);
    page.put_byte(10);
}

// Puts the lines of all vertices below the sink; a lexicon has at most 401 of them, and 9,204 bytes up to the reserve.
fn put_vertices(lexicon: &[u8], page: &mut Page<60000>)
    requires lexicon_value { lexicon_verdict 256 lexicon.now ≡ well_formed }
    requires nothing_yet { page.old.length ≡ 0 }
    ensures { Written (flat_map (vertex_line lexicon.now) (from 0 (sink_of lexicon.now))) page.old page.new }
{
    let nodes = u16_at(lexicon, 0) as usize;
    for vertex in 0..nodes + 1 {
        put_vertex(lexicon, vertex, page);
    }
}

// Puts the lines, or the one line of a refusal.
pub(crate) fn put_arcs(lexicon: &[u8], page: &mut Page<60000>)
    requires { page.old.length ≡ 0 }
    ensures { Written (arcs_text lexicon.now) page.old page.new }
{
    match judge(lexicon, 256) {
        Ok(()) => put_vertices(lexicon, page),
        Err(refusal) => page.put_refusal(refusal),
    }
}
