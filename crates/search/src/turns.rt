// A node's turn at a frame: what its last state holds is passed on to its successors, and then its own states are
// renewed. At the first frame the root's token is passed on instead, which has no place in the store: in a contract the
// root is vertex 0 (`true`), its slot 0 means nothing, and what its arcs score is `bias`, the number of the score 0. A
// contract that begins with ((t : ..) → ..) speaks of what is known before the call by the record t.
ghost use Rattle.std.specs.Prelude.{◌≡◌, true, false, suc, ◌+◌, ◌*◌, ◌≤◌, ◌<◌, length, get_or};
ghost use Rattle.endian.specs.Bytes.{u16};
ghost use Rattle.graph.specs.Graph.{graph_of};
ghost use Rattle.decoder.specs.Score.{bias};
ghost use Rattle.storing.specs.Slots.{slots};
ghost use Rattle.storing.specs.Held.{lift, held};
ghost use Rattle.storing.specs.Stored.{Stored, PassingOn, PassedOn, Turn, TurnDone};
ghost use Rattle.storing.specs.Carrying.{Staying, Arc, Own, Renewing, Renewal, stayed, over_one, renewed_one};
ghost use Rattle.storing.specs.Carrying.{renewed_all, renewal};

use crate::store::{insert, offer_from, shift};
use crate::tokens::token_at;
use call::zero;
use checking::Vertex;
use decoder::score::{BIAS, Score};
use decoder::token::{LIFT, Token, UNIT};
use endian::{number_of, u16_of};
use lexicon::list_at;
use storing::Moves;

// The number at an offset inside the image.
fn number_at(lexicon: &[u8], at: usize) -> usize
    requires { at + 2 ≤ length lexicon.now }
    ensures { result ≡ u16 lexicon.now at }
{
    u16_of(lexicon[at], lexicon[at + 1]) as usize
}

// Passes a node's tokens on over one arc, to the first state of vertex t: the move scores the link of the letter that
// is left, and the emission of the one that is entered is added.
fn pass_over(
    n: usize,
    vertices: &[Vertex; 402],
    link: Score,
    from: usize,
    t: usize,
    down: u64,
    store: &mut [u8],
)
    requires arc { Arc n vertices.now link.0 false from t down store.old }
    requires link_nonzero { 0 < link.0 }
    ensures stored { (a : Arc n vertices.now link.0 false from t down store.old)
        → Stored a.passing_on.v (graph_of a.x) n (over_one a) store.new }
    ensures store_unchanged { slots n from store.new ≡ slots n from store.old }
{
    let emission = Score(vertices[t].emission);
    // impossible at this frame; always so at the sink, which has no letter
    if emission.is_impossible() {
        return;
    }
    let up = (link.0 + emission.0 - BIAS) as u64 * UNIT;
    let slot = vertices[t].first_slot as usize;
    offer_from(store, n, from, slot, up, down);
}

// Passes the tokens of a node's last state, n from slot `from` on, to the first state of each node that it leads to.
// The link of its letter is looked up only where there is a token.
fn pass_on(
    lexicon: &[u8],
    n: usize,
    vertices: &[Vertex; 402],
    links: &[u32; 64],
    letter: usize,
    node: usize,
    from: usize,
    store: &mut [u8],
)
    requires passing_on { PassingOn lexicon.now n vertices.now (get_or links.now letter 0) node false from store.old }
    requires letter_bound { letter < 64 }
    ensures { (t : PassingOn lexicon.now n vertices.now
        (get_or links.now letter 0) node false from store.old) → PassedOn t store.new }
{
    let first = token_at(store, from);
    if first.is_none() {
        return;
    }
    let link = Score(links[letter]);
    if link.is_impossible() {
        return;
    }
    let start = vertices[node].arcs_at as usize;
    let stop = start + 2 + 2 * number_at(lexicon, start);
    let mut at = start + 2;
    let mut down = LIFT;
    // a `for` over the pairs of `list_at`, or over pairs that nothing tests, takes a tenth more instructions a call
    while at < stop {
        let t = number_at(lexicon, at);
        pass_over(n, vertices, link, from, t, down, store);
        down += vertices[t].paths as u64;
        at += 2;
    }
}

// The root's token enters node t over the arc of that increment: its score is the emission alone.
fn enter_node(n: usize, vertices: &[Vertex; 402], t: usize, increment: u32, store: &mut [u8])
    requires { Arc n vertices.now bias true 0 t (lift + increment) store.old }
    ensures { (a : Arc n vertices.now bias true 0 t (lift + increment) store.old)
        → Stored a.passing_on.v (graph_of a.x) n (over_one a) store.new }
{
    let score = Score(vertices[t].emission);
    if score.is_impossible() {
        return;
    }
    let start = 8 * (vertices[t].first_slot as usize);
    let end = start + 8 * n;
    insert(&mut store[start..end], n, Token::of(score, increment));
}

// The root's token enters the first state of each node that the root leads to.
pub(crate) fn enter_nodes(lexicon: &[u8], n: usize, vertices: &[Vertex; 402], store: &mut [u8])
    requires { PassingOn lexicon.now n vertices.now bias 0 true 0 store.old }
    ensures { (t : PassingOn lexicon.now n vertices.now bias 0 true 0
        store.old) → PassedOn t store.new }
{
    let mut increment = 0;
    for &pair in list_at(lexicon, vertices[0].arcs_at as usize) {
        let t = number_of(pair) as usize;
        enter_node(n, vertices, t, increment, store);
        increment += vertices[t].paths;
    }
}

// The tokens of a place move by its loop; the score is the gain of that move.
fn stay(place: &mut [u8], n: usize, score: Score)
    requires { Staying n 0 score.0 place.old }
    ensures { (t : Staying n 0 score.0 place.old) → slots n 0 place.new
        ≡ held n (stayed t) }
{
    if score.is_impossible() {
        zero(place);
        return;
    }
    shift(place, n, score.0 as u64 * UNIT, LIFT);
}

// Renews state s in a node's part of the store: by its loop, and by the step from the state before, whose tokens are
// still old. The row has the gains of the node's letter at this frame.
fn renew_state(part: &mut [u8], n: usize, s: usize, row: &Moves)
    requires { Renewing n (suc s) row.now part.old }
    ensures { (t : Renewing n (suc s) row.now part.old)
        → Own n t.S (renewed_one t t.node) part.new }
{
    let slot = n * s;
    let start = 8 * slot;
    let end = start + 8 * n;
    stay(&mut part[start..end], n, Score(row.loops[s]));
    if s == 0 {
        return;
    }
    let score = Score(row.steps[s]);
    if score.is_impossible() {
        return;
    }
    offer_from(part, n, slot - n, slot, score.0 as u64 * UNIT, LIFT);
}

// Renews the states in a node's part of the store, from the last to the first.
fn renew(part: &mut [u8], n: usize, states: usize, row: &Moves)
    requires { Renewing n states row.now part.old }
    ensures { (t : Renewing n states row.now part.old)
        → Own n t.S (renewed_all t t.node) part.new }
{
    for s in (0..states).rev() {
        renew_state(part, n, s, row);
    }
}

// Renews a node's states: its part of the store, which begins with slot `first`, is lent to `renew`.
fn renew_node(store: &mut [u8], n: usize, first: usize, states: usize, row: &Moves)
    requires { Renewal n first states row.now store.old }
    ensures { (t : Renewal n first states row.now store.old)
        → Stored t.v (graph_of t.x) n (renewal t) store.new }
{
    let start = 8 * first;
    let end = start + 8 * (n * states);
    renew(&mut store[start..end], n, states, row);
}

// The turn of a node. Its successors have higher numbers, so their turns are over; they get its old tokens, so it
// passes these on before it renews its own states.
pub(crate) fn take_turn(
    voice: &[u8],
    lexicon: &[u8],
    n: usize,
    vertices: &[Vertex; 402],
    gains: &[Moves; 64],
    links: &[u32; 64],
    node: usize,
    store: &mut [u8],
)
    requires { Turn voice.now lexicon.now n vertices.now gains.now links.now node store.old }
    ensures { (t : Turn voice.now lexicon.now n vertices.now
        gains.now links.now node store.old) → TurnDone t store.new }
{
    let letter = lexicon[1 + node] as usize;
    // the place of its last state ends where the next vertex's begins
    let last = vertices[node + 1].first_slot as usize - n;
    pass_on(lexicon, n, vertices, links, letter, node, last, store);
    let states = voice[2 + 2 * letter] as usize;
    let first = vertices[node].first_slot as usize;
    renew_node(store, n, first, states, &gains[letter]);
}
