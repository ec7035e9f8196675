// The list of a place: n slots, the best token first, with no token after the last. A part of the store is lent for it.
ghost use Rattle.std.specs.Prelude.{◌≡◌, ◌++◌, ◌+◌, ◌-◌, ◌*◌, ◌≤◌, ◌<◌, length, replicate, MatchOption};
ghost use Rattle.decoder.specs.Token.{code_part};
ghost use Rattle.storing.specs.Slots.{slots, position, push, enter, offered, shifted, PlaceRoom, Movable, Falling};
ghost use Rattle.storing.specs.Slots.{Offer, Changed};

use crate::tokens::{moved, put_token, token_at};
use decoder::token::Token;

// A candidate enters a list at the first position whose token it outranks; nowhere if none is outranked, or one of its
// code stands before.
fn position(part: &[u8], n: usize, token: Token) -> Option<usize>
    requires { 8 * n ≤ length part.now }
    ensures { MatchOption result (position token.0 (slots n 0 part.now) ≡ n) (λ k. (k < n)
        × (position token.0 (slots n 0 part.now) ≡ k)) }
{
    let mut k = 0;
    // a loop that breaks with the position: a form that docs/SPECIFICATION.md names
    loop {
        if k == n {
            break None;
        }
        let held = token_at(part, k);
        if token.outranks(held) {
            break Some(k);
        }
        if held.has_code_of(token) {
            break None;
        }
        k += 1;
    }
}

// Puts a token into a slot and carries those from there on down by one, up to one of its code or an empty slot; the
// last one goes.
fn push_down(part: &mut [u8], n: usize, from: usize, token: Token)
    requires { (from ≤ n) × (8 * n ≤ length part.old) }
    ensures { slots n 0 part.new ≡ slots from 0 part.old ++ push token.0
        (code_part token.0) (slots (n - from) from part.old) }
{
    let mut carry = token;
    for at in from..n {
        let next = token_at(part, at);
        put_token(part, at, carry);
        if next.is_none() {
            return;
        }
        if next.has_code_of(token) {
            return;
        }
        carry = next;
    }
}

// One more candidate for a place.
pub(crate) fn insert(part: &mut [u8], n: usize, token: Token)
    requires { 8 * n ≤ length part.old }
    ensures { slots n 0 part.new ≡ enter token.0 (slots n 0 part.old) }
{
    if let Some(at) = position(part, n, token) {
        push_down(part, n, at, token);
    }
}

// The tokens of a place of the store, moved, are candidates for a list, the best first. Once the last of n outranks
// one, those behind it can't enter.
pub(crate) fn offer(list: &mut [u8], n: usize, store: &[u8], from: usize, up: u64, down: u64)
    requires { PlaceRoom n from store.now × Offer n 0 up down (slots n from store.now) list.old }
    ensures { slots n 0 list.new ≡ offered up down (slots n from store.now)
        (slots n 0 list.old) }
{
    for i in 0..n {
        let token = token_at(store, from + i);
        if token.is_none() {
            return;
        }
        let candidate = moved(token, up, down);
        let last = token_at(list, n - 1);
        if last.outranks(candidate) {
            return;
        }
        insert(list, n, candidate);
    }
}

// The tokens of an earlier place of the store, moved, are candidates for the place that begins with slot `slot`. They
// need no copy, since only this place changes.
pub(crate) fn offer_from(store: &mut [u8], n: usize, from: usize, slot: usize, up: u64, down: u64)
    requires { (from + n ≤ slot) × Offer n slot up down (slots n from store.old) store.old }
    ensures { Changed slot n (offered up down (slots n from store.old) (slots n slot store.old)) store.old store.new }
{
    let (before, rest) = store.split_at_mut(8 * slot);
    offer(&mut rest[..8 * n], n, before, from, up, down);
}

// All tokens of a place move alike, as in a loop, so that they stay in their order.
pub(crate) fn shift(part: &mut [u8], n: usize, up: u64, down: u64)
    requires n_in_bounds { 8 * n ≤ length part.old }
    requires movable { Movable up down (slots n 0 part.old) }
    ensures { slots n 0 part.new ≡ shifted up down (slots n 0 part.old) }
{
    for k in 0..n {
        let token = token_at(part, k);
        if token.is_none() {
            return;
        }
        put_token(part, k, moved(token, up, down));
    }
}

// Copies the numbers of a list's tokens to a lent list of no tokens. Behind the first empty slot are only empty ones,
// so that the copy ends there.
pub(crate) fn copy_place(part: &[u8], n: usize, tokens: &mut [u64; 8])
    requires place_room { PlaceRoom n 0 part.now × Falling (slots n 0 part.now) }
    requires tokens_value { tokens.old ≡ replicate 8 0 }
    ensures { tokens.new ≡ slots n 0 part.now ++ replicate (8 - n) 0 }
{
    for k in 0..n {
        let token = token_at(part, k);
        if token.is_none() {
            return;
        }
        tokens[k] = token.0;
    }
}
