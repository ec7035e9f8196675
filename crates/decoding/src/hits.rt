// The list of hits as bytes.
ghost use Rattle.std.specs.Prelude.{◌≡◌, ◌++◌, ◌+◌, ◌≤◌, length, drop};
ghost use Rattle.std.proofs.lemmas.List.Edits.{sets};
ghost use Rattle.endian.specs.Bytes.{i32_bytes, u32_bytes};
ghost use Rattle.ranking.specs.Hits.{hit_bytes};
ghost use Rattle.decoding.specs.Listing.{hit_of, hits_of, Listable};

use decoder::token::Token;
use endian::{i32_bytes, u32_bytes};

// A hit is written in 8 bytes: i32 score, u32 code.
fn put_hit(out: &mut [u8], at: usize, token: Token)
    requires { at + 8 ≤ length out.old }
    ensures { out.new
        ≡ sets out.old at (i32_bytes (hit_of token.0).score ++ u32_bytes (hit_of token.0).code) }
{
    let score = token.score();
    out[at..at + 4].copy_from_slice(&i32_bytes(score.value()));
    out[at + 4..at + 8].copy_from_slice(&u32_bytes(token.code()));
}

// Writes the hits of a list of tokens, up to no token, and answers how many; the bytes after them keep their values.
pub(crate) fn put_hits(tokens: &[u64; 8], out: &mut [u8]) -> u32
    requires { Listable tokens.now out.old }
    ensures out_after { out.new ≡ hit_bytes (hits_of tokens.now) ++ drop (length (hit_bytes (hits_of tokens.now)))
        out.old }
    ensures value { result ≡ length (hits_of tokens.now) }
{
    for i in 0..8 {
        let token = Token(tokens[i]);
        if token.is_none() {
            return i as u32;
        }
        put_hit(out, 8 * i, token);
    }
    8
}
