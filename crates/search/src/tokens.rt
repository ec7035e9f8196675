// Tokens in the store: slot k is bytes 8k to 8k + 7, little-endian.
ghost use Rattle.std.specs.Prelude.{◌≡◌, ◌+◌, ◌-◌, ◌*◌, ◌≤◌, length};
ghost use Rattle.storing.specs.Slots.{token_at, SlotPut, MoveFits};

use decoder::token::Token;

// A token after a move: `up` is the number of the move's score in units, `down` the bias in units and the increment of
// the code. It stands here, and not with the type, since it asks that the sum fits, and a public function asks for
// nothing.
pub(crate) fn moved(token: Token, up: u64, down: u64) -> Token
    requires { MoveFits up down token.0 }
    ensures { result.0 ≡ token.0 + up - down }
{
    Token(token.0 + up - down)
}

// The token in slot k.
pub(crate) fn token_at(part: &[u8], k: usize) -> Token
    requires { 8 * k + 8 ≤ length part.now }
    ensures { result.0 ≡ token_at part.now k }
{
    let (slots, _) = part.as_chunks::<8>();
    Token(u64::from_le_bytes(slots[k]))
}

// Puts a token into slot k.
pub(crate) fn put_token(part: &mut [u8], k: usize, token: Token)
    requires { 8 * k + 8 ≤ length part.old }
    ensures { SlotPut part.old k token.0 part.new }
{
    let at = 8 * k;
    part[at..at + 8].copy_from_slice(&token.bytes());
}
