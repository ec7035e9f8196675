// A token is a candidate as one number: (score + bias) × 2^32 + (2^32 - 1 - code). Its high half is a `Score`'s number.
// So a token outranks another exactly if its number is greater, and a move adds to it and takes from it.
ghost use Rattle.std.specs.Prelude.{◌≡◌, ◌+◌, ◌-◌, ◌*◌, ◌/◌, ltb, eqb};
ghost use Rattle.decoder.specs.Token.{unit, code_part, same_code, token_bytes};

use crate::score::Score;

// One point of score in a token.
pub const UNIT: u64 = 4294967296;

// The bias in a token, BIAS * UNIT. A move adds a `Score`'s number in units, so the bias once too often, and takes this
// off again; a move that adds it and takes it off scores 0.
pub const LIFT: u64 = 576460752303423488;

#[derive(Clone, Copy, PartialEq, Eq, PartialOrd, Ord)]
pub struct Token(pub u64);

impl Token {
    // No token: `Score::IMPOSSIBLE`, with nothing below it. It is a number and no `Option`, which would take twice the
    // bytes: a work space of zeros holds no token.
    pub const NONE: Token = Token(0);

    // A candidate's: its score is possible. No `From`, since a token is made of two values, and none of the methods
    // below, since each gives a part of it.
    pub fn of(score: Score, code: u32) -> Token
        ensures { result.0 ≡ score.0 * unit + (unit - 1 - code) }
    {
        Token(score.0 as u64 * UNIT + (UNIT - 1 - code as u64))
    }

    pub fn is_none(self) -> bool
        ensures { result ≡ eqb self.0 0 }
    {
        self == Token::NONE
    }

    pub fn score(self) -> Score
        ensures { result.0 ≡ self.0 / unit }
    {
        Score((self.0 / UNIT) as u32)
    }

    pub fn code(self) -> u32
        ensures { result ≡ unit - 1 - code_part self.0 }
    {
        (UNIT - 1 - self.0 % UNIT) as u32
    }

    pub fn outranks(self, other: Token) -> bool
        ensures { result ≡ ltb other.0 self.0 }
    {
        other < self
    }

    // The low half tells the code.
    pub fn has_code_of(self, other: Token) -> bool
        ensures { result ≡ same_code self.0 other.0 }
    {
        self.0 % UNIT == other.0 % UNIT
    }

    // Its number in eight bytes, little-endian.
    pub fn bytes(self) -> [u8; 8]
        ensures { result ≡ token_bytes self.0 }
    {
        self.0.to_le_bytes()
    }
}
