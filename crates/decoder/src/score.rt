// The score of a token. It is held as a number without a sign: the score plus the bias, and 0 for 'no token', so that a
// work space of zeros holds no token at all.
ghost use Rattle.std.specs.Prelude.{◌≡◌, eqb};
ghost use Rattle.std.proofs.Math.Option.{none};
ghost use Rattle.decoder.specs.Score.{possible, number_of, value_of};

// What is added to a score so that it has no sign.
pub const BIAS: u32 = 134217728;

// The score of the voice model that means impossible.
pub const STORED_IMPOSSIBLE: i16 = -32768;

#[derive(Clone, Copy, PartialEq, Eq, PartialOrd, Ord)]
pub struct Score(pub u32);

impl Score {
    // No token. It stands outside all sums: a sum of scores may well be -32,768.
    pub const IMPOSSIBLE: Score = Score(0);
    // -65,501,233: 1,000 emissions and 999 moves of at least -32,767 each.
    pub const LOWEST: Score = Score(68716495);
    // 65,501,233: as many of at most 32,767 each.
    pub const HIGHEST: Score = Score(199718961);

    pub fn is_impossible(self) -> bool
        ensures { result ≡ eqb self.0 (number_of none) }
    {
        self == Score::IMPOSSIBLE
    }

    // A score of the voice model; -32,768 means impossible. It is no `From`, which would hide that one i16 is no score.
    pub fn from_stored(stored: i16) -> Score
        ensures { result.0 ≡ number_of (possible stored) }
    {
        if stored == STORED_IMPOSSIBLE {
            return Score::IMPOSSIBLE;
        }
        Score((i32::from(stored) + BIAS as i32) as u32)
    }

    // The score as a hit has it. It is no `From`, since it holds a number within the limits: no word's score passes
    // them, a number that does gives the limit that it passes, and so 0, which is no score's, the lowest.
    pub fn value(self) -> i32
        ensures { result ≡ value_of self.0 }
    {
        let number = self.0.clamp(Score::LOWEST.0, Score::HIGHEST.0);
        number as i32 - BIAS as i32
    }
}
