// Hits: the mean of a score. Their order and their bytes are defined in specs/.
#![tactic(auto)]

ghost use Rattle.std.specs.Prelude.{◌≡◌, ◌≤◌, nat_abs};
ghost use Rattle.call.specs.Table.{answer_of};
ghost use Rattle.ranking.specs.Mean.{with_sign, mean_answer};

use call::Refusal;

// The most frames that are decoded.
pub const FRAMES: u32 = 1000;

// A number with the sign of x, for which std has no method. The minus sign is put on in 64 bits, since 2^31 is no i32
// and -2^31 is one.
fn with_sign(x: i32, number: u32) -> i32
    requires { number ≤ nat_abs x }
    ensures { result ≡ with_sign x number }
{
    if x < 0 {
        return -i64::from(number) as i32;
    }
    number as i32
}

// The nearest whole number to score over frames, an exact half to the even neighbour; 11 for 0 frames and above 1,000.
pub fn mean(score: i32, frames: u32) -> Result<i32, Refusal>
    ensures { answer_of result ≡ mean_answer score frames }
{
    if frames == 0 || FRAMES < frames {
        return Err(Refusal::Frames);
    }
    let number = score.unsigned_abs();
    let quotient = number / frames;
    // 1 more tips an exact half only, and there an odd quotient gives way to the next number
    let odd = quotient % 2;
    if frames < 2 * (number % frames) + odd {
        return Ok(with_sign(score, quotient + 1));
    }
    Ok(with_sign(score, quotient))
}
