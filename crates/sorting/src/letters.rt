// Rows of letters in dictionary order.
ghost use Rattle.std.specs.Prelude.{◌≡◌};
ghost use Rattle.canonical.specs.Dictionary.{precedes};

// Whether a stands before b in the dictionary. The library's `a < b` says the same, and takes the whole of sorting a
// third more instructions with short words.
pub(crate) fn before(a: &[u8], b: &[u8]) -> bool
    ensures { result ≡ precedes a.now b.now }
{
    for (x, y) in a.iter().zip(b) {
        if x != y {
            return x < y;
        }
    }
    a.len() < b.len()
}
