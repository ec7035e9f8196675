// Rows of slot numbers, two bytes each, which a crate that has such rows reads and writes by functions of its own: a
// public function could not require that the place is inside.
ghost use Rattle.std.specs.Prelude.{◌≡◌, ◌+◌, ◌*◌, ◌≤◌, ◌<◌, length};
ghost use Rattle.endian.specs.Rows.{number_at, NumberPut};
ghost use Rattle.sorting.specs.Rows.{Back};

use endian::u16_at;

// The slot number at place k.
pub(crate) fn number(rows: &[u8], k: usize) -> usize
    requires { 2 * k + 2 ≤ length rows.now }
    ensures { (result ≡ number_at rows.now k) × (result < 65536) }
{
    u16_at(rows, 2 * k) as usize
}

// Writes a slot number at place k.
pub(crate) fn put_number(rows: &mut [u8], k: usize, v: usize)
    requires { (2 * k + 2 ≤ length rows.old) × (v < 65536) }
    ensures { NumberPut rows.old k v rows.new }
{
    let at = 2 * k;
    rows[at..at + 2].copy_from_slice(&(v as u16).to_le_bytes());
}

// Writes the number of one place at another.
pub(crate) fn copy_number(rows: &mut [u8], from: usize, to: usize)
    requires { (2 * from + 2 ≤ length rows.old) × (2 * to + 2 ≤ length rows.old) }
    ensures { NumberPut rows.old to (number_at rows.old from) rows.new }
{
    let v = number(rows, from);
    put_number(rows, to, v);
}

// Brings the numbers from lo up to hi back from the spare row.
pub(crate) fn copy_back(rows: &mut [u8], lo: usize, hi: usize)
    requires { (lo ≤ hi) × (hi ≤ 4000) × (16000 ≤ length rows.old) }
    ensures { Back rows.old lo hi rows.new }
{
    rows.copy_within(8000 + 2 * lo..8000 + 2 * hi, 2 * lo);
}
