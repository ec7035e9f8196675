// The words of a lexicon gathered in the further work space, in code order.
ghost use Rattle.std.specs.Prelude.{◌≡◌, ◌≤◌, length};
ghost use Rattle.call.specs.Limits.{work_space, further_space};
ghost use Rattle.call.specs.Table.{answer_of};
ghost use Rattle.call.specs.Buffers.{cleared};
ghost use Rattle.sorting.specs.Tabled.{Collected};

use call::Refusal;
use codes::gather;

// Where the gathered words lie: the 2,000 slots from 2,001 on.
const GATHERED: usize = 66033;

const GATHERED_END: usize = 132033;

// Gathers the words of a lexicon, and answers how many there are.
pub(crate) fn collect(
    voice: &[u8],
    lexicon: &[u8],
    work: &mut [u8],
    further: &mut [u8],
) -> Result<u32, Refusal>
    requires { (work_space ≤ length work.old) × (further_space ≤ length further.old) }
    ensures collected { Collected voice.now lexicon.now further.old (answer_of result)
        further.new }
    ensures work_after { work.new ≡ cleared work.old }
{
    gather(voice, lexicon, work, &mut further[GATHERED..GATHERED_END])
}
