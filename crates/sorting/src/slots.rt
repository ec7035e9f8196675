// Words in slots of 33 bytes, each its length and then its letters.
ghost use Rattle.std.specs.Prelude.{◌≡◌, ◌+◌, ◌*◌, ◌≤◌, length};
ghost use Rattle.sorting.specs.Slots.{word_at, Slot, SlotCopied};

// The word in slot i.
pub(crate) fn word<'a>(words: &'a [u8], i: usize) -> &'a [u8]
    requires { Slot words.now i }
    ensures { result.now ≡ word_at words.now i }
{
    let at = 33 * i;
    let from = at + 1;
    let to = from + words[at] as usize;
    &words[from..to]
}

// Copies the bytes of slot i to slot p, by way of an array: `copy_within` goes byte by byte, the last first.
pub(crate) fn copy_slot(words: &mut [u8], i: usize, p: usize)
    requires { (33 * i + 33 ≤ length words.old) × (33 * p + 33 ≤ length words.old) }
    ensures { SlotCopied words.old (33 * i) (33 * p) words.new }
{
    let from = 33 * i;
    let to = 33 * p;
    let mut slot = [0; 33];
    slot.copy_from_slice(&words[from..from + 33]);
    words[to..to + 33].copy_from_slice(&slot);
}
