// What holds for a whole run, and how far it has come.
ghost use Rattle.std.specs.Prelude.{◌≡◌, ◌+◌, ◌-◌, ltb};
ghost use Rattle.refusal.specs.Limits.{TEXT_MAX};

use er7::separators::Separators;
use refusal::limits::TEXT_MAX;

// What holds for a whole run: the key, the delimiters, whether values are learnt, and how many segments and leaves the message has.
#[derive(Clone, Copy)]
pub struct Setting {
    pub key: u64,
    pub separators: Separators,
    pub sweep: bool,
    pub segments: usize,
    pub leaves: usize,
}

// How far a run has come: rows and bytes of its report, the message's size, the bytes of the store that are used, the values that are known and their bytes.
#[derive(Clone, Copy)]
pub struct Counters {
    pub rows: usize,
    pub report_len: usize,
    pub size: usize,
    pub used: usize,
    pub known: usize,
    pub known_used: usize,
}

// Whether a message of size bytes is too long with came bytes in the place of went.
pub fn is_over(size: usize, went: usize, came: usize) -> bool
    ensures { result ≡ ltb TEXT_MAX (size - went + came) }
{
    TEXT_MAX < size.saturating_sub(went).saturating_add(came)
}
