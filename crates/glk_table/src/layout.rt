// Which words of a table are those of a place. A table of `size` places has 4 * `size` words, a
// quarter of them for each of: the name of the id that fills the place, which is the word of the
// place's own number; the least rank; the greatest strong id; the least entered id.
ghost use Rattle.std.specs.Prelude.{◌≡◌, ◌<◌, ◌≤◌, ◌^◌};
ghost use Rattle.glk_table.specs.Rule.{rank_word, strong_word, id_word};

/// How many words there are for each place.
pub(crate) const WORDS_PER_PLACE: usize = 4;

/// The word of a place that nothing was offered at yet, in the quarters of least numbers.
pub(crate) const NO_RANK: u64 = u64::MAX;

/// The index of the least rank that was offered at the place.
pub(crate) fn rank_index(size: usize, at: usize) -> usize
    requires { (at < size) × (size ≤ 2 ^ 26) }
    ensures { result ≡ rank_word size at }
{
    size + at
}

/// The index of one more than the greatest strong id that was offered at the place, or 0.
pub(crate) fn strong_index(size: usize, at: usize) -> usize
    requires { (at < size) × (size ≤ 2 ^ 26) }
    ensures { result ≡ strong_word size at }
{
    2 * size + at
}

/// The index of the least id that was entered at the place.
pub(crate) fn id_index(size: usize, at: usize) -> usize
    requires { (at < size) × (size ≤ 2 ^ 26) }
    ensures { result ≡ id_word size at }
{
    3 * size + at
}
