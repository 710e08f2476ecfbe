// What a seat knows.
use std::collections::LinkedList;

/// What a seat has done and seen, for contracts alone: no value of it is made.
pub struct View {
    /// How many places the table has.
    pub size: u64,
    /// The hash and the key number of each id.
    pub keys: LinkedList<(u64, u64)>,
    /// The filled words that the seat saw, each as its place and the word.
    pub seen: LinkedList<(u64, u64)>,
    /// The calls of `enter`, each as the id and its place.
    pub entered: LinkedList<(u64, u64)>,
    /// The offers, each as the place and the rank.
    pub ranks: LinkedList<(u64, u64)>,
    /// The strong offers, each as the place and the id.
    pub strong: LinkedList<(u64, u64)>,
    /// The seat's part of the table. The parts of all seats come to 2^32.
    pub part: u64,
}
