// Where a symbol is, and where the sections are.

use glk_elf::PLACED_SECTIONS;

/// Where a symbol is in memory.
#[derive(Clone, Copy, Debug, PartialEq, Eq)]
pub struct Location {
    /// The number of its section, from 1.
    pub section: u8,
    /// Its address.
    pub address: u64,
}

/// The addresses and the sizes in bytes of the sections in memory, in the order of their numbers.
#[derive(Clone, Copy, Debug)]
pub struct Sections {
    pub addrs: [u64; PLACED_SECTIONS],
    pub sizes: [u64; PLACED_SECTIONS],
}
