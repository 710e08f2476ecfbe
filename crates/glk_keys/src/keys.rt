// What makes rows one symbol, and the hashes of keys.
ghost use Rattle.std.specs.Prelude.{◌≡◌, ◌+◌, ◌≤◌, ◌<◌, ◌^◌, ◌/◌, length, min};
ghost use Rattle.glk_base.specs.Bytes.{number_at};
ghost use Rattle.glk_keys.specs.KeyHashes.{fold_halves, hash_step as hash_step_of, bytes_hash as bytes_hash_of, ends_step as ends_step_of, ends_hash as ends_hash_of, name_hash as name_hash_of, first_word as first_word_of, key_hash, word_size, end_size};
ghost use Rattle.glk_keys.specs.Keys.{same_key as is_same_key};
ghost use Rattle.glk_keys.specs.Views.{key_view};

use byteorder::{ByteOrder, LittleEndian};

/// What makes rows one symbol.
#[derive(Clone, Copy, Debug)]
pub enum SymbolKey<'a> {
    /// A hash of eight bytes.
    Short([u8; 8]),
    /// A longer hash.
    Long(&'a [u8]),
    /// No other row has it: the number of the object, and the local index there.
    OfObject { object: u32, local: u32 },
    /// A name with an ABI.
    Named { name: &'a [u8], abi: u16 },
}

// An odd number that spreads the bits of a word.
const MULTIPLIER: u64 = 0x9e37_79b9_7f4a_7c15;

const WORD_SIZE: usize = 8;

// At most so many bytes count from each end of a name.
const END_SIZE: usize = 64;

// Puts the upper half of a product into its lower half too.
#[tactic(auto, unfolding(crate::specs::KeyHashes::fold_halves))]
fn fold(product: u64) -> u64
    ensures { result ≡ fold_halves product }
{
    product ^ (product >> 32)
}

// Goes on with a hash over a word.
#[tactic(auto, unfolding(crate::specs::KeyHashes::hash_step))]
fn hash_step(hash: u64, word: u64) -> u64
    ensures { result ≡ hash_step_of hash word }
{
    fold((hash ^ word).wrapping_mul(MULTIPLIER))
}

// Goes on with a hash over bytes.
#[tactic(auto, unfolding(crate::specs::KeyHashes::bytes_hash))]
fn bytes_hash(start: u64, bytes: &[u8]) -> u64
    ensures { result ≡ bytes_hash_of start bytes.now }
{
    let mut hash = start;
    for byte in bytes {
        hash = hash_step(hash, *byte as u64);
    }
    hash
}

// The word at an offset of bytes.
#[tactic(auto, unfolding(glk_base::specs::Bytes::number_at))]
fn word_at(bytes: &[u8], at: usize) -> u64
    requires { at + 8 ≤ length bytes.now }
    ensures { result ≡ number_at 8 bytes.now at }
{
    LittleEndian::read_u64(&bytes[at..])
}

// Goes on with a hash over word `k` from each end of a name.
#[tactic(auto, unfolding(crate::specs::KeyHashes::ends_step))]
fn ends_step(name: &[u8], k: usize, hash: u64) -> u64
    requires { k < min (length name.now) end_size / word_size }
    ensures { result ≡ ends_step_of name.now k hash }
{
    let front = hash_step(hash, word_at(name, WORD_SIZE * k));
    hash_step(front, word_at(name, name.len() - WORD_SIZE * (k + 1)))
}

// Goes on with a hash over the words at both ends of a name.
#[tactic(auto, unfolding(crate::specs::KeyHashes::ends_hash))]
fn ends_hash(name: &[u8], start: u64) -> u64
    ensures { result ≡ ends_hash_of name.now 0 (min (length name.now) end_size / word_size) start }
{
    let words = name.len().min(END_SIZE) / WORD_SIZE;
    let mut hash = start;
    for k in 0..words {
        hash = ends_step(name, k, hash);
    }
    hash
}

// The hash of a name with an ABI: the length and at most 64 bytes from each end count.
#[tactic(auto, unfolding(crate::specs::KeyHashes::name_hash))]
fn name_hash(name: &[u8], abi: u16) -> u64
    ensures { result ≡ name_hash_of name.now abi }
{
    let start = hash_step(abi as u64, name.len() as u64);
    if name.len() < WORD_SIZE {
        bytes_hash(start, name)
    } else {
        ends_hash(name, start)
    }
}

// The first eight bytes of a hash.
#[tactic(auto, unfolding(crate::specs::KeyHashes::first_word))]
fn first_word(hash: &[u8]) -> u64
    ensures { result ≡ first_word_of hash.now }
{
    if hash.len() < WORD_SIZE {
        0
    } else {
        word_at(hash, 0)
    }
}

// The hash of a key.
pub(crate) fn hash_key(key: SymbolKey<'_>) -> u64
    ensures { result ≡ key_hash (key_view key.entry) }
{
    match key {
        SymbolKey::Short(hash) => hash_step(1, first_word(&hash)),
        SymbolKey::Long(hash) => hash_step(2, first_word(hash)),
        SymbolKey::OfObject { object, local } => {
            hash_step(hash_step(3, object as u64), local as u64)
        }
        SymbolKey::Named { name, abi } => name_hash(name, abi),
    }
}

// Whether two keys are one.
pub(crate) fn same_key(a: SymbolKey<'_>, b: SymbolKey<'_>) -> bool
    ensures { result ≡ is_same_key (key_view a.entry) (key_view b.entry) }
{
    match (a, b) {
        (SymbolKey::Short(x), SymbolKey::Short(y)) => x[..] == y[..],
        (SymbolKey::Long(x), SymbolKey::Long(y)) => x == y,
        (
            SymbolKey::OfObject {
                object: o,
                local: i,
            },
            SymbolKey::OfObject {
                object: p,
                local: j,
            },
        ) => o == p && i == j,
        (SymbolKey::Named { name: x, abi: m }, SymbolKey::Named { name: y, abi: n }) => {
            m == n && x == y
        }
        _ => false,
    }
}
