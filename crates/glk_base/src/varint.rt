// Numbers in groups of seven bits, the lowest first.
ghost use Rattle.std.specs.Prelude.{◌≡◌, ◌<◌, ◌≤◌, ◌^◌, length, nat_lt, IfSome, if◌then◌else◌};
ghost use Rattle.glk_base.specs.Varint.{varint_of};

/// The top bit of a byte, above a group of seven: another group follows.
const TOP_BIT: u8 = 128;

/// A number that some bytes begin with, and how many of them it takes.
#[derive(Clone, Copy, Debug)]
pub struct Varint {
    pub value: u64,
    pub size: usize,
}

// A number that has to be below the limit.
fn below(value: u64, size: usize, limit: u64) -> Option<Varint>
    ensures { result ≡ (if nat_lt value limit then Some (record { value = value; size = size }) else None) }
{
    if value < limit {
        Some(Varint { value, size })
    } else {
        None
    }
}

/// The number in groups of seven bits that the bytes begin with, the lowest group first: each byte but
/// the last has its top bit set. None where no byte without that bit is among the first `most`, and where
/// the number is not below the limit. It calls itself once a byte, so at most `most` deep.
#[tactic(auto, using(crate::proofs::VarintLemmas::varint_steps))]
pub fn read_varint(bytes: &[u8], most: u32, limit: u64) -> Option<Varint>
    requires { limit ≤ 2 ^ 56 }
    ensures value { result ≡ varint_of most limit bytes.now }
    ensures some { IfSome result (λ number. 0 < number.size) }
    ensures inside { IfSome result (λ number. number.size ≤ length bytes.now) }
    ensures small { IfSome result (λ number. number.value < limit) }
{
    let (first, after) = bytes.split_first()?;
    if most == 0 {
        return None;
    }
    if *first < TOP_BIT {
        return below(*first as u64, 1, limit);
    }
    let high = read_varint(after, most - 1, limit)?;
    let value = (*first % TOP_BIT) as u64 + TOP_BIT as u64 * high.value;
    below(value, high.size + 1, limit)
}
