// The ranks by which the definition of a key is chosen.
ghost use Rattle.std.specs.Prelude.{◌≡◌, ◌<◌, ◌^◌};
ghost use Rattle.glk_table.specs.Ranks.{rank_of, id_in, IsRankInOrder, RanksAreOrdered};
ghost use Rattle.glk_table.specs.declared.ranks.RankClass.TheVariants.{Strong as strong_class};

use glk_base::SymId;

/// The classes of definitions. The first class that a key has a definition of is chosen from.
#[derive(Clone, Copy, Debug, PartialEq, Eq)]
pub enum RankClass {
    /// With content, and neither dupok nor hashed.
    Strong,
    /// Dupok or hashed: the first of the largest is chosen.
    Shared,
    /// Any other: the first of the largest is chosen.
    Other,
}

// A rank has the class above 62 bits, what the size counts in 32 bits, and the id in 30 bits.
const CLASS_UNIT: u64 = 1 << 62;

const SIZE_UNIT: u64 = 1 << 30;

/// The rank of a definition: class goes before size, and size before id, so that the least rank of
/// a key is that of its chosen definition. The rank of a strong definition is its id.
pub fn rank(class: RankClass, size: u32, id: SymId) -> u64
    requires { id.0 < 2 ^ 30 }
    ensures is { result ≡ rank_of class size id.0 }
    ensures in_order { IsRankInOrder class size id.0 result }
    ensures of_strong { class ≡ strong_class → result ≡ id.0 }
{
    let (class, size) = match class {
        RankClass::Strong => (0, 0),
        RankClass::Shared => (1, u32::MAX - size),
        RankClass::Other => (2, u32::MAX - size),
    };
    class * CLASS_UNIT + size as u64 * SIZE_UNIT + id.0 as u64
}

/// The id of the definition that has this rank.
pub fn rank_id(rank: u64) -> SymId
    ensures { result.0 ≡ id_in rank }
{
    SymId((rank % SIZE_UNIT) as u32)
}

/// Ranks are in the order of the definitions: a law over all ranks, which costs nothing.
pub fn ranks_are_ordered()
    ensures { RanksAreOrdered }
{}
