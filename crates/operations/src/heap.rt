//! The word that counts the cells. Within a turn it counts the accesses too, above its low 16 bits,
//! so that no other word is lent to an evaluation and its recursion passes nothing more on; whoever
//! ends the turn takes them out.
ghost use Rattle.std.specs.Prelude.{◌≡◌};
ghost use Rattle.operations.specs.Inner.Heaps.{cells_in, accesses_in, with_access, with_cell};

// What one access adds.
const ACCESS: u64 = 0x0001_0000;

/// How many cells that word counts.
#[tactic(auto, unfolding(crate::specs::Inner::Heaps::cells_in))]
pub fn cells_in(count: u64) -> usize
    ensures { result ≡ cells_in count }
{
    (count % ACCESS) as usize
}

/// How many accesses that word counts.
#[tactic(auto, unfolding(crate::specs::Inner::Heaps::accesses_in))]
pub fn accesses_in(count: u64) -> u64
    ensures { result ≡ accesses_in count }
{
    count / ACCESS
}

#[tactic(auto, unfolding(crate::specs::Inner::Heaps::with_access))]
pub(crate) fn with_access(count: u64) -> u64
    ensures { result ≡ with_access count }
{
    std::num::wrapping_add_u64(count, ACCESS)
}

// A creation is an access.
#[tactic(auto, unfolding(crate::specs::Inner::Heaps::with_cell))]
pub(crate) fn with_cell(count: u64) -> u64
    ensures { result ≡ with_cell count }
{
    std::num::wrapping_add_u64(count, ACCESS + 1)
}
