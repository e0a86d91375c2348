//! The first elements of a row, which are looked through: for a few names that costs less than a hash.
ghost use Rattle.std.specs.Prelude.{◌≡◌, take, drop};
ghost use Rattle.pc_resolve.specs.Near.{near_count};

/// How many elements of a row are looked through. Those after them are looked up by hash.
pub(crate) const NEAR: usize = 8;

/// The elements that are looked through.
#[tactic(auto, using(crate::proofs::NearNames::taken), unfolding(crate::specs::Near::near_count))]
pub(crate) fn near<T>(row: &[T]) -> &[T]
    ensures { result.now ≡ take near_count row.now }
{
    &row[..NEAR.min(row.len())]
}

/// The elements after them.
#[tactic(auto, using(crate::proofs::NearNames::dropped), unfolding(crate::specs::Near::near_count))]
pub(crate) fn far<T>(row: &[T]) -> &[T]
    ensures { result.now ≡ drop near_count row.now }
{
    &row[NEAR.min(row.len())..]
}
