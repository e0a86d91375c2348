//! Sets of at most 64 small numbers.
ghost use Rattle.std.specs.Prelude.{◌≡◌, ◌≢◌, ◌⊎◌, ◌↔◌, ℕ, ◌<◌, IsTrue};
ghost use Rattle.pc_masks.specs.Masks as spec;

/// A set of numbers below 64: number i is in it iff bit i is 1.
#[derive(Clone, Copy, Debug, PartialEq, Eq)]
pub struct Mask(pub u64);

impl Mask {
    /// The set of all numbers below `count`.
    #[tactic(auto, using(crate::specs::MaskLaws::first_bits))]
    pub fn first(count: u32) -> Mask
        ensures value { result ≡ spec.first count }
        ensures bits { (i : ℕ) → (spec.IsInMask result i) ↔ ((i < count) × (i < 64)) }
    {
        Mask(low_bits(count))
    }

    /// Whether the number is in the set.
    pub fn has(self, number: u32) -> bool
        ensures { result ≡ spec.has self number }
    {
        number < 64 && (self.0 >> number) & 1 == 1
    }

    /// The set with this number added. A number past 63 changes nothing.
    #[tactic(auto, using(crate::specs::MaskLaws::with_number_bits))]
    pub fn with(self, number: u32) -> Mask
        ensures value { result ≡ spec.with_number self number }
        ensures bits { (i : ℕ) → (spec.IsInMask result i) ↔ (((i ≡ number) × (number < 64)) ⊎ spec.IsInMask self i) }
    {
        Mask(with_bit(self.0, number))
    }

    /// The set with this number removed.
    #[tactic(auto, using(crate::specs::MaskLaws::without_number_bits))]
    pub fn without(self, number: u32) -> Mask
        ensures value { result ≡ spec.without_number self number }
        ensures bits { (i : ℕ) → (spec.IsInMask result i) ↔ ((i ≢ number) × spec.IsInMask self i) }
    {
        Mask(without_bit(self.0, number))
    }

    /// The numbers in both sets.
    #[tactic(auto, using(crate::specs::MaskLaws::meet_bits))]
    pub fn meet(self, other: Mask) -> Mask
        ensures value { result ≡ spec.meet self other }
        ensures bits { (i : ℕ) → (spec.IsInMask result i) ↔ (spec.IsInMask self i × spec.IsInMask other i) }
    {
        Mask(self.0 & other.0)
    }

    /// The numbers in either set.
    pub fn join(self, other: Mask) -> Mask
        ensures value { result ≡ spec.join self other }
        ensures bits { (i : ℕ) → (spec.IsInMask result i) ↔ (spec.IsInMask self i ⊎ spec.IsInMask other i) }
    {
        Mask(self.0 | other.0)
    }

    /// Whether the other set contains all numbers of this one.
    #[tactic(auto, using(crate::specs::MaskLaws::within_bits))]
    pub fn is_within(self, other: Mask) -> bool
        ensures value { result ≡ spec.within self other }
        ensures bits { (IsTrue result) ↔ ((i : ℕ) → spec.IsInMask self i → spec.IsInMask other i) }
    {
        all_in(self.0, other.0)
    }
}

// The bits below `count`.
fn low_bits(count: u32) -> u64
    ensures { result ≡ (spec.first count).0 }
{
    if count < 64 {
        (1 << count) - 1
    } else {
        u64::MAX
    }
}

// `bits` with this bit set.
fn with_bit(bits: u64, number: u32) -> u64
    ensures { result ≡ (spec.with_number (record { 0 = bits }) number).0 }
{
    if number < 64 {
        bits | (1 << number)
    } else {
        bits
    }
}

// `bits` with this bit cleared.
fn without_bit(bits: u64, number: u32) -> u64
    ensures { result ≡ (spec.without_number (record { 0 = bits }) number).0 }
{
    if number < 64 {
        bits - (bits & (1 << number))
    } else {
        bits
    }
}

// Whether `others` has every bit of `bits`.
fn all_in(bits: u64, others: u64) -> bool
    ensures { result ≡ spec.within (record { 0 = bits }) (record { 0 = others }) }
{
    bits & others == bits
}
