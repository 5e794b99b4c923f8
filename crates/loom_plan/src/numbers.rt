//! Small sets of numbers.
ghost use Rattle.std.specs.Prelude.{◌≡◌, ◌↔◌, ◌<◌, ◌≤◌, ◌==◌, ◌&&◌, ◌||◌, [], ℕ, ◌∷◌, not, true, false, IsTrue, IfSome, if◌then◌else◌};
ghost use Rattle.std.specs.List.{filter};
ghost use Rattle.loom_law.specs.Filter.{has, share};
ghost use Rattle.loom_plan.specs.Numbers.{numbers_of, most_numbers, TakesFirst};

/// A set of numbers from 1 to 32.
#[derive(Clone, Copy, Debug, Drop, PartialEq, Eq)]
pub struct Numbers {
    // Number n has bit n - 1.
    bits: u32,
}

impl Numbers {
    /// The empty set.
    #[tactic(auto, using(crate::proofs::Select::has_nothing))]
    pub fn none() -> Numbers
        ensures { numbers_of result ≡ [] }
    {
        Numbers { bits: 0 }
    }

    /// Adds a number.
    #[tactic(auto, using(crate::proofs::Select::put_bit, crate::proofs::Select::put_first))]
    pub fn put(&mut self, n: u8)
        requires low { 0 < n }
        requires high { n ≤ most_numbers }
        ensures put { (m : ℕ) → has (numbers_of self.new) m ≡ (if m == n then true else has (numbers_of self.old) m) }
        ensures first { ((m : ℕ) → m ≤ n → has (numbers_of self.old) m ≡ false) → numbers_of self.new ≡ n ∷ numbers_of self.old }
    {
        self.bits |= 1u32 << (n - 1);
    }

    /// Adds a number where that holds.
    pub fn put_if(&mut self, n: u8, holds: bool)
        requires low { 0 < n }
        requires high { n ≤ most_numbers }
        ensures put { (m : ℕ) → has (numbers_of self.new) m ≡ (if holds && (m == n) then true else has (numbers_of self.old) m) }
        ensures first { ((m : ℕ) → m ≤ n → has (numbers_of self.old) m ≡ false) → numbers_of self.new ≡ (if holds then n ∷ numbers_of self.old else numbers_of self.old) }
    {
        if holds {
            self.put(n);
        }
    }

    /// Whether the number is in the set.
    pub fn has(self, n: u8) -> bool
        ensures { result ≡ has (numbers_of self) n }
    {
        if n == 0 || n > 32 {
            return false;
        }
        (self.bits >> (n - 1)) % 2 == 1
    }

    /// Whether the set is empty.
    #[tactic(auto, using(crate::proofs::Select::empty_bits))]
    pub fn is_empty(self) -> bool
        ensures { IsTrue result ↔ (numbers_of self ≡ []) }
    {
        self.bits == 0
    }

    /// The numbers of both.
    #[tactic(auto, using(crate::proofs::Select::both_bits))]
    pub fn both(self, other: Numbers) -> Numbers
        ensures { numbers_of result ≡ filter (has (numbers_of other)) (numbers_of self) }
    {
        Numbers {
            bits: self.bits & other.bits,
        }
    }

    /// The numbers of one or the other.
    #[tactic(auto, using(crate::proofs::Select::either_bit))]
    pub fn with(self, other: Numbers) -> Numbers
        ensures { (n : ℕ) → has (numbers_of result) n ≡ (has (numbers_of self) n || has (numbers_of other) n) }
    {
        Numbers {
            bits: self.bits | other.bits,
        }
    }

    /// Whether a number is in both.
    #[tactic(auto, using(crate::proofs::Select::any_left))]
    pub fn meets(self, other: Numbers) -> bool
        ensures { result ≡ share (numbers_of self) (numbers_of other) }
    {
        !self.both(other).is_empty()
    }

    /// Takes out the least number, if there is one.
    #[tactic(auto, using(crate::proofs::Select::first_bit, crate::proofs::Select::has_nothing))]
    pub fn pop_first(&mut self) -> Option<u8>
        ensures taken { TakesFirst (numbers_of self.old) (numbers_of self.new) result }
        ensures within { IfSome result (λ n. (0 < n) × (n ≤ most_numbers)) }
    {
        if self.bits == 0 {
            return None;
        }
        let first = self.bits.trailing_zeros() as u8;
        self.bits &= !(1u32 << first);
        Some(first + 1)
    }
}
