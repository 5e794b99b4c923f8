//! Sets of events, of clauses and of regions.
ghost use Rattle.std.specs.Prelude.{◌≡◌, ◌↔◌, ◌<◌, ◌≤◌, ◌==◌, ◌&&◌, ◌||◌, [], ℕ, ◌∷◌, true, false, IsTrue, IfSome, if◌then◌else◌};
ghost use Rattle.std.specs.List.{filter};
ghost use Rattle.loom_law.specs.Filter.{has, share};
ghost use Rattle.loom_plan.specs.Numbers.{most_numbers, TakesFirst};
ghost use Rattle.loom_plan.specs.Sets.{event_numbers, clause_numbers, region_numbers};

use crate::numbers::Numbers;

/// A set of events, by their numbers in a filter: from 1 to 32.
#[derive(Clone, Copy, Debug, Drop, PartialEq, Eq)]
pub struct EventSet {
    numbers: Numbers,
}

impl EventSet {
    /// The empty set.
    pub fn none() -> EventSet
        ensures { event_numbers result ≡ [] }
    {
        EventSet {
            numbers: Numbers::none(),
        }
    }

    /// Adds a number.
    pub fn put(&mut self, n: u8)
        requires low { 0 < n }
        requires high { n ≤ most_numbers }
        ensures put { (m : ℕ) → has (event_numbers self.new) m ≡ (if m == n then true else has (event_numbers self.old) m) }
        ensures first { ((m : ℕ) → m ≤ n → has (event_numbers self.old) m ≡ false) → event_numbers self.new ≡ n ∷ event_numbers self.old }
    {
        self.numbers.put(n);
    }

    /// Adds a number where that holds.
    pub fn put_if(&mut self, n: u8, holds: bool)
        requires low { 0 < n }
        requires high { n ≤ most_numbers }
        ensures put { (m : ℕ) → has (event_numbers self.new) m ≡ (if holds && (m == n) then true else has (event_numbers self.old) m) }
        ensures first { ((m : ℕ) → m ≤ n → has (event_numbers self.old) m ≡ false) → event_numbers self.new ≡ (if holds then n ∷ event_numbers self.old else event_numbers self.old) }
    {
        self.numbers.put_if(n, holds);
    }

    /// Whether the number is in the set.
    pub fn has(self, n: u8) -> bool
        ensures { result ≡ has (event_numbers self) n }
    {
        self.numbers.has(n)
    }

    /// Whether the set is empty.
    pub fn is_empty(self) -> bool
        ensures { IsTrue result ↔ (event_numbers self ≡ []) }
    {
        self.numbers.is_empty()
    }

    /// The numbers of one or the other.
    pub fn with(self, other: EventSet) -> EventSet
        ensures { (n : ℕ) → has (event_numbers result) n ≡ (has (event_numbers self) n || has (event_numbers other) n) }
    {
        EventSet {
            numbers: self.numbers.with(other.numbers),
        }
    }

    /// Takes out the least number, if there is one.
    pub fn pop_first(&mut self) -> Option<u8>
        ensures taken { TakesFirst (event_numbers self.old) (event_numbers self.new) result }
        ensures within { IfSome result (λ n. (0 < n) × (n ≤ most_numbers)) }
    {
        self.numbers.pop_first()
    }

    /// The numbers of both.
    pub fn both(self, other: EventSet) -> EventSet
        ensures { event_numbers result ≡ filter (has (event_numbers other)) (event_numbers self) }
    {
        EventSet {
            numbers: self.numbers.both(other.numbers),
        }
    }

    /// Whether a number is in both.
    pub fn meets(self, other: EventSet) -> bool
        ensures { result ≡ share (event_numbers self) (event_numbers other) }
    {
        self.numbers.meets(other.numbers)
    }
}

/// A set of clauses, by their numbers in a filter: from 1 to 8.
#[derive(Clone, Copy, Debug, Drop, PartialEq, Eq)]
pub struct ClauseSet {
    numbers: Numbers,
}

impl ClauseSet {
    /// The empty set.
    pub fn none() -> ClauseSet
        ensures { clause_numbers result ≡ [] }
    {
        ClauseSet {
            numbers: Numbers::none(),
        }
    }

    /// Adds a number.
    pub fn put(&mut self, n: u8)
        requires low { 0 < n }
        requires high { n ≤ most_numbers }
        ensures put { (m : ℕ) → has (clause_numbers self.new) m ≡ (if m == n then true else has (clause_numbers self.old) m) }
        ensures first { ((m : ℕ) → m ≤ n → has (clause_numbers self.old) m ≡ false) → clause_numbers self.new ≡ n ∷ clause_numbers self.old }
    {
        self.numbers.put(n);
    }

    /// Adds a number where that holds.
    pub fn put_if(&mut self, n: u8, holds: bool)
        requires low { 0 < n }
        requires high { n ≤ most_numbers }
        ensures put { (m : ℕ) → has (clause_numbers self.new) m ≡ (if holds && (m == n) then true else has (clause_numbers self.old) m) }
        ensures first { ((m : ℕ) → m ≤ n → has (clause_numbers self.old) m ≡ false) → clause_numbers self.new ≡ (if holds then n ∷ clause_numbers self.old else clause_numbers self.old) }
    {
        self.numbers.put_if(n, holds);
    }

    /// Whether the number is in the set.
    pub fn has(self, n: u8) -> bool
        ensures { result ≡ has (clause_numbers self) n }
    {
        self.numbers.has(n)
    }

    /// Whether the set is empty.
    pub fn is_empty(self) -> bool
        ensures { IsTrue result ↔ (clause_numbers self ≡ []) }
    {
        self.numbers.is_empty()
    }

    /// The numbers of one or the other.
    pub fn with(self, other: ClauseSet) -> ClauseSet
        ensures { (n : ℕ) → has (clause_numbers result) n ≡ (has (clause_numbers self) n || has (clause_numbers other) n) }
    {
        ClauseSet {
            numbers: self.numbers.with(other.numbers),
        }
    }

    /// Takes out the least number, if there is one.
    pub fn pop_first(&mut self) -> Option<u8>
        ensures taken { TakesFirst (clause_numbers self.old) (clause_numbers self.new) result }
        ensures within { IfSome result (λ n. (0 < n) × (n ≤ most_numbers)) }
    {
        self.numbers.pop_first()
    }
}

/// A set of regions, by their numbers in a filter, in the order of the text: from 1 to 32.
#[derive(Clone, Copy, Debug, Drop, PartialEq, Eq)]
pub struct RegionSet {
    numbers: Numbers,
}

impl RegionSet {
    /// The empty set.
    pub fn none() -> RegionSet
        ensures { region_numbers result ≡ [] }
    {
        RegionSet {
            numbers: Numbers::none(),
        }
    }

    /// Adds a number.
    pub fn put(&mut self, n: u8)
        requires low { 0 < n }
        requires high { n ≤ most_numbers }
        ensures put { (m : ℕ) → has (region_numbers self.new) m ≡ (if m == n then true else has (region_numbers self.old) m) }
        ensures first { ((m : ℕ) → m ≤ n → has (region_numbers self.old) m ≡ false) → region_numbers self.new ≡ n ∷ region_numbers self.old }
    {
        self.numbers.put(n);
    }

    /// Adds a number where that holds.
    pub fn put_if(&mut self, n: u8, holds: bool)
        requires low { 0 < n }
        requires high { n ≤ most_numbers }
        ensures put { (m : ℕ) → has (region_numbers self.new) m ≡ (if holds && (m == n) then true else has (region_numbers self.old) m) }
        ensures first { ((m : ℕ) → m ≤ n → has (region_numbers self.old) m ≡ false) → region_numbers self.new ≡ (if holds then n ∷ region_numbers self.old else region_numbers self.old) }
    {
        self.numbers.put_if(n, holds);
    }

    /// Whether the number is in the set.
    pub fn has(self, n: u8) -> bool
        ensures { result ≡ has (region_numbers self) n }
    {
        self.numbers.has(n)
    }

    /// Whether the set is empty.
    pub fn is_empty(self) -> bool
        ensures { IsTrue result ↔ (region_numbers self ≡ []) }
    {
        self.numbers.is_empty()
    }

    /// The numbers of one or the other.
    pub fn with(self, other: RegionSet) -> RegionSet
        ensures { (n : ℕ) → has (region_numbers result) n ≡ (has (region_numbers self) n || has (region_numbers other) n) }
    {
        RegionSet {
            numbers: self.numbers.with(other.numbers),
        }
    }

    /// Takes out the least number, if there is one.
    pub fn pop_first(&mut self) -> Option<u8>
        ensures taken { TakesFirst (region_numbers self.old) (region_numbers self.new) result }
        ensures within { IfSome result (λ n. (0 < n) × (n ≤ most_numbers)) }
    {
        self.numbers.pop_first()
    }
}
