//! Which numbers were counted, and which are missing.
ghost use Rattle.std.specs.Prelude.{◌≡◌, ◌↔◌, ℕ, List, ◌+◌, ◌-◌, ◌^◌, ◌<◌, ◌≤◌, [], ◌∷◌, ◌++◌, IfOk, OnErr, OnOk, IfSome, MatchOption, IsTrue, min, length};
ghost use Rattle.std.specs.List.{Contains};

use link::NoMemory;
use std::alloc::Global;
use std::collections::BTreeMap;
use std::collections::btree_map::Iter;

/// The numbers that were counted so far: keeps the ranges of missing numbers below the greatest one, and nothing of the others.
///
/// # Example
/// ```rust
/// let mut tally = Tally::new(rt.alloc());
/// for (number, again, missing) in NUMBERS {
///     check(&rt, counts(&mut tally, number, again, missing));
/// }
/// check(&rt, tally.next() == 6 && tally.counted() == 7);
/// ```
#[derive(Drop)]
pub struct Tally {
    // the last number of each range, by its first
    gaps: BTreeMap<u64, u64>,
    next: u64,
    count: u64,
}

impl Tally {
    ghost use Rattle.journal_scan.specs.Tallies.{IsTally, Tallies, AreApart, AreMissing, NeedsRange, LiesIn, IsGapAt, KeysBelow, behind_greatest, behind_ranges, gaps_of, gaps_without, gap_before, gap};

    /// A tally that has counted nothing. Doesn't allocate yet.
    pub fn new(alloc: Global) -> Tally
        ensures { IsTally [] result }
    {
        Tally {
            gaps: BTreeMap::new(alloc),
            next: 0,
            count: 0,
        }
    }

    // The range of missing numbers that has this number: its first and its last.
    fn gap_at(&self, number: u64) -> Option<(u64, u64)>
        ensures first { IfSome result (λ g. g.0 ≤ number) }
        ensures last { IfSome result (λ g. number ≤ g.1) }
        ensures at { AreApart 0 (gaps_of self.now.gaps.entries) → MatchOption result
            (LiesIn (gaps_of self.now.gaps.entries) number → ⊥)
            (λ g. IsGapAt self.now.gaps.entries g number) }
    {
        match self.gaps.range(..=number).next_back() {
            Some((first, last)) => {
                if number <= *last {
                    return Some((*first, *last));
                }
                None
            }
            None => None,
        }
    }

    // Keeps of a range the numbers before this one, if there are any.
    fn shorten(&mut self, first: u64, number: u64) -> Result<(), NoMemory>
        ensures shortened { OnOk result ((front rest : List (ℕ × ℕ)) (last : ℕ)
            → KeysBelow first front → self.old.gaps.entries ≡ front ++ ((first, last) ∷ rest)
            → gaps_of self.new.gaps.entries
            ≡ gaps_of front ++ (gap_before first number ++ gaps_of rest)) }
        ensures there { OnErr result ((front rest : List (ℕ × ℕ)) (last : ℕ)
            → KeysBelow first front → self.old.gaps.entries ≡ front ++ ((first, last) ∷ rest)
            → ⊥) }
        ensures next { self.new.next ≡ self.old.next }
        ensures count { self.new.count ≡ self.old.count }
    {
        if first < number {
            // the range is there, so nothing is allocated
            return match self.gaps.insert(first, number - 1) {
                Ok(_) => Ok(()),
                Err(_) => Err(NoMemory),
            };
        }
        let _ = self.gaps.remove(&first);
        Ok(())
    }

    // Takes a number out of its range.
    fn cut_out(&mut self, first: u64, last: u64, number: u64) -> Result<(), NoMemory>
        requires first { first ≤ number }
        requires last { number ≤ last }
        ensures cut { OnOk result ((front rest : List (ℕ × ℕ))
            → AreApart 0 (gaps_of self.old.gaps.entries)
            → self.old.gaps.entries ≡ front ++ ((first, last) ∷ rest)
            → gaps_of self.new.gaps.entries
            ≡ gaps_of front ++ (gaps_without (gap (first, last)) number ++ gaps_of rest)) }
        ensures kept { OnErr result ((front rest : List (ℕ × ℕ))
            → AreApart 0 (gaps_of self.old.gaps.entries)
            → self.old.gaps.entries ≡ front ++ ((first, last) ∷ rest)
            → self.new.gaps.entries ≡ self.old.gaps.entries) }
        ensures next { self.new.next ≡ self.old.next }
        ensures count { self.new.count ≡ self.old.count }
    {
        if number < last {
            return match self.gaps.insert(number + 1, last) {
                Ok(_) => self.shorten(first, number),
                Err(_) => Err(NoMemory),
            };
        }
        self.shorten(first, number)
    }

    // Makes a range of the numbers from the next one to the one before this.
    fn pass_to(&mut self, number: u64) -> Result<(), NoMemory>
        ensures ahead { OnOk result (AreApart 0 (gaps_of self.old.gaps.entries)
            → (self.old.next < number
            → behind_ranges 0 (gaps_of self.old.gaps.entries) ≤ self.old.next)
            → gaps_of self.new.gaps.entries
            ≡ gaps_of self.old.gaps.entries ++ gap_before self.old.next number) }
        ensures next { self.new.next ≡ self.old.next }
        ensures count { self.new.count ≡ self.old.count }
        ensures kept { OnErr result (self.new.gaps.entries ≡ self.old.gaps.entries) }
        ensures needs { OnErr result (self.old.next < number) }
    {
        if self.next < number {
            return match self.gaps.insert(self.next, number - 1) {
                Ok(_) => Ok(()),
                Err(_) => Err(NoMemory),
            };
        }
        Ok(())
    }

    // Counts a number, and returns whether it was there.
    fn put(&mut self, number: u64) -> Result<bool, NoMemory>
        ensures put { OnOk result ((numbers : List ℕ) → IsTally numbers self.old
            → Tallies (numbers ++ number ∷ []) self.new.next (gaps_of self.new.gaps.entries)
            (min (self.old.count + 1) (2 ^ 64 - 1))) }
        ensures again { IfOk result (λ again. (numbers : List ℕ) → IsTally numbers self.old
            → number < 2 ^ 64 - 1 → IsTrue again ↔ Contains numbers number) }
        ensures count { self.new.count ≡ self.old.count }
        ensures kept { OnErr result ((numbers : List ℕ) → IsTally numbers self.old
            → IsTally numbers self.new) }
        ensures needs { OnErr result ((numbers : List ℕ) → IsTally numbers self.old
            → NeedsRange numbers number) }
    {
        if number < self.next {
            return match self.gap_at(number) {
                Some((first, last)) => {
                    self.cut_out(first, last, number)?;
                    Ok(false)
                }
                None => Ok(true),
            };
        }
        self.pass_to(number)?;
        self.next = number.saturating_add(1);
        Ok(false)
    }

    /// Counts a number, and returns whether it was counted before; what it returns for 2^64 - 1 isn't specified.
    ///
    /// # Errors
    /// `NoMemory`: a range of missing numbers couldn't be allocated, and the number isn't counted. It wasn't counted before, and isn't
    /// `next`.
    ///
    /// # Allocates
    /// A range of missing numbers, if there is one more.
    ///
    /// # Example
    /// ```rust
    /// match tally.count(number) {
    ///     Ok(found) => found == again && are_missing(tally, missing),
    ///     Err(_) => false,
    /// }
    /// ```
    pub fn count(&mut self, number: u64) -> Result<bool, NoMemory>
        ensures counted { OnOk result ((numbers : List ℕ) → IsTally numbers self.old
            → IsTally (numbers ++ number ∷ []) self.new) }
        ensures again { IfOk result (λ again. (numbers : List ℕ) → IsTally numbers self.old
            → number < 2 ^ 64 - 1 → IsTrue again ↔ Contains numbers number) }
        ensures kept { OnErr result ((numbers : List ℕ) → IsTally numbers self.old
            → IsTally numbers self.new) }
        ensures needs { OnErr result ((numbers : List ℕ) → IsTally numbers self.old
            → NeedsRange numbers number) }
    {
        let again = self.put(number)?;
        self.count = self.count.saturating_add(1);
        Ok(again)
    }

    /// How many numbers were counted, with repetitions; at most 2^64 - 1.
    pub fn counted(&self) -> u64
        ensures { (numbers : List ℕ) → IsTally numbers self.now
            → result ≡ min (length numbers) (2 ^ 64 - 1) }
    {
        self.count
    }

    /// The number after the greatest one; at most 2^64 - 1, and 0 if none was counted.
    pub fn next(&self) -> u64
        ensures { (numbers : List ℕ) → IsTally numbers self.now → result ≡ behind_greatest numbers }
    {
        self.next
    }

    /// The ranges of the numbers below `next` that weren't counted, in order: the first and the last number of each.
    pub fn missing(&self) -> Iter<'_, u64, u64>
        ensures { (numbers : List ℕ) → IsTally numbers self.now
            → AreMissing numbers (gaps_of result) }
    {
        self.gaps.iter()
    }
}
