//! How long requests took, counted by grades so narrow that each time is told within one percent.

ghost use Rattle.std.specs.Prelude.{◌≡◌, ℕ, ◌+◌, ◌-◌, ◌*◌, ◌/◌, ◌%◌, ◌^◌, ◌<◌, ◌≤◌, List, [], ◌∷◌, ◌++◌, length, slice_index, slice_set, max, sum, None, IfSome, OnOk, OnErr};
ghost use Rattle.bh_look.specs.Times.{AreTimes, IsNear, TellsRank, begin, least_told, most_told};
ghost use Rattle.bh_look.specs.Inside.{IsPadded, IsRanked};
ghost use Rattle.bh_look.specs.Tallies.{sum_up_to};

use std::alloc::{AllocError, Global};
use std::marker::Model;

/// Times below this have a grade each; of those beyond, so many grades share each power of two.
const EXACT: u64 = 128;

/// The binary logarithm of that.
const EXACT_BITS: u32 = 7;

/// The times from submit to answer of some requests, in milliseconds.
#[derive(Drop)]
pub struct Times {
    count: u64,
    least: u64,
    most: u64,
    /// How many there are of each grade, up to the last that has one: of 7,424 at most.
    numbers: Vec<u64>,
}

impl Model for Times {
    ghost use Rattle.bh_look.specs.Times.{TimesView};

    ghost Value = { TimesView };

    ghost use Rattle.bh_look.specs.Inside.{times_of, HasGrades};

    ghost view = { times_of };

    ghost invariant = { HasGrades };
}

impl Times {
    /// None so far.
    pub fn new(alloc: Global) -> Times
        ensures { AreTimes [] result }
    {
        Times {
            count: 0,
            least: u64::MAX,
            most: 0,
            numbers: Vec::new(alloc),
        }
    }

    /// How many there are.
    pub fn count(&self) -> u64
        ensures { (ts : List ℕ) → AreTimes ts self.now → result ≡ length ts }
    {
        self.count
    }

    /// The least of them, where there is one.
    pub fn least(&self) -> Option<u64>
        ensures { (ts : List ℕ) → AreTimes ts self.now → result ≡ least_told ts }
    {
        if self.count == 0 {
            return None;
        }
        Some(self.least)
    }

    /// The greatest of them, where there is one.
    pub fn most(&self) -> Option<u64>
        ensures { (ts : List ℕ) → AreTimes ts self.now → result ≡ most_told ts }
    {
        if self.count == 0 {
            return None;
        }
        Some(self.most)
    }

    /// The middle one, the earlier of two, within one percent.
    pub fn median(&self) -> Option<u64>
        ensures { (ts : List ℕ) → AreTimes ts self.now → TellsRank (length ts / 2 + length ts % 2) ts result }
    {
        self.ranked(self.count / 2 + self.count % 2)
    }

    /// The one that 99 of a hundred do not exceed, within one percent.
    pub fn percentile_99(&self) -> Option<u64>
        ensures { (ts : List ℕ) → AreTimes ts self.now → TellsRank (length ts - length ts / 100) ts result }
    {
        self.ranked(self.count - self.count / 100)
    }

    /// One more. It fails only for want of memory, and there are those of before then.
    pub fn add(&mut self, milliseconds: u64) -> Result<(), AllocError>
        ensures ok { OnOk result ((ts : List ℕ) → AreTimes ts self.old → length ts + 1 < 2 ^ 64 → AreTimes (milliseconds ∷ ts) self.new) }
        ensures err { OnErr result ((ts : List ℕ) → AreTimes ts self.old → AreTimes ts self.new) }
    {
        let grade = grade_of(milliseconds);
        reach(&mut self.numbers, grade + 1)?;
        add_to(&mut self.numbers, grade, 1);
        self.count = self.count.saturating_add(1);
        self.least = self.least.min(milliseconds);
        self.most = self.most.max(milliseconds);
        Ok(())
    }

    /// Those of another, too. It fails only for want of memory, and there are those of before then.
    pub fn add_all(&mut self, other: &Times) -> Result<(), AllocError>
        ensures ok { OnOk result ((ts us : List ℕ) → AreTimes ts self.old → AreTimes us other.now → length us + length ts < 2 ^ 64 → AreTimes (us ++ ts) self.new) }
        ensures err { OnErr result ((ts : List ℕ) → AreTimes ts self.old → AreTimes ts self.new) }
    {
        reach(&mut self.numbers, other.numbers.len())?;
        add_each(&mut self.numbers, &other.numbers);
        self.count = self.count.saturating_add(other.count);
        self.least = self.least.min(other.least);
        self.most = self.most.max(other.most);
        Ok(())
    }

    /// The time of the rank, from 1 by rising time, where there are so many.
    fn ranked(&self, rank: u64) -> Option<u64>
        ensures { (ts : List ℕ) → AreTimes ts self.now → rank ≤ length ts → (0 < length ts → 0 < rank) → TellsRank rank ts result }
    {
        let grade = ranked_grade(&self.numbers, rank)?;
        let time = time_of(grade as u64);
        Some(time.max(self.least).min(self.most))
    }
}

/// Makes the numbers so many at least, the new ones 0. It fails only for want of memory, with fewer of these.
fn reach(numbers: &mut Vec<u64>, count: usize) -> Result<(), AllocError>
    ensures empty { IsPadded numbers.old.items numbers.new.items }
    ensures few { length numbers.new.items ≤ max count (length numbers.old.items) }
    ensures enough { OnOk result (count ≤ length numbers.new.items) }
{
    for _ in numbers.len()..count {
        numbers.push(0)?;
    }
    Ok(())
}

/// So many more of the grade.
fn add_to(numbers: &mut [u64], grade: usize, number: u64)
    requires { grade < length numbers.old }
    ensures { numbers.new ≡ slice_set numbers.old grade (sum_up_to (slice_index numbers.old grade) number) }
{
    numbers[grade] = numbers[grade].saturating_add(number);
}

/// So many more of each grade as the others are.
fn add_each(numbers: &mut [u64], others: &[u64])
    requires { length others.now ≤ length numbers.old }
    ensures count { length numbers.new ≡ length numbers.old }
    ensures each { (k : ℕ) → slice_index numbers.old k + slice_index others.now k < 2 ^ 64 → slice_index numbers.new k ≡ slice_index numbers.old k + slice_index others.now k }
{
    for grade in 0..others.len() {
        add_to(numbers, grade, others[grade]);
    }
}

/// The first grade that has a time and up to which there are so many.
fn ranked_grade(numbers: &[u64], rank: u64) -> Option<usize>
    ensures found { IfSome result (λ grade. IsRanked rank grade numbers.now) }
    ensures none { result ≡ None → 0 < rank → sum numbers.now < rank }
{
    let mut before = 0u64;
    for grade in 0..numbers.len() {
        before = before.saturating_add(numbers[grade]);
        if before >= rank && numbers[grade] > 0 {
            return Some(grade);
        }
    }
    None
}

/// The grade of the time.
fn grade_of(milliseconds: u64) -> usize
    ensures few { result < 7424 }
    ensures from { begin result ≤ milliseconds }
    ensures to { milliseconds < begin (result + 1) }
{
    if milliseconds < EXACT {
        return milliseconds as usize;
    }
    let doubled = milliseconds.ilog2().saturating_sub(EXACT_BITS);
    let within = (milliseconds >> doubled).min(2 * EXACT - 1);
    (u64::from(doubled) * EXACT + within) as usize
}

/// The time in the middle of the grade.
fn time_of(grade: u64) -> u64
    requires { grade < 7424 }
    ensures { (x : ℕ) → begin grade ≤ x → x < begin (grade + 1) → IsNear result x }
{
    if grade < EXACT {
        return grade;
    }
    let doubled = grade / EXACT - 1;
    ((grade % EXACT + EXACT) << doubled) + (1u64 << doubled) / 2
}
