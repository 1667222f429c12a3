//! The topmost of the lines that come from some lines by combinations.
ghost use Rattle.re_labels.specs.Rows.{Dominates};
ghost use Rattle.re_labels.specs.declared.TheConstants.{MAX_ROWS};
ghost use Rattle.re_closure_laws.specs.Closures.{AreTopmost};
ghost use Rattle.re_closure.specs.Kept.{AreOfLength, AreOffered, AreSettled, HasManyCombinations, HasManyLines, IsAntichain, IsCounted, IsKept, IsTaken, combinations_of};
ghost use Rattle.re_closure.specs.declared.topmost.TheConstants.{MAX_COMBINATIONS};
ghost use Rattle.std.specs.Prelude.{◌≡◌, ◌≢◌, Err, ◌+◌, ◌*◌, ◌<◌, ◌≤◌, ◌↔◌, Contains, IfOk, List, OnOk, length, ℕ, ◌∷◌};

use crate::combining::combinations;
use crate::dominating::{dominates, is_dominated};
use crate::line::SetLine;
use re_labels::{MAX_ROWS, NoMemory};
use std::alloc::{AllocError, AllocFailed, Global};

/// How many combinations may wait, and how many may be looked at.
pub const MAX_COMBINATIONS: usize = 1_048_576;

/// Why the topmost lines could not be given.
#[derive(Clone, Copy, Debug, PartialEq, Eq)]
pub enum LinesFault {
    /// More than `re_labels::MAX_ROWS` lines, of which none dominates another, would have been kept at a time on the way.
    TooManyLines,
    /// More than `MAX_COMBINATIONS` lines waited, or had to be looked at: the given ones, and combinations of lines that come from them.
    TooManyCombinations,
    /// There was no memory.
    NoMemory,
}

impl From<NoMemory> for LinesFault {
    ghost use Rattle.re_closure.specs.declared.topmost.LinesFault.TheVariants.{NoMemory as no_memory};

    ghost from_gives = { λ _ e. e ≡ no_memory };

    fn from(_: NoMemory) -> LinesFault {
        LinesFault::NoMemory
    }
}

impl From<AllocError> for LinesFault {
    ghost use Rattle.re_closure.specs.declared.topmost.LinesFault.TheVariants.{NoMemory as no_memory};

    ghost from_gives = { λ _ e. e ≡ no_memory };

    fn from(_: AllocError) -> LinesFault {
        LinesFault::NoMemory
    }
}

impl<T: Drop> From<AllocFailed<T>> for LinesFault {
    ghost use Rattle.re_closure.specs.declared.topmost.LinesFault.TheVariants.{NoMemory as no_memory};

    ghost from_gives = { λ _ e. e ≡ no_memory };

    fn from(_fault: AllocFailed<T>) -> LinesFault {
        LinesFault::NoMemory
    }
}

// How many labels the sets of the line have together.
fn labels_in(line: &SetLine) -> usize {
    let mut labels: usize = 0;
    for set in line.sets() {
        labels = labels.saturating_add(set.count() as usize);
    }
    labels
}

// The place of the first line with the most labels.
fn largest(lines: &[SetLine]) -> usize
    requires { 0 < length lines.now }
    ensures { result < length lines.now }
{
    let mut best = 0;
    let mut most = 0;
    for place in 0..lines.len() {
        let count = labels_in(&lines[place]);
        if count > most {
            best = place;
            most = count;
        }
    }
    best
}

// Takes a line with the most labels from those that wait.
fn take_largest(waiting: &mut Vec<SetLine>) -> SetLine
    requires { 0 < length waiting.old.items }
    ensures taken { IsTaken waiting.old.items result waiting.new.items }
    ensures count { length waiting.old.items ≡ length waiting.new.items + 1 }
{
    let place = largest(waiting.as_slice());
    waiting.swap_remove(place)
}

// The lines that the top doesn't dominate.
fn not_below(alloc: Global, lines: &[SetLine], top: &SetLine) -> Result<Vec<SetLine>, NoMemory>
    ensures left { IfOk result (λ left. (line : List (List ℕ)) → Contains left.items line ↔ (Contains lines.now line × (¬ Dominates top.now line))) }
    ensures unrelated { IfOk result (λ left. IsAntichain lines.now → IsAntichain left.items) }
    ensures few { IfOk result (λ left. length left.items ≤ length lines.now) }
{
    let mut left = Vec::new(alloc);
    for line in lines {
        if !dominates(top, line) {
            left.push(line.copy())?;
        }
    }
    Ok(left)
}

// Lets each line that was found wait, unless a kept one dominates it.
fn offer(kept: &[SetLine], found: &[SetLine], waiting: &mut Vec<SetLine>) -> Result<(), LinesFault>
    ensures offered { OnOk result (AreOffered kept.now found.now waiting.old.items waiting.new.items) }
    ensures few { OnOk result (length waiting.new.items ≤ length waiting.old.items + length found.now) }
    ensures full { result ≡ Err LinesFault.TooManyCombinations → MAX_COMBINATIONS < length waiting.old.items + length found.now }
    ensures fault { result ≢ Err LinesFault.TooManyLines }
{
    for line in found {
        if !is_dominated(kept, line) {
            if waiting.len() >= MAX_COMBINATIONS {
                return Err(LinesFault::TooManyCombinations);
            }
            waiting.push(line.copy())?;
        }
    }
    Ok(())
}

// Lets the combinations of the line with the kept ones wait, unless a kept one dominates them.
fn offer_combinations(
    alloc: Global,
    kept: &[SetLine],
    line: &SetLine,
    waiting: &mut Vec<SetLine>,
) -> Result<(), LinesFault>
    ensures settled { OnOk result (AreSettled kept.now line.now waiting.old.items waiting.new.items) }
    ensures few { OnOk result (length waiting.new.items ≤ length waiting.old.items + length kept.now * combinations_of (length line.now)) }
    ensures full { result ≡ Err LinesFault.TooManyCombinations
        → MAX_COMBINATIONS < length waiting.old.items + length kept.now * combinations_of (length line.now) }
    ensures fault { result ≢ Err LinesFault.TooManyLines }
{
    let length = line.sets().len();
    for other in kept {
        if other.sets().len() == length {
            let found = combinations(alloc, line, other)?;
            offer(kept, found.as_slice(), waiting)?;
        }
    }
    Ok(())
}

// Keeps the line in place of those that it dominates, and lets its combinations with the kept ones wait, unless a kept one dominates it.
fn settle(
    alloc: Global,
    kept: &mut Vec<SetLine>,
    line: &SetLine,
    waiting: &mut Vec<SetLine>,
) -> Result<(), LinesFault>
    ensures kept { OnOk result ((d : ℕ) (starts : List (List (List ℕ))) → IsKept d starts kept.old.items (line.now ∷ waiting.old.items)
        → IsKept d starts kept.new.items waiting.new.items) }
    ensures few { OnOk result (length kept.old.items ≤ MAX_ROWS → length kept.new.items ≤ MAX_ROWS) }
    ensures unrelated { OnOk result (IsAntichain kept.old.items → IsAntichain kept.new.items) }
    ensures many { result ≡ Err LinesFault.TooManyLines → (d : ℕ) (starts : List (List (List ℕ))) → IsAntichain kept.old.items
        → IsKept d starts kept.old.items (line.now ∷ waiting.old.items) → HasManyLines d starts }
    ensures counted { OnOk result ((d looked : ℕ) (starts : List (List (List ℕ))) → IsKept d starts kept.old.items (line.now ∷ waiting.old.items)
        → IsCounted d starts kept.old.items (line.now ∷ waiting.old.items) looked → IsCounted d starts kept.new.items waiting.new.items (looked + 1)) }
    ensures full { result ≡ Err LinesFault.TooManyCombinations → (d looked : ℕ) (starts : List (List (List ℕ)))
        → IsKept d starts kept.old.items (line.now ∷ waiting.old.items) → IsCounted d starts kept.old.items (line.now ∷ waiting.old.items) looked
        → HasManyCombinations d starts }
{
    if is_dominated(kept.as_slice(), line) {
        return Ok(());
    }
    let mut more = not_below(alloc, kept.as_slice(), line)?;
    if more.len() >= MAX_ROWS {
        return Err(LinesFault::TooManyLines);
    }
    more.push(line.copy())?;
    offer_combinations(alloc, more.as_slice(), line, waiting)?;
    *kept = more;
    Ok(())
}

/// The topmost lines of what comes from some lines of one length by combinations: each such line is dominated by one of them, and
/// none of them dominates another. They are at most `re_labels::MAX_ROWS`, and come in no certain order.
///
/// `TooManyLines` comes only where more lines than that, of which none dominates another, come from the given ones. Whether these are
/// met on the way, before lines that dominate them, is the algorithm's: it settles lines with many labels first. `TooManyCombinations`
/// comes only where the given lines, and the combinations of two different lines that come from them or of one with itself, are more than
/// `MAX_COMBINATIONS`. Most such combinations are never looked at, so it is far from coming wherever there are so many.
///
/// The cost is that of the combinations of each line that is kept at some time with those that are kept then, each compared with
/// the kept ones.
pub fn topmost_lines(alloc: Global, starts: Vec<SetLine>) -> Result<Vec<SetLine>, LinesFault>
    ensures topmost { IfOk result (λ lines. (d : ℕ) → AreOfLength d starts.items → AreTopmost d starts.items lines.items) }
    ensures few { IfOk result (λ lines. length lines.items ≤ MAX_ROWS) }
    ensures many { result ≡ Err LinesFault.TooManyLines → (d : ℕ) → AreOfLength d starts.items → HasManyLines d starts.items }
    ensures full { result ≡ Err LinesFault.TooManyCombinations → (d : ℕ) → AreOfLength d starts.items → HasManyCombinations d starts.items }
{
    let mut waiting = starts;
    let mut kept = Vec::new(alloc);
    for _settled in 0..MAX_COMBINATIONS {
        if waiting.is_empty() {
            return Ok(kept);
        }
        let line = take_largest(&mut waiting);
        settle(alloc, &mut kept, &line, &mut waiting)?;
    }
    if waiting.is_empty() {
        return Ok(kept);
    }
    Err(LinesFault::TooManyCombinations)
}
