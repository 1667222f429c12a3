//! Numbers in tables, and one that stands for none.
ghost use Rattle.std.specs.Prelude.{◌≡◌, slice_index_or, slice_set};

/// No place, no literal, no clause.
pub(crate) const NONE: u32 = u32::MAX;

/// The number at this place, and none beyond the table.
pub(crate) fn number_at(numbers: &[u32], place: u32) -> u32
    ensures { result ≡ slice_index_or numbers.now place NONE }
{
    match numbers.get(place as usize) {
        Some(number) => *number,
        None => NONE,
    }
}

/// Puts a number at this place of the table.
pub(crate) fn put(numbers: &mut [u32], place: u32, number: u32)
    ensures { numbers.new ≡ slice_set numbers.old place number }
{
    let place = place as usize;
    if place < numbers.len() {
        numbers[place] = number;
    }
}

/// Puts a mark at this place of the table, or takes it away.
pub(crate) fn put_mark(marks: &mut [bool], place: u32, marked: bool)
    ensures { marks.new ≡ slice_set marks.old place marked }
{
    let place = place as usize;
    if place < marks.len() {
        marks[place] = marked;
    }
}

/// A count as a number of a table, where it is one.
pub(crate) fn number_of(count: usize) -> u32 {
    match u32::try_from(count) {
        Ok(number) => number,
        Err(_) => NONE,
    }
}
