//! A certificate or a problem with an input problem behind it, written with its configurations in groups.
ghost use Rattle.re_chains.specs.TwoTexts.{back_problem, front_bound, two_fault};
ghost use Rattle.re_describe.specs.GroupTexts.{WritesBoth};
ghost use Rattle.std.specs.Prelude.{◌≡◌, ◌≤◌, IfOk, IsTrue, None, codes, length};

use crate::groups::{copied, grouped, push_grouped};
use re_cert::Certificate;
use re_chains::{TwoTexts, is_certificate_text, print_given, read_two};
use re_frame::{Answer, push_words};
use re_io::MAX_BYTES;
use re_labels::NoMemory;
use re_problem::{Problem, TextFault};
use re_settings::GIVEN;
use std::alloc::Global;

// Whether the two bounds and the two input problems have one text. Then they are the same.
fn are_same(
    alloc: Global,
    bound: &Certificate,
    input: &Problem,
    other: &TwoTexts,
) -> Result<bool, NoMemory>
    ensures { IfOk result (λ same. IsTrue same → (other.now.bound ≡ bound.now) × (other.now.problem ≡ input.now)) }
{
    let printed = print_given(alloc, bound, input)?;
    let again = print_given(alloc, &other.bound, &other.problem)?;
    match (printed.answer, again.answer) {
        (Answer::Done, Answer::Done) => Ok(printed.text.as_slice() == again.text.as_slice()),
        _ => Ok(false),
    }
}

/// Whether the text can be read, and writes both.
pub(crate) fn writes_both(
    alloc: Global,
    text: &[u8],
    bound: &Certificate,
    input: &Problem,
) -> Result<bool, NoMemory>
    ensures { IfOk result (λ same. IsTrue same → (length text.now ≤ MAX_BYTES) × (two_fault (codes "given") text.now ≡ None)
        × (front_bound (codes "given") text.now ≡ bound.now) × (back_problem (codes "given") text.now ≡ input.now)) }
{
    if text.len() > MAX_BYTES {
        return Ok(false);
    }
    match read_two(alloc, GIVEN, text) {
        Ok(again) => are_same(alloc, bound, input, &again),
        Err(TextFault::Bad(_)) => Ok(false),
        Err(TextFault::NoMemory) => Err(NoMemory),
    }
}

/// The text of both in groups.
pub(crate) fn grouped_both(
    alloc: Global,
    bound: &Certificate,
    input: &Problem,
    is_whole: bool,
) -> Result<Vec<u8>, NoMemory> {
    let mut text = grouped(alloc, bound, is_whole)?;
    push_words(&mut text, "== given\n")?;
    push_grouped(&mut text, input)?;
    Ok(text)
}

/// The text of a certificate or a problem and an input problem with their configurations in groups. It is read, and given where it can be
/// read and writes the same; else, as where it is longer than texts may be, the given text is. It costs what `in_groups` costs for both.
pub(crate) fn in_groups_given(
    alloc: Global,
    text: &[u8],
    texts: &TwoTexts,
) -> Result<Vec<u8>, NoMemory>
    requires short { length text.now ≤ MAX_BYTES }
    requires right { two_fault (codes "given") text.now ≡ None }
    requires bound { texts.now.bound ≡ front_bound (codes "given") text.now }
    requires input { texts.now.problem ≡ back_problem (codes "given") text.now }
    ensures { IfOk result (λ new. WritesBoth text.now texts.now.bound texts.now.problem new.items) }
{
    let is_whole = is_certificate_text(text);
    let new = grouped_both(alloc, &texts.bound, &texts.problem, is_whole)?;
    if is_certificate_text(new.as_slice()) != is_whole {
        return copied(alloc, text);
    }
    if writes_both(alloc, new.as_slice(), &texts.bound, &texts.problem)? {
        return Ok(new);
    }
    copied(alloc, text)
}
