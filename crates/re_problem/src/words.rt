//! The texts of a problem's labels, made once.
ghost use Rattle.re_problem.specs.CanonicalTexts.{is_bare as is_bare_name, label_text};
ghost use Rattle.re_problem.specs.Printed.{word_text};
ghost use Rattle.std.specs.Char.{is_ascii_alphanumeric};
ghost use Rattle.std.specs.List.{list_all};
ghost use Rattle.std.specs.Prelude.{◌≡◌, ◌≤◌, ◌<◌, ◌+◌, ◌++◌, [], length, slice_index_or, take};

use crate::lines::Lines;
use arrayvec::ArrayVec;
use re_labels::{Name, Names};
use std::marker::Model;

fn are_alphanumeric(text: &[u8]) -> bool
    ensures { result ≡ list_all is_ascii_alphanumeric text.now }
{
    text.iter().all(|byte| byte.is_ascii_alphanumeric())
}

fn is_bare(text: &[u8]) -> bool
    ensures { result ≡ is_bare_name text.now }
{
    text.len() == 1 && are_alphanumeric(text)
}

/// A label: bare where its name is one letter or digit, and in parentheses else.
pub(crate) fn label_of(name: &Name) -> ArrayVec<u8, 19>
    ensures label { result.items ≡ label_text name.now }
    ensures room { length result.items ≤ 18 }
{
    let mut written = ArrayVec::new();
    let bytes = name.text();
    if is_bare(bytes) {
        written.push(bytes[0]);
        return written;
    }
    written.push(b'(');
    for byte in bytes {
        written.push(*byte);
    }
    written.push(b')');
    written
}

// An array that begins with the bytes.
fn filled(bytes: &[u8]) -> [u8; 24]
    requires { length bytes.now ≤ 24 }
    ensures { take (length bytes.now) result ≡ bytes.now }
{
    let mut held = [0; 24];
    for place in 0..24 {
        if place < bytes.len() {
            held[place] = bytes[place];
        }
    }
    held
}

/// The names of labels, each with the text of its label and a space behind it. Contracts see the list of the names.
#[derive(Drop)]
pub(crate) struct Words<'a> {
    names: &'a Names,
    texts: [[u8; 24]; 128],
    counts: [u8; 128],
}

impl<'a> Model for Words<'a> {
    ghost use Rattle.re_problem.specs.Printed.{AreWords};
    ghost use Rattle.std.specs.Prelude.{List, ℕ, length};

    ghost Value = { List (List ℕ) };

    ghost view = { λ w. w.names.now };

    ghost invariant = { λ w. AreWords w.names.now (length w.names.now) w.texts w.counts };
}

impl<'a> Words<'a> {
    /// The names with the texts of their labels.
    pub(crate) fn new(names: &'a Names) -> Words<'a>
        ensures { result ≡ names.now }
    {
        let mut texts = [[0; 24]; 128];
        let mut counts = [0; 128];
        for label in 0..names.len() {
            let mut written = label_of(names.name(label as u8));
            written.push(b' ');
            texts[label] = filled(written.as_slice());
            counts[label] = written.len() as u8;
        }
        Words {
            names,
            texts,
            counts,
        }
    }

    /// How many names there are.
    pub(crate) fn len(&self) -> usize
        ensures { result ≡ length self.now }
    {
        self.names.len()
    }

    /// Appends a label to lines, with a space behind it.
    pub(crate) fn add(&self, lines: &mut Lines, label: u8)
        requires label { label < length self.now }
        requires room { length lines.old + 24 ≤ 2048 }
        ensures word { lines.new ≡ lines.old ++ word_text (slice_index_or self.now label []) }
        ensures room { length lines.new ≤ length lines.old + 19 }
    {
        let place = label as usize;
        let _names = self.names.len();
        lines.push_first(self.texts[place], self.counts[place] as usize);
    }
}
