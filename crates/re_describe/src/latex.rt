//! A report in LaTeX, made of its Markdown line by line.
ghost use Rattle.re_describe.specs.Latex.{change, closing, ending, escaped, form_of, goes_on, latex_line, latex_of, latex_words, mark, mode_behind, opening, written};
ghost use Rattle.re_describe.specs.declared.latex.Mode.TheVariants as plain;
ghost use Rattle.std.specs.Prelude.{◌≡◌, ◌≤◌, ◌++◌, IfOk, OnOk, drop, length, map, ◌==◌};
ghost use Rattle.std.specs.List.{slice_split};

use re_frame::push_words;
use re_labels::NoMemory;
use std::alloc::{AllocError, Global};

/// What a line of a report is, by its first bytes.
#[derive(Clone, Copy, Debug, PartialEq, Eq)]
pub(crate) enum Form {
    /// The title.
    Title,
    /// The title of a section.
    Section,
    /// An item of a list.
    Item,
    /// A line that stands as it is.
    Verbatim,
    /// Where the check fails, in bold.
    Fails,
    /// Words, or none.
    Words,
}

// The form of a line.
fn form_of(line: &[u8]) -> Form
    ensures form { result ≡ form_of line.now }
    ensures long { mark result ≤ length line.now }
{
    if line.starts_with(b"# ") {
        Form::Title
    } else if line.starts_with(b"## ") {
        Form::Section
    } else if line.starts_with(b"- ") {
        Form::Item
    } else if line.starts_with(b"    ") {
        Form::Verbatim
    } else if line.starts_with(b"**") {
        Form::Fails
    } else {
        Form::Words
    }
}

// Appends a byte of words, escaped where it means something else to LaTeX.
fn push_escaped(text: &mut Vec<u8>, byte: u8) -> Result<(), NoMemory>
    ensures { OnOk result (text.new.items ≡ text.old.items ++ escaped byte) }
{
    match byte {
        b'*' => Ok(()),
        b'\\' => push_words(text, "\\textbackslash{}"),
        b'^' => push_words(text, "\\textasciicircum{}"),
        b'~' => push_words(text, "\\textasciitilde{}"),
        b'<' => push_words(text, "\\textless{}"),
        b'>' => push_words(text, "\\textgreater{}"),
        b'#' => push_words(text, "\\#"),
        b'$' => push_words(text, "\\$"),
        b'%' => push_words(text, "\\%"),
        b'&' => push_words(text, "\\&"),
        b'_' => push_words(text, "\\_\\allowbreak{}"),
        b'{' => push_words(text, "\\{"),
        b'}' => push_words(text, "\\}"),
        _ => Ok(text.push(byte)?),
    }
}

/// How words are read: as they are, as code, or as a formula.
#[derive(Clone, Copy, Debug, PartialEq, Eq)]
pub(crate) enum Mode {
    Plain,
    Code,
    Formula,
}

// The words behind a byte.
fn mode_behind(mode: Mode, byte: u8) -> Mode
    ensures { result ≡ mode_behind mode byte }
{
    match (mode, byte) {
        (Mode::Plain, b'`') => Mode::Code,
        (Mode::Plain, b'$') => Mode::Formula,
        (Mode::Code, b'`') => Mode::Plain,
        (Mode::Formula, b'$') => Mode::Plain,
        _ => mode,
    }
}

// Appends a byte, which in a formula stands as it is.
fn push_written(text: &mut Vec<u8>, mode: Mode, byte: u8) -> Result<(), NoMemory>
    ensures { OnOk result (text.new.items ≡ text.old.items ++ written mode byte) }
{
    match (mode, byte) {
        (Mode::Plain, b'`') => push_words(text, "\\texttt{"),
        (Mode::Plain, b'$') => push_words(text, "$"),
        (Mode::Code, b'`') => push_words(text, "}"),
        (Mode::Formula, _) => Ok(text.push(byte)?),
        _ => push_escaped(text, byte),
    }
}

// What ends with the words.
fn ending(mode: Mode) -> &'static str
    ensures { result.now ≡ ending mode }
{
    match mode {
        Mode::Plain => "",
        Mode::Code => "}",
        Mode::Formula => "$",
    }
}

// Appends words.
fn push_latex_words(text: &mut Vec<u8>, words: &[u8]) -> Result<(), NoMemory>
    ensures { OnOk result (text.new.items ≡ text.old.items ++ latex_words plain.Plain words.now) }
{
    let mut mode = Mode::Plain;
    for byte in words {
        push_written(text, mode, *byte)?;
        mode = mode_behind(mode, *byte);
    }
    push_words(text, ending(mode))
}

// Appends words between others.
fn push_within(text: &mut Vec<u8>, before: &str, words: &[u8], behind: &str) -> Result<(), NoMemory>
    ensures { OnOk result (text.new.items ≡ text.old.items ++ (before.now ++ latex_words plain.Plain words.now ++ behind.now)) }
{
    push_words(text, before)?;
    push_latex_words(text, words)?;
    push_words(text, behind)
}

// What stands behind the bytes that say the form of a line.
fn words_of<'a>(form: Form, line: &'a [u8]) -> &'a [u8]
    requires { mark form ≤ length line.now }
    ensures { result.now ≡ drop (mark form) line.now }
{
    match form {
        Form::Title | Form::Item | Form::Fails => &line[2..],
        Form::Section => &line[3..],
        Form::Verbatim => &line[4..],
        Form::Words => line,
    }
}

// Appends a line of this form.
fn push_line(text: &mut Vec<u8>, form: Form, line: &[u8]) -> Result<(), NoMemory>
    requires { mark form ≤ length line.now }
    ensures { OnOk result (text.new.items ≡ text.old.items ++ latex_line form line.now) }
{
    let words = words_of(form, line);
    match form {
        Form::Title => push_within(text, "\\section*{", words, "}\n"),
        Form::Section => push_within(text, "\\subsection*{", words, "}\n"),
        Form::Item => push_within(text, "\\item ", words, "\n"),
        Form::Fails => push_within(text, "\\textbf{", words, "}\n"),
        Form::Words => push_within(text, "", words, "\n"),
        Form::Verbatim => {
            text.extend_from_slice(words)?;
            push_words(text, "\n")
        }
    }
}

// What begins in front of a line of this form, and what ends behind it.
fn opening(form: Form) -> &'static str
    ensures { result.now ≡ opening form }
{
    match form {
        Form::Item => "\\begin{itemize}\n",
        Form::Verbatim => "\\begin{verbatim}\n",
        Form::Title | Form::Section | Form::Fails | Form::Words => "",
    }
}

fn closing(form: Form) -> &'static str
    ensures { result.now ≡ closing form }
{
    match form {
        Form::Item => "\\end{itemize}\n",
        Form::Verbatim => "\\end{verbatim}\n",
        Form::Title | Form::Section | Form::Fails | Form::Words => "",
    }
}

// Whether the lines are items of one list, or stand as they are in one block.
fn goes_on(before: Form, form: Form) -> bool
    ensures { result ≡ goes_on before form }
{
    match (before, form) {
        (Form::Item, Form::Item) => true,
        (Form::Verbatim, Form::Verbatim) => true,
        _ => false,
    }
}

// Appends what ends and begins between lines of these forms.
fn push_change(text: &mut Vec<u8>, before: Form, form: Form) -> Result<(), NoMemory>
    ensures { OnOk result (text.new.items ≡ text.old.items ++ change before form) }
{
    if goes_on(before, form) {
        return Ok(());
    }
    push_words(text, closing(before))?;
    push_words(text, opening(form))
}

/// The lines of the report: what stands before, between and behind its line feeds.
pub(crate) fn lines_of(alloc: Global, report: &[u8]) -> Result<Vec<&[u8]>, AllocError>
    ensures { IfOk result (λ lines. map (λ line. line.now) lines.items ≡ slice_split (λ byte. byte == 10) report.now) }
{
    report.split(|byte| *byte == b'\n').collect(alloc)
}

/// The report in LaTeX, a part of a document: its titles are sections without a number, what it shows as it is stands in `verbatim`, and
/// its lists in `itemize`.
pub(crate) fn in_latex(alloc: Global, report: &[u8]) -> Result<Vec<u8>, NoMemory>
    ensures { IfOk result (λ text. text.items ≡ latex_of report.now) }
{
    let mut text = Vec::new(alloc);
    let mut before = Form::Words;
    let lines = lines_of(alloc, report)?;
    for line in &lines {
        let form = form_of(line);
        push_change(&mut text, before, form)?;
        push_line(&mut text, form, line)?;
        before = form;
    }
    push_words(&mut text, closing(before))?;
    Ok(text)
}
