//! The words, and what they say.
ghost use Rattle.re_describe.specs.DescribeWords.{describe_help, describe_word_of};
ghost use Rattle.std.specs.Prelude.{◌≡◌, map, string_bytes};

/// The form of a report.
#[derive(Clone, Copy, Debug, PartialEq, Eq)]
pub enum ReportForm {
    /// In Markdown.
    Markdown,
    /// In LaTeX, a part of a document; a picture of a graph needs the package tikz.
    Latex,
}

/// The word `describe`, by the form of the report, and the word `condense`. Each reads its text as a whole: a certificate or a problem, one with
/// a line `== given` and an input problem, a problem with a graph, or evidence. It takes the time of `crate::report`, of `given`, of `solve` or
/// of `judge`, and for groups, which aren't judged, that of `crate::condensed` for each constraint.
#[derive(Clone, Copy, Debug, PartialEq, Eq)]
pub enum DescribeWord {
    /// A report in this form.
    Report(ReportForm),
    /// No report, but the same text with its configurations in groups.
    Groups,
}

/// The word that the words are.
#[tactic(auto, unfolding(crate::specs::DescribeWords::describe_word_of))]
pub fn describe_word(words: &[String]) -> Option<DescribeWord>
    ensures { result ≡ describe_word_of (map string_bytes words.now) }
{
    match words {
        [word] => {
            if "describe" == word.as_str() {
                Some(DescribeWord::Report(ReportForm::Markdown))
            } else if "condense" == word.as_str() {
                Some(DescribeWord::Groups)
            } else {
                None
            }
        }
        [word, form] => {
            if "describe" == word.as_str() && "latex" == form.as_str() {
                Some(DescribeWord::Report(ReportForm::Latex))
            } else {
                None
            }
        }
        _ => None,
    }
}

/// The lines of help.
#[tactic(auto, unfolding(crate::specs::DescribeWords::describe_help))]
pub fn describe_help() -> &'static str
    ensures { result.now ≡ describe_help }
{
    "describe, describe latex: reads a certificate or a problem, or one with a line == given and an input problem or == graph and a graph, or evidence, gives a report on it in Markdown, or in LaTeX\ncondense: reads what describe reads, gives the same with its configurations in groups\n"
}
