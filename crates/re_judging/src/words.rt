//! The word, and what it says.
ghost use Rattle.re_judging.specs.Words.{judge_help, names_judge};
ghost use Rattle.std.specs.Prelude.{◌≡◌, map, string_bytes};

/// The word `judge`. It reads a text of evidence as a whole, and takes what the words take that judge such parts, one after another.
#[derive(Clone, Copy, Debug, PartialEq, Eq)]
pub struct Judge;

/// Whether the words are this word.
pub fn names_judge(words: &[String]) -> bool
    ensures { result ≡ names_judge (map string_bytes words.now) }
{
    match words {
        [word] => "judge" == word.as_str(),
        _ => false,
    }
}

/// The line of help.
#[tactic(auto, unfolding(crate::specs::Words::judge_help))]
pub fn judge_help() -> &'static str
    ensures { result.now ≡ judge_help }
{
    "judge: reads texts of evidence of one problem with lines ===== between them, judges each, and gives what follows from all of them\n"
}
