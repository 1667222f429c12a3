//! What an algorithm is given besides its ports.
ghost use Rattle.re_settings.specs.Settings.{input_of};
ghost use Rattle.re_problem.specs.NamedProblems.{IsNamedProblem};
ghost use Rattle.std.specs.Prelude.{◌≡◌, IfOk, IfSome, MatchOption, None, Some};

use re_labels::NoMemory;
use re_problem::Problem;

/// What an algorithm is given besides its ports.
#[derive(Drop)]
pub enum Setting {
    /// Nothing.
    Alone,
    /// A solution of this input problem.
    Given(Problem),
}

impl Setting {
    /// The input problem of which a solution is given, if one is.
    pub fn input(&self) -> Option<&Problem>
        ensures input { MatchOption result (input_of self.now ≡ None) (λ input. input_of self.now ≡ Some input.now) }
        ensures named { IfSome (input_of self.now) IsNamedProblem }
    {
        match self {
            Setting::Alone => None,
            Setting::Given(input) => {
                let _names = input.names();
                Some(input)
            }
        }
    }

    /// The same setting.
    pub fn copy(&self) -> Result<Setting, NoMemory>
        ensures { IfOk result (λ setting. setting ≡ self.now) }
    {
        match self {
            Setting::Alone => Ok(Setting::Alone),
            Setting::Given(input) => Ok(Setting::Given(input.copy()?)),
        }
    }
}
