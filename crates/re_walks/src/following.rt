//! The list of labels to try behind another one.
ghost use Rattle.re_walks.specs.Walking.{deeper, following, raised};
ghost use Rattle.re_labels.specs.declared.TheConstants.{MAX_LABELS};
ghost use Rattle.std.specs.Prelude.{◌≡◌, ◌≤◌, IfOk, None, Some, if◌then◌else◌};

use re_labels::NoMemory;

// Makes the last label that isn't the greatest the next one, leaves out those behind it, and says whether there was one.
fn raise(labels: &mut Vec<u8>, n: u8) -> Result<bool, NoMemory>
    requires { n ≤ MAX_LABELS }
    ensures { IfOk result (λ more. raised n labels.old.items ≡ (if more then Some labels.new.items else None)) }
{
    while let Some(label) = labels.pop() {
        if (label as usize) + 1 < n as usize {
            labels.push(label + 1)?;
            return Ok(true);
        }
    }
    Ok(false)
}

/// Makes the list the one to try next: below it where it passes, with the label 0 behind the others, and else behind all that begin
/// with it. It says whether there is one; where there is none, the list is left in any state.
pub fn follow(labels: &mut Vec<u8>, n: u8, passes: bool) -> Result<bool, NoMemory>
    requires { n ≤ MAX_LABELS }
    ensures { IfOk result (λ more. following n passes labels.old.items ≡ (if more then Some labels.new.items else None)) }
{
    if !passes {
        return raise(labels, n);
    }
    if n == 0 {
        return Ok(false);
    }
    labels.push(0)?;
    Ok(true)
}
