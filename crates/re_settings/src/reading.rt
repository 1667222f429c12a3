//! Texts of a chain and of a setting.
ghost use Rattle.re_chains.specs.TwoTexts.{has_line};
ghost use Rattle.re_settings.specs.SettingTexts.{GivesBy, SettingGives, parts_of};
ghost use Rattle.re_io.specs.declared.read.TheConstants.{MAX_BYTES};
ghost use Rattle.std.specs.Prelude.{◌≡◌, ◌≤◌, codes, false, length, true};

use crate::setting::Setting;
use crate::texts::GIVEN;
use re_cert::Certificate;
use re_chains::{TwoTexts, cut_at, has_line, read_chain, read_chain_two};
use re_problem::TextFault;
use std::alloc::Global;

/// What a text writes: a chain, and what is given besides the ports.
#[derive(Drop)]
pub struct SettingTexts {
    /// The chain; whether its steps meet their clauses isn't asked.
    pub chain: Certificate,
    /// The setting; whether what is given is an input problem of the chain's first one isn't asked.
    pub setting: Setting,
}

// What a text without the line writes.
fn read_alone(alloc: Global, text: &[u8]) -> Result<SettingTexts, TextFault>
    requires { length text.now ≤ MAX_BYTES }
    ensures { GivesBy false text.now result }
{
    match read_chain(alloc, text) {
        Ok(chain) => Ok(SettingTexts {
            chain,
            setting: Setting::Alone,
        }),
        Err(fault) => Err(fault),
    }
}

// What a text with the line writes.
fn read_with_input(alloc: Global, text: &[u8]) -> Result<SettingTexts, TextFault>
    requires few { length text.now ≤ MAX_BYTES }
    requires has { has_line (codes "given") text.now ≡ true }
    ensures { GivesBy true text.now result }
{
    match read_chain_two(alloc, GIVEN, text) {
        Ok(TwoTexts { bound, problem }) => Ok(SettingTexts {
            chain: bound,
            setting: Setting::Given(problem),
        }),
        Err(fault) => Err(fault),
    }
}

/// The chain and the setting that a text writes: where it has a line `== given`, the chain is in front of it, and the input problem behind. `Bad`
/// comes exactly where the text has a fault, with its first one.
pub fn read_in(alloc: Global, text: &[u8]) -> Result<SettingTexts, TextFault>
    requires { length text.now ≤ MAX_BYTES }
    ensures { SettingGives text.now result }
{
    if has_line(GIVEN, text) {
        read_with_input(alloc, text)
    } else {
        read_alone(alloc, text)
    }
}

/// The text of the chain: that in front of the line `== given`, where the text has one.
pub fn front_of<'a>(text: &'a [u8]) -> &'a [u8]
    requires { length text.now ≤ MAX_BYTES }
    ensures { result.now ≡ (parts_of text.now).front }
{
    match cut_at(GIVEN, text) {
        Some(cut) => cut.front,
        None => text,
    }
}
