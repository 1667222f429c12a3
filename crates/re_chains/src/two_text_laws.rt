//! Texts of a bound and a problem: a certificate text, or a problem text, then a line that names what follows, as `== to`, and a problem text.

ghost use Rattle.re_chains.specs.GivenTexts.{GivenTextLaw};

/// What is printed of a bound and an input problem is read as them: no text of a certificate has a line `== given`.
pub fn given_text_law()
    ensures { GivenTextLaw }
{}
