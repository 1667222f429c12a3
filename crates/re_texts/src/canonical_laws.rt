//! The canonical text of a problem, read back.

ghost use Rattle.re_texts.specs.CanonicalLines.{CanonicalLaw, CanonicalLinesLaw, CanonicalSizeLaw};

/// The canonical text of a problem is that of its canonical lines, each ended by a line feed: one line for each active
/// configuration, an empty line, and one for each passive configuration, where `%d` stands for an empty constraint of degree d.
pub fn canonical_lines_law()
    ensures { CanonicalLinesLaw }
{}

/// The canonical lines of a problem have no fault, whatever byte and line number the first one has, and are read as the
/// problem. So two problems with one canonical text are one.
pub fn canonical_law()
    ensures { CanonicalLaw }
{}

/// The canonical text of a problem has at most 115 bytes for each of its configurations, and 7 beside them. So it can be read where
/// the problem has at most 145,888 configurations on both sides together.
pub fn canonical_size_law()
    ensures { CanonicalSizeLaw }
{}
