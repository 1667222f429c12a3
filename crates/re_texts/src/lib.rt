//! Texts: how sets, rows, diagrams and the meanings of labels are written; the canonical text of a problem, texts of maps, and texts of
//! certificates, which read back as what was printed.
#![tactic(auto)]

mod canonical;
mod canonical_laws;
mod configs;
mod diagrams;
mod entries;
mod lines;
mod map_texts;
mod printed_certificate;
mod reading;
mod reading_back;
mod rows;
mod sections;
mod sets;

ghost use Rattle.re_texts.specs.CertificateLines.{EntryLineLaw, HeaderLineLaw, ImageLineLaw, PairLineLaw, RowLineLaw, SectionLineLaw};
ghost use Rattle.re_texts.specs.PrintedCertificates.{CertificateTextLaw};

pub use canonical::{limits, read_problem_back};
pub use canonical_laws::{canonical_law, canonical_lines_law, canonical_size_law};
pub use configs::push_config;
pub use diagrams::{print_diagram, print_meanings, push_all};
pub use entries::MapKind;
pub use lines::{push_entry, push_header, push_image, push_pair};
pub use map_texts::{LabelMapInput, SetMapInput, read_label_map, read_set_map};
pub use printed_certificate::print_certificate;
pub use reading::text_behind;
pub use reading_back::read_certificate_back;
pub use rows::{print_rows, push_row, run_length};
pub use sets::push_set;

/// The text of a certificate has no fault, and is read as the certificate: its kind, its problems, rows, entries and pairs, each in
/// the order in which they stand. So two certificates with one text are one.
pub fn certificate_text_law()
    ensures { CertificateTextLaw }
{
    row_line_law();
    entry_line_law();
    image_line_law();
    pair_line_law();
    header_line_law();
    section_line_law();
}

/// The line of a row is read as this row: it is a line of items, of as many sets as the passive degree of the problem.
pub fn row_line_law()
    ensures { RowLineLaw }
{}

/// The line of an entry is read as two items without power, a set and a label that is no group, and they as this entry.
pub fn entry_line_law()
    ensures { EntryLineLaw }
{}

/// The line of an image is read as labels without power, and they as this image.
pub fn image_line_law()
    ensures { ImageLineLaw }
{}

/// The line of a pair of a renaming is read as two labels without power, and they as this pair.
pub fn pair_line_law()
    ensures { PairLineLaw }
{}

/// The header is read as its version, its kind and, at a fixed point, the number of the problem to which it goes back.
pub fn header_line_law()
    ensures { HeaderLineLaw }
{}

/// The lines that begin the sections behind the header are read as these sections.
pub fn section_line_law()
    ensures { SectionLineLaw }
{}
