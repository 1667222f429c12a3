//! What is printed of a table is read back.
ghost use Rattle.re_table_texts.specs.PrintedTables.{TableTextLaw};

use re_texts::image_line_law;

/// The text of a problem and a table has no fault, and is read as the same problem and table. So two tables with one text are one.
pub fn table_text_law()
    ensures { TableTextLaw }
{
    image_line_law();
}
