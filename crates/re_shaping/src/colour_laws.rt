//! A renaming of the labels that makes a problem another one, with any number of labels.
//!
//! The labels of both problems are coloured: at first all alike; then again and again each by its colour and by the colours in the
//! configurations in which it stands, until no more labels get different colours. Where two labels of the first problem have one colour,
//! one of them gets a colour of its own, and in the other problem in turn each label of this colour; the colours are refined again on both
//! sides, and so on until all are different. Then the colours are a map, which is tested. A renaming keeps the colours all the way, so
//! where none of the maps is one there is none. At most `MAX_TRIES` labels are tried.

ghost use Rattle.re_shaping.specs.Marks.{ColoursLaw, MovedMarkLaw};

/// Problems of which one is the other under other names have colours of one mark. So where the marks are different there is no renaming.
pub fn colours_law()
    ensures { ColoursLaw }
{}

/// The number of a configuration in which one label has become another is that which `moved_mark` gives.
pub fn moved_mark_law()
    ensures { MovedMarkLaw }
{}
