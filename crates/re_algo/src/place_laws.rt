//! What the number and the place of a view mean.
ghost use Rattle.re_algo.specs.PlaceLaws.{FewerViewsLaw, PlaceLaw};

/// A view stands at its place of the list of all views, and the view at a place has this place.
pub fn place_law()
    ensures { PlaceLaw }
{}

/// A node never has more views than its neighbours have of a radius greater by one.
pub fn fewer_views_law()
    ensures { FewerViewsLaw }
{}
