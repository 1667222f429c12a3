//! The search tree over derived problems that some changes have made smaller, and the bounds that its paths show. Definitions and
//! laws alone.

ghost use Rattle.re_search.specs.TreeLaws.{SuccessLaw};

/// The bound of the path to a success is valid: each of its steps meets its clauses, its end END and, in a fixed point, its renaming
/// BACK.
pub fn success_law()
    ensures { SuccessLaw }
{}
