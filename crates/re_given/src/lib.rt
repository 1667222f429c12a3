//! Bounds where a solution of an input problem is given, and products with input problems: laws alone, no code.
#![tactic(auto)]

mod examples;

ghost use Rattle.re_given.specs.Laws.{ColouredPairsLaw, ColouringInputLaw, ColouringLaw, ComposedLaw, DeeperFitsLaw, EdgeColouringInputLaw, EdgesInputLaw, ExchangedGivenLaw, FewerLabelsLaw, FitLaw, FixedPointColouredLaw, FixedPointGivenLaw, FixedPointUnavoidableLaw, InputRelaxationLaw, ItselfGivenLaw, LoopGivenLaw, LoopUnavoidableLaw, LowerBoundColouredLaw, LowerBoundColouredPairsLaw, LowerBoundGivenLaw, LowerBoundUnavoidableLaw, MappingGivenLaw, MoreColoursLaw, MoreRoundsGivenLaw, NothingGivenLaw, NothingInputLaw, OrientationInputLaw, RelativeLaw, RelaxationGivenLaw, RoundsGivenLaw, ShorterBoundColouredLaw, ShiftFitsLaw, ShorterBoundUnavoidableLaw, SidesInputLaw, SpeedupGivenLaw, TableGivenLaw, UnavoidableLaw, UngivenLaw, UpperBoundGivenLaw, UpperStepGivenLaw, ZeroGivenLaw};
ghost use Rattle.re_given.specs.ProductLaws.{ProductConfigsLaw, ProductGivenLaw, ProductMappingLaw, ProductPartsLaw, ProductProblemLaw, ProductRelaxationLaw};

pub use examples::{orientation_given_law, sinkless_coloured_law, sinkless_edge_coloured_law};

/// Given an input problem, a function on what is known that solves a problem gives a table that solves it, since there are finitely many views
/// that fit.
pub fn table_given_law()
    ensures { TableGivenLaw }
{}

/// Given an input problem, a problem is solvable in 0 rounds exactly where an upper step leads to the exchanged input problem.
pub fn zero_given_law()
    ensures { ZeroGivenLaw }
{}

/// Where sets of labels lead to the exchanged input problem, sets do that hold with each label those at least as strong.
pub fn fit_law()
    ensures { FitLaw }
{}

/// Given an input problem, a problem is solvable in one more round than its derived problem is given the exchanged input problem.
pub fn speedup_given_law()
    ensures { SpeedupGivenLaw }
{}

/// Given an input problem, a problem is solvable in k rounds exactly where an upper step leads from its k-th derived problem to the input
/// problem, exchanged k + 1 times.
pub fn rounds_given_law()
    ensures { RoundsGivenLaw }
{}

/// Given an input problem, more rounds do no harm.
pub fn more_rounds_given_law()
    ensures { MoreRoundsGivenLaw }
{}

/// What is solvable is solvable given an input problem.
pub fn ungiven_law()
    ensures { UngivenLaw }
{}

/// Given an input problem, it is solved.
pub fn itself_given_law()
    ensures { ItselfGivenLaw }
{}

/// Where the input problem is solvable in S rounds, what T rounds solve given it takes at most S + T + 1 rounds without.
pub fn composed_law()
    ensures { ComposedLaw }
{}

/// The same given a third problem.
pub fn relative_law()
    ensures { RelativeLaw }
{}

/// What is solvable given an input problem takes at most one round more with the sides of both exchanged.
pub fn exchanged_given_law()
    ensures { ExchangedGivenLaw }
{}

/// A view that fits is the cut of a deeper one that fits, so what an algorithm is asked at is seen in some tree.
pub fn deeper_fits_law()
    ensures { DeeperFitsLaw }
{}

/// The view of a neighbour fits.
pub fn shift_fits_law()
    ensures { ShiftFitsLaw }
{}

/// What is solvable given a relaxation of an input problem is solvable given the input problem.
pub fn input_relaxation_law()
    ensures { InputRelaxationLaw }
{}

/// An input of one label says nothing.
pub fn nothing_given_law()
    ensures { NothingGivenLaw }
{}

/// Given an input problem, what solves a problem solves its relaxations by maps of configurations.
pub fn mapping_given_law()
    ensures { MappingGivenLaw }
{}

/// Given an input problem, what solves a problem solves its relaxations.
pub fn relaxation_given_law()
    ensures { RelaxationGivenLaw }
{}

/// Where an upper step leads to a problem that is solvable in T rounds given the exchanged input problem, T + 1 rounds solve the problem before
/// it given the input problem.
pub fn upper_step_given_law()
    ensures { UpperStepGivenLaw }
{}

/// Lower steps give a lower bound given an input problem.
pub fn lower_bound_given_law()
    ensures { LowerBoundGivenLaw }
{}

/// Upper steps give an upper bound given an input problem.
pub fn upper_bound_given_law()
    ensures { UpperBoundGivenLaw }
{}

/// Lower steps that come back exclude every number of rounds given an input problem.
pub fn fixed_point_given_law()
    ensures { FixedPointGivenLaw }
{}

/// There each problem from that to which they come back on may stand for the last one.
pub fn loop_given_law()
    ensures { LoopGivenLaw }
{}

/// Where an input problem is unavoidable for lists of a problem's labels, what is solvable without communication given it is so without it.
pub fn unavoidable_law()
    ensures { UnavoidableLaw }
{}

/// Lower steps give a lower bound given each input problem that, exchanged as often as there are steps, is unavoidable for lists of the last
/// problem's labels.
pub fn lower_bound_unavoidable_law()
    ensures { LowerBoundUnavoidableLaw }
{}

/// With one round less, lower steps give a lower bound given each input problem that is unavoidable for lists below n, where no problem on the
/// way has more than n labels.
pub fn shorter_bound_unavoidable_law()
    ensures { ShorterBoundUnavoidableLaw }
{}

/// Lower steps that come back exclude every number of rounds given each input problem that is unavoidable for lists below n, where no problem
/// from the one to which they come back on has more than n labels.
pub fn fixed_point_unavoidable_law()
    ensures { FixedPointUnavoidableLaw }
{}

/// It is enough that the input problem is unavoidable for the labels of one problem of the loop, exchanged as often as there are steps to it.
pub fn loop_unavoidable_law()
    ensures { LoopUnavoidableLaw }
{}

/// What is unavoidable for lists of many labels is so for lists of fewer.
pub fn fewer_labels_law()
    ensures { FewerLabelsLaw }
{}

/// A proper colouring with more than (p - 1) n colours is unavoidable for lists below n, where p is the passive degree.
pub fn colouring_law()
    ensures { ColouringLaw }
{}

/// Where passive nodes are edges, a proper colouring with its sides exchanged is unavoidable for lists below n if it has more than 2^n
/// colours.
pub fn coloured_pairs_law()
    ensures { ColouredPairsLaw }
{}

/// A proper colouring with at least p colours is an input problem of each problem of its degrees.
pub fn colouring_input_law()
    ensures { ColouringInputLaw }
{}

/// So are the two sides of a bipartite graph.
pub fn sides_input_law()
    ensures { SidesInputLaw }
{}

/// A proper colouring of the edges is an input problem of each problem of its degrees.
pub fn edges_input_law()
    ensures { EdgesInputLaw }
{}

/// And with at least a colours, where a is the active degree.
pub fn edge_colouring_input_law()
    ensures { EdgeColouringInputLaw }
{}

/// An orientation is an input problem, and one by which edges lead into each active node and out of it.
pub fn orientation_input_law()
    ensures { OrientationInputLaw }
{}

/// The input problem of one label, which says nothing, is one.
pub fn nothing_input_law()
    ensures { NothingInputLaw }
{}

/// A proper colouring is one with more colours, so what is solvable given one with many colours is solvable given one with few.
pub fn more_colours_law()
    ensures { MoreColoursLaw }
{}

/// An even number of lower steps to a problem of n labels gives a lower bound given a proper colouring with more than (p - 1) n colours.
pub fn lower_bound_coloured_law()
    ensures { LowerBoundColouredLaw }
{}

/// Where passive nodes are edges, an odd number of lower steps to a problem of n labels gives a lower bound given a proper colouring with more
/// than 2^n colours.
pub fn lower_bound_coloured_pairs_law()
    ensures { LowerBoundColouredPairsLaw }
{}

/// With one round less, lower steps give a lower bound given a proper colouring with more than (p - 1) n colours, where no problem on the way
/// has more than n labels.
pub fn shorter_bound_coloured_law()
    ensures { ShorterBoundColouredLaw }
{}

/// Lower steps that come back exclude every number of rounds given a proper colouring with more than (p - 1) n colours, where a and p are
/// the degrees and no problem from the one to which they come back on has more than n labels.
pub fn fixed_point_coloured_law()
    ensures { FixedPointColouredLaw }
{}

/// The product of a problem is a problem.
pub fn product_problem_law()
    ensures { ProductProblemLaw }
{}

/// Pairs may stand around a node exactly where their first parts may by the problem, and their second parts by the input problem.
pub fn product_configs_law()
    ensures { ProductConfigsLaw }
{}

/// A problem and its input problem are relaxations of their product.
pub fn product_parts_law()
    ensures { ProductPartsLaw }
{}

/// Given the input problem, the product is solvable in as many rounds as the problem.
pub fn product_given_law()
    ensures { ProductGivenLaw }
{}

/// What solves a problem given an input problem solves, given it, the relaxations of their product.
pub fn product_relaxation_law()
    ensures { ProductRelaxationLaw }
{}

/// Also the relaxations by maps of configurations.
pub fn product_mapping_law()
    ensures { ProductMappingLaw }
{}
