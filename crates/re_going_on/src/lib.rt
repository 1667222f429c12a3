//! The searches that go on from a chain: beams for long lower bounds and for short upper bounds, and a walk for the fixed point with
//! the fewest steps.
//!
//! **Beams.** There is a beam for each number of labels from 2 to 32, and for 48, 64, 96 and 128: a search on its own, over problems of at
//! most so many labels. Those up to the number that is wanted go one after another, the least first.
//!
//! **Levels.** A beam goes level by level. From each problem on a level its derived problem, and from there an inner beam: problems that are
//! changed one at a time. Each of them with no more labels than the beam's number is a candidate of the next level. Equal candidates count
//! once.
//!
//! **Which stay.** Only candidates with the three greatest numbers of labels: of these in turn the one of the least rank, the next one and
//! so on, as many as a level is wide. Of candidates of one rank the one that was offered first stays first. Problems are taken for equal where
//! a number of 64 bits that is mixed of their configurations is: a rare mistake loses a candidate, and nothing else rests on it.
//!
//! **Given an input problem** a path ends at a problem that is solvable in 0 rounds given it: given the input problem with its sides
//! exchanged as often as there are steps from the chain's first problem. `re_settings::find_fit` tells whether it is; where its tries don't suffice, it
//! counts as not known.
//!
//! # Long lower bounds
//!
//! The longest path of all beams is the answer, the first of several. Before them stands the path of the derived problem, its derived problem and
//! so on, as long as these have no more labels than are wanted. So with more labels, or more steps, the answer is never shorter.
//!
//! **Level.** A derived problem is left out where it passes a limit or is solvable without communication. The inner beam is one of merges: each of
//! its problems is followed by those that merge the two ends of an edge of its passive diagram (the one label weaker than the other with no label
//! strictly between, or both equally strong), without those that are solvable without communication; the `INNER_WIDTH` with the fewest active
//! configurations stay, until none is left.
//!
//! **Which stay.** The rank is the number of active configurations; `WIDTH` stay in all. Among problems of as many labels and the same degrees,
//! fewest means: the least share of all multisets of labels; such a problem has lost least. The derived problem of the derived problem and so on of
//! the chain's last problem stays besides, as long as it has no more labels than the beam's number.
//!
//! **Where it ends.** With as many levels as are wanted, or at a level without candidates. Where a derived problem passed a limit there,
//! the level before is built again with fewer labels, at most `MAX_BUILDS` levels in all. Its longest path is what a beam gives.
//!
//! **Merges to begin with.** Where that is shorter than wanted, the same beams go once more, and begin not with the chain's last problem but with
//! what merges of two of its labels make of it, whichever two these are: without those that are solvable without communication, the `WIDTH`
//! with the fewest active configurations. Only a longer path counts. Its first step goes to the derived problem of the merged one, by rows; so
//! there is no such path where the chain has maps by sets.
//!
//! **Numbers.** `WIDTH` is 30, `INNER_WIDTH` 6, `MAX_BUILDS` 128.
//!
//! **What is kept.** What merges make of a derived problem is kept for the other beams: the derived problem, the problems of the last inner
//! beam, and of those before it the labels that the derived problem's have become, the number and the rank. Where they are 256 derived problems,
//! or these have more than a million configurations together, all are forgotten. Where no problem had more labels than a beam's number,
//! the beams behind it would find the same, and are passed over.
//!
//! **Memory.** At most `3 * WIDTH` candidates of one level, `2 * INNER_WIDTH` problems of the inner beam, `WIDTH + 1` problems of each
//! level before, and what is kept. It uses no clock and no random numbers.
//!
//! **Given an input problem.** Problems that are solvable without communication are left out as above. Of the candidates of a level, in the order
//! in which they would stay, those stay that are told not to be solvable given the input problem. So each path is a bound.
//!
//! # Short upper bounds
//!
//! The answer is the shortest path of all beams to a problem that is solvable without communication, the first of several; each beam looks for a
//! shorter one than those before it. So with more labels, or more steps, the answer is never longer, and never lost.
//!
//! **Level.** A derived problem is left out where it passes a limit. The first one that is solvable without communication ends the beam: its labels
//! are left out but those of the first active configuration that shows it, and where these are more than the beam's number it is left out. Each
//! other one is made thin first: while it has more than three labels for each one of the beam's number, a quarter of those that are too many, or
//! one more, goes, those of the least chance. In the inner beam each problem is followed by those that leave one of its labels out, and with it each
//! label that stands in no active configuration any more; the four of the greatest chance stay.
//!
//! **Chance.** Let each active node take one of the active configurations at random, and turn it at random: the chance of a problem is that
//! of a passive node to have one of its configurations around it, and the chance of a label that of a passive node which has this label. A
//! problem of high chance is near to one that is solvable without communication, whose passive nodes are content where all active nodes
//! take one configuration. Chances are counted in whole numbers of at most 60 bits.
//!
//! **Which stay.** Those of the greatest chance come first, 20 stay in all.
//!
//! **Patterns.** Where the passive degree is 2 and the active one, d, is 3 or 5, further searches come first, one for each number of labels
//! from twice the pairs of ports on, and the beams look for a shorter path. A pattern is a row in which one set of labels stands at all
//! places but one. Two steps are taken at once. The labels of the first stand for 4, 8, 12 or 16 sets, each with its opposite, which is all
//! that goes with each of its labels: those that have the most choices of two labels. The active configurations of the second are good rows:
//! patterns in which a right-closed set stands at all places but one. Two of them go together where a passive node takes any two of their
//! sets but the two that stand once, and each with itself where it takes two of the same. Where as many patterns go together as there are
//! pairs of ports, two steps more are the last: a passive node has the label of the pair of its ports, and an active node takes a pattern
//! that it has at one port alone. As each pattern is at two ports at most, and d is odd, there is one (after Naor and Stockmeyer 1995, and
//! Mayer, Naor and Stockmeyer 1995, for weak colourings). Else those of the most choices stay, as many as have few enough labels, and two
//! steps follow. In degree 5, where derived problems are dear, no beam has more than 6 labels, or 8 given an input problem, if patterns of
//! 20 labels lead to the end, however many steps and labels are wanted.
//!
//! **Given an input problem.** A path ends also at a problem that is told to be solvable given it. Each derived problem that isn't solvable without
//! communication is asked first. Where it is told to be solvable, with a set of its labels for each input label, its labels are left out but those
//! of these sets; where these are no more than the beam's number, the beam ends. Where they are more, or it isn't known, the candidates that stay
//! and are made of it are asked, and the first that is told to be solvable ends the beam.
//!
//! # The fixed point with the fewest steps
//!
//! The walk looks at the graph of the problems that are reached from the last one of a chain by steps, each of them to what some merges have made
//! of a derived problem, where problems under other names of their labels are one: those of fewer steps first, then those of fewer merges,
//! then in the order of the merges. A problem that is solvable without communication is left out, and given an
//! input problem one that few tries show to be solvable in 0 rounds given it. Each problem is looked at once, under
//! the names under which it was first met; a step that leads to it again, under other names, is kept with the renaming behind its map.
//!
//! The answer is the shortest walk on this graph whose last problem is an earlier one of the walk or of the chain; where the chain's last
//! problem already is an earlier one, no step is added. A walk that comes back over the steps by which its problems were first met is
//! told as soon as its last step is found. Another one goes to a problem that was met again, and from there the shortest way round: these
//! are looked for when all problems of so many steps have been looked at.
//!
//! Where there is none, it begins anew, with the steps that lead from the chain's last problem behind a merge of two of its labels: to what
//! some merges have made of the derived problem of the problem that is left. That merge counts as one of the step's. These steps, which have
//! maps by rows, are looked at behind those without such a merge, in the order of the pairs. So the first answer stands where there is one, also
//! where another one would be shorter, and the counts of the second are those of both.
//!
//! It keeps each problem that it looks at, one step for each two of them, and what all merges but the last have made of one derived
//! problem.
#![tactic(auto)]

mod candidates;
mod chance;
mod closed_sets;
mod cycle;
mod cycle_nodes;
mod cycle_returning;
mod cycle_walking;
mod finding;
mod given;
mod longest_beam;
mod longest_levels;
mod losses;
mod merges;
mod opposites;
mod pairing;
mod patterns;
mod shortening;
mod shortest_beam;
mod shortest_levels;
mod sizes;
mod spreads;
mod starts;
mod states;
mod steps;
mod thinning;

pub use cycle::{Cycle, find_cycle};
pub use finding::find_longest;
pub use shortening::{Shortest, find_shortest};
