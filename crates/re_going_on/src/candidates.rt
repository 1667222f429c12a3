//! The candidates of a level.
use crate::given::Given;
use crate::states::State;
use re_labels::NoMemory;
use re_problem::Problem;
use std::alloc::Global;

/// How many numbers of labels count.
const GROUPS: usize = 3;

/// A problem on a level: the place in the beam before of the problem whose derived problem it was made of, the labels that those of the
/// derived problem have become, the number that tells it from others, and its rank.
#[derive(Drop)]
pub(crate) struct Kept {
    /// The problem.
    pub problem: Problem,
    /// The place of the one before.
    pub parent: usize,
    /// What each label of the derived problem has become, if anything.
    pub images: Vec<Option<u8>>,
    /// The number that tells it from others.
    pub mark: u64,
    /// The rank.
    pub rank: u64,
}

// The candidates of one number of labels, at most so many, those of the least ranks first.
#[derive(Drop)]
struct Group {
    labels: usize,
    width: usize,
    kept: Vec<Kept>,
}

/// The best candidates of the three greatest numbers of labels, the greatest first; at most so many stay.
#[derive(Drop)]
pub(crate) struct Candidates {
    alloc: Global,
    width: usize,
    groups: Vec<Group>,
}

// The problem of the inner beam as a candidate.
fn kept_of(alloc: Global, state: &State, parent: usize) -> Result<Kept, NoMemory> {
    let problem = state.made.problem().copy()?;
    let images = Vec::from_slice(alloc, state.made.images())?;
    Ok(Kept {
        problem,
        parent,
        images,
        mark: state.mark,
        rank: state.rank,
    })
}

/// The first problem of a search as the one candidate of its level.
pub(crate) fn first_kept(alloc: Global, problem: &Problem) -> Result<Vec<Kept>, NoMemory> {
    let mut kept = Vec::new(alloc);
    kept.push(Kept {
        problem: problem.copy()?,
        parent: 0,
        images: Vec::new(alloc),
        mark: 0,
        rank: 0,
    })?;
    Ok(kept)
}

impl Group {
    // Whether a candidate of this number is there.
    fn has(&self, mark: u64) -> bool {
        for kept in self.kept.as_slice() {
            if kept.mark == mark {
                return true;
            }
        }
        false
    }

    // Whether a candidate of this rank would stay.
    fn takes(&self, rank: u64) -> bool {
        if self.kept.len() < self.width {
            return true;
        }
        match self.kept.as_slice().last() {
            Some(last) => rank < last.rank,
            None => true,
        }
    }

    // One candidate more.
    fn put(&mut self, kept: Kept) -> Result<(), NoMemory> {
        self.kept.push(kept)?;
        self.kept.sort_by_key(|kept| kept.rank)?;
        self.kept.truncate(self.width);
        Ok(())
    }
}

impl Candidates {
    /// No candidates yet, and at most so many that stay.
    pub(crate) fn new(alloc: Global, width: usize) -> Candidates {
        Candidates {
            alloc,
            width,
            groups: Vec::new(alloc),
        }
    }

    /// Whether problems of so many labels may still count.
    pub(crate) fn is_open(&self, labels: usize) -> bool {
        match self.groups.as_slice().get(GROUPS - 1) {
            Some(group) => group.labels <= labels,
            None => true,
        }
    }

    /// Whether a candidate of so many labels, of this rank and this number would stay, and isn't there.
    pub(crate) fn takes(&self, labels: usize, rank: u64, mark: u64) -> bool {
        for group in self.groups.as_slice() {
            if group.labels == labels {
                return group.takes(rank) && !group.has(mark);
            }
        }
        self.is_open(labels)
    }

    /// Puts the candidate, which it takes, into its group, or into a new one.
    pub(crate) fn put(&mut self, kept: Kept) -> Result<(), NoMemory> {
        let labels = kept.problem.names().len();
        for group in self.groups.as_mut_slice() {
            if group.labels == labels {
                return group.put(kept);
            }
        }
        let mut group = Group {
            labels,
            width: self.width,
            kept: Vec::new(self.alloc),
        };
        group.put(kept)?;
        self.groups.push(group)?;
        self.groups.sort_by_key(|group| usize::MAX - group.labels)?;
        self.groups.truncate(GROUPS);
        Ok(())
    }

    /// Offers the problem of the inner beam as a candidate.
    pub(crate) fn offer(&mut self, state: &State, parent: usize) -> Result<(), NoMemory> {
        let labels = state.made.problem().names().len();
        if self.takes(labels, state.rank, state.mark) {
            let kept = kept_of(self.alloc, state, parent)?;
            self.put(kept)?;
        }
        Ok(())
    }

    /// Appends those that stay, without the one of this number if any, and without those that aren't told to be unsolvable behind so many
    /// steps.
    pub(crate) fn choose(
        &mut self,
        beam: &mut Vec<Kept>,
        without: Option<u64>,
        given: &Given,
        steps: usize,
    ) -> Result<(), NoMemory> {
        for group in self.groups.as_mut_slice() {
            group.kept.reverse();
        }
        for _turn in 0..self.width {
            for group in self.groups.as_mut_slice() {
                if let Some(kept) = group.kept.pop() {
                    let counts = Some(kept.mark) != without && beam.len() < self.width;
                    if counts && given.is_open(self.alloc, &kept.problem, steps)? {
                        beam.push(kept)?;
                    }
                }
            }
        }
        Ok(())
    }
}
