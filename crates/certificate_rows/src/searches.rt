//! Fixed points that searches find in small problems: where they go back, and by which map.
use re_problem::read_problem;
use re_search::find_fixed;
use re_search::types::Search;
use std::alloc::Global;
use std::test::Fail;

// Whether a fixed point of at most two steps is found, with so many steps, that goes back to this problem by this map.
fn goes_back(
    alloc: Global,
    merges: u8,
    text: &str,
    steps: usize,
    back: u8,
    renaming: &[(u8, u8)],
) -> bool {
    if text.len() > 1_000 || merges > 8 {
        return false;
    }
    let Ok(problem) = read_problem(alloc, text.as_bytes()) else {
        return false;
    };
    let Ok(Search::Found(certificate)) = find_fixed(alloc, &problem, 2, merges) else {
        return false;
    };
    certificate.steps().len() == steps
        && certificate.back() == back
        && certificate.renaming() == renaming
}

#[test]
fn ways_back_by_one_step(rt: HostRuntime) -> Result<(), Fail> {
    let (kept, exchanged) = ([(0, 0), (1, 1)], [(0, 1), (1, 0)]);
    for (merges, text, steps, back, renaming) in [
        // the degrees are equal; the labels of the second problem could be exchanged, too
        (0, "A B^2\n\nA B^2\n", 1, 0, kept),
        (0, "A B\n\nA B\n", 1, 0, kept),
        // with one merge, and none without
        (1, "A^2 B\n\nA^2 B\nA B^2\n", 2, 1, kept),
        (1, "A B^2\nB^2 C\nB C^2\nC^3\n\nA B C\n", 2, 1, exchanged),
    ] {
        assert!(rt; goes_back(rt.alloc(), merges, text, steps, back, &renaming));
    }
    Ok(())
}
