//! Small sets of clauses whose answers are known.
use re_clauses::{Answer, Clauses, satisfy};
use std::alloc::{AllocError, Global};

// The literal that says that the variable holds.
fn yes(variable: u32) -> u32 {
    variable.saturating_mul(2)
}

// The literal that says that it doesn't.
fn no(variable: u32) -> u32 {
    variable.saturating_mul(2).saturating_add(1)
}

// The variable that says that the pigeon is in the hole, of so many holes.
fn of_pair(pigeon: u32, hole: u32, holes: u32) -> u32 {
    pigeon.saturating_mul(holes).saturating_add(hole)
}

// Each pigeon has a hole, and no two the same one.
fn pigeons(alloc: Global, count: u32, holes: u32) -> Result<Clauses, AllocError> {
    let mut clauses = Clauses::new(alloc);
    for pigeon in 0..count {
        let mut clause = Vec::new(alloc);
        for hole in 0..holes {
            clause.push(yes(of_pair(pigeon, hole, holes)))?;
        }
        clauses.push(clause.as_slice())?;
        for hole in 0..holes {
            for other in 0..pigeon {
                let pair = [
                    no(of_pair(pigeon, hole, holes)),
                    no(of_pair(other, hole, holes)),
                ];
                clauses.push(&pair)?;
            }
        }
    }
    Ok(clauses)
}

// The two variables differ.
fn push_different(clauses: &mut Clauses, variable: u32, other: u32) -> Result<(), AllocError> {
    clauses.push(&[yes(variable), yes(other)])?;
    clauses.push(&[no(variable), no(other)])
}

// Neighbours on a ring of a last variable and those below differ: that can't be where their count is odd.
fn ring(alloc: Global, last: u32) -> Result<Clauses, AllocError> {
    let mut clauses = Clauses::new(alloc);
    for variable in 0..last {
        push_different(&mut clauses, variable, variable.saturating_add(1))?;
    }
    push_different(&mut clauses, last, 0)?;
    Ok(clauses)
}

// The third variable holds exactly where one of the other two does.
fn push_sum(clauses: &mut Clauses, first: u32, second: u32, sum: u32) -> Result<(), AllocError> {
    clauses.push(&[no(first), no(second), no(sum)])?;
    clauses.push(&[no(first), yes(second), yes(sum)])?;
    clauses.push(&[yes(first), no(second), yes(sum)])?;
    clauses.push(&[yes(first), yes(second), no(sum)])
}

// So many ones have an even sum: the even variables are the sums so far, the odd ones hold.
fn parity(alloc: Global, count: u32) -> Result<Clauses, AllocError> {
    let mut clauses = Clauses::new(alloc);
    clauses.push(&[no(0)])?;
    for place in 0..count {
        let sum = yes(place);
        let one = no(place);
        let next = sum.saturating_add(2);
        push_sum(&mut clauses, sum, one, next)?;
        clauses.push(&[yes(one)])?;
    }
    clauses.push(&[no(yes(count))])?;
    Ok(clauses)
}

// The clauses that are listed.
fn listed(alloc: Global, all: &[&[u32]]) -> Result<Clauses, AllocError> {
    let mut clauses = Clauses::new(alloc);
    for clause in all {
        clauses.push(clause)?;
    }
    Ok(clauses)
}

// Whether the answer to the clauses is this one, by decisions on the first three variables and on all.
fn is_answer(
    alloc: Global,
    clauses: &Result<Clauses, AllocError>,
    conflicts: u32,
    want: Answer,
) -> bool {
    let Ok(clauses) = clauses else {
        return false;
    };
    satisfy(alloc, clauses, 3, conflicts) == Ok(want)
        && satisfy(alloc, clauses, u32::MAX, conflicts) == Ok(want)
}

#[test]
fn pigeons_in_holes(rt: HostRuntime) {
    let alloc = rt.alloc();
    assert!(rt; is_answer(alloc, &pigeons(alloc, 4, 3), 100, Answer::Unsatisfiable));
    assert!(rt; is_answer(alloc, &pigeons(alloc, 6, 5), 2000, Answer::Unsatisfiable));
    assert!(rt; is_answer(alloc, &pigeons(alloc, 4, 4), 100, Answer::Satisfiable));
    assert!(rt; is_answer(alloc, &pigeons(alloc, 6, 5), 2, Answer::Untold));
}

#[test]
fn rings(rt: HostRuntime) {
    let alloc = rt.alloc();
    assert!(rt; is_answer(alloc, &ring(alloc, 8), 100, Answer::Unsatisfiable));
    assert!(rt; is_answer(alloc, &ring(alloc, 9), 100, Answer::Satisfiable));
}

#[test]
fn parities(rt: HostRuntime) {
    let alloc = rt.alloc();
    assert!(rt; is_answer(alloc, &parity(alloc, 7), 100, Answer::Unsatisfiable));
    assert!(rt; is_answer(alloc, &parity(alloc, 8), 100, Answer::Satisfiable));
}

#[test]
fn short_ones(rt: HostRuntime) {
    let alloc = rt.alloc();
    assert!(rt; is_answer(alloc, &listed(alloc, &[]), 1, Answer::Satisfiable));
    assert!(rt; is_answer(alloc, &listed(alloc, &[&[]]), 1, Answer::Unsatisfiable));
    assert!(rt;
        is_answer(
            alloc,
            &listed(alloc, &[&[0], &[1]]),
            1,
            Answer::Unsatisfiable
        )
    );
    assert!(rt; is_answer(alloc, &listed(alloc, &[&[4, 5]]), 1, Answer::Satisfiable));
    assert!(rt; is_answer(alloc, &listed(alloc, &[&[0], &[1]]), 0, Answer::Untold));
}

// What is put in is there, in its order.
fn is_kept(alloc: Global) -> bool {
    match listed(alloc, &[&[7], &[], &[1, 2]]) {
        Ok(clauses) => clauses.len() == 3
            && !clauses.is_empty()
            && clauses.clause(2) == [1, 2].as_slice(),
        Err(_) => false,
    }
}

#[test]
fn clauses_in_order(rt: HostRuntime) {
    assert!(rt; is_kept(rt.alloc()));
}
