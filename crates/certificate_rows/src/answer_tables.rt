//! Tables of algorithms: what is no table, what one answers, and whether it solves a problem.
use re_algo::{Table, TableVerdict, solves};
use re_choice::first_choice;
use re_labels::{Config, Constraint, Degrees, InsertFault, LabelSet, NoMemory, PortLabels, Side};
use re_laws::{View, all_views};
use re_problem::{Problem, read_problem};
use std::alloc::Global;

const DEGREES: Degrees = Degrees {
    active: 3,
    passive: 2,
};

// An edge leads out of the node at its second end: label 0 at back port 1, and 1 at back port 2.
const ORIENTED: [[u8; 3]; 8] = [
    [0, 0, 0],
    [0, 0, 1],
    [0, 1, 0],
    [0, 1, 1],
    [1, 0, 0],
    [1, 0, 1],
    [1, 1, 0],
    [1, 1, 1],
];

// The labels of a row; NoMemory stands for a row that isn't one, too.
fn labels_of(row: &[u8]) -> Result<PortLabels, NoMemory> {
    match PortLabels::new(row) {
        Some(labels) => Ok(labels),
        None => Err(NoMemory),
    }
}

fn add_answers(answers: &mut Vec<PortLabels>, rows: &[[u8; 3]]) -> Result<(), NoMemory> {
    for row in rows {
        answers.push(labels_of(row)?)?;
    }
    Ok(())
}

fn table(alloc: Global, radius: u8, rows: &[[u8; 3]]) -> Result<Option<Table>, NoMemory> {
    let mut answers = Vec::new(alloc);
    add_answers(&mut answers, rows)?;
    Ok(Table::build(DEGREES, radius, answers))
}

// The table of one answer with two labels.
fn narrow_table(alloc: Global) -> Result<Option<Table>, NoMemory> {
    let mut answers = Vec::new(alloc);
    answers.push(labels_of(&[0, 0])?)?;
    Ok(Table::build(DEGREES, 0, answers))
}

fn is_no_table(alloc: Global, radius: u8, rows: &[[u8; 3]]) -> bool {
    matches!(table(alloc, radius, rows), Ok(None))
}

#[test]
fn tables_are_built(rt: HostRuntime) {
    // an answer too few, one too many, and too many views
    assert!(rt; is_no_table(rt.alloc(), 1, &ORIENTED[..7]));
    assert!(rt; is_no_table(rt.alloc(), 0, &ORIENTED[..2]));
    assert!(rt; is_no_table(rt.alloc(), 4, &ORIENTED));
    // answers with a label for each port
    assert!(rt; matches!(narrow_table(rt.alloc()), Ok(None)));
}

// Whether this is the table's answer to the view.
fn answers_so(table: &Table, view: &View<()>, row: &[u8; 3]) -> bool {
    match table.answer(view) {
        Some(labels) => labels.labels() == row.as_slice(),
        None => false,
    }
}

// Whether each view has its answer.
fn answers_all(table: &Table, views: &[View<()>]) -> bool {
    for (view, row) in views.iter().zip(&ORIENTED) {
        if !answers_so(table, view, row) {
            return false;
        }
    }
    views.len() == 8
}

fn answers_active(alloc: Global, table: &Table) -> bool {
    match all_views(alloc, DEGREES, Side::Active, 1) {
        Ok(views) => answers_all(table, views.as_slice()),
        Err(_) => false,
    }
}

// Whether no view has an answer.
fn answers_none(table: &Table, views: &[View<()>]) -> bool {
    for view in views {
        if table.answer(view).is_some() {
            return false;
        }
    }
    true
}

// Whether neither a passive view nor a leaf has one.
fn answers_no_others(alloc: Global, table: &Table) -> bool {
    match all_views(alloc, DEGREES, Side::Passive, 1) {
        Ok(views) => {
            answers_none(table, views.as_slice()) && table.answer(&View::Leaf).is_none()
        }
        Err(_) => false,
    }
}

fn answers_just_active(alloc: Global) -> bool {
    match table(alloc, 1, &ORIENTED) {
        Ok(Some(table)) => answers_active(alloc, &table) && answers_no_others(alloc, &table),
        _ => false,
    }
}

#[test]
fn tables_answer_views(rt: HostRuntime) {
    assert!(rt; answers_just_active(rt.alloc()));
}

// Whether this is the verdict, and the degrees are those of the problem.
fn is_verdict(alloc: Global, problem: &Problem, table: &Table, want: TableVerdict) -> bool {
    if table.degrees().active != problem.degrees().active
        || table.degrees().passive != problem.degrees().passive
    {
        return false;
    }
    match solves(alloc, problem, table) {
        Ok(verdict) => verdict == want,
        Err(_) => false,
    }
}

fn is_table_judged(alloc: Global, table: &Table, want: TableVerdict) -> bool {
    match read_problem(alloc, b"[IO]^3\n\nI O\n") {
        Ok(problem) => is_verdict(alloc, &problem, table, want),
        Err(_) => false,
    }
}

// Whether the table of one round that orients each edge, with another answer to view 5, has this verdict.
fn is_judged(alloc: Global, answer: [u8; 3], want: TableVerdict) -> bool {
    let mut rows = ORIENTED;
    rows[5] = answer;
    match table(alloc, 1, &rows) {
        Ok(Some(table)) => is_table_judged(alloc, &table, want),
        _ => false,
    }
}

#[test]
fn verdicts_on_tables(rt: HostRuntime) {
    assert!(rt; is_judged(rt.alloc(), [1, 0, 1], TableVerdict::Yes));
    // another first label, and a label that the problem doesn't have
    assert!(rt; is_judged(rt.alloc(), [0, 0, 1], TableVerdict::Passive));
    assert!(rt; is_judged(rt.alloc(), [1, 0, 200], TableVerdict::Active(6)));
}

fn set_of(labels: &[u8]) -> LabelSet {
    let mut set = LabelSet::empty();
    for label in labels {
        if *label < 128 {
            set = set.insert(*label);
        }
    }
    set
}

// Whether this is the first choice from the sets of these labels, or nothing where it is empty.
fn chooses(constraint: &Constraint, sets: &[&[u8]; 3], want: &[u8]) -> bool {
    let sets = [set_of(sets[0]), set_of(sets[1]), set_of(sets[2])];
    match first_choice(constraint, &sets) {
        Some(found) => found.labels() == want,
        None => want.is_empty(),
    }
}

const CHOICES: [([&[u8]; 3], &[u8]); 4] = [
    // the first set is slowest, and a beginning that nothing completes is left
    ([&[0, 2, 5], &[1, 4, 5], &[1, 2]], &[2, 5, 1]),
    ([&[4], &[0, 4], &[0, 4]], &[4, 0, 4]),
    ([&[4], &[4], &[4]], &[]),
    ([&[1], &[], &[5]], &[]),
];

// Whether the choices are these, and there is none of fewer sets than a configuration has labels.
fn chooses_all(constraint: &Constraint) -> bool {
    for (sets, want) in &CHOICES {
        if !chooses(constraint, sets, want) {
            return false;
        }
    }
    first_choice(constraint, &[set_of(&[1]), set_of(&[2])]).is_none()
}

fn two_configurations(alloc: Global) -> Result<Constraint, InsertFault> {
    let mut constraint = Constraint::new(alloc, 3);
    constraint.insert(Config::from_labels(&[1, 2, 5]))?;
    constraint.insert(Config::from_labels(&[0, 4, 4]))?;
    Ok(constraint)
}

fn are_first_choices(alloc: Global) -> bool {
    match two_configurations(alloc) {
        Ok(constraint) => chooses_all(&constraint),
        Err(_) => false,
    }
}

#[test]
fn first_choices(rt: HostRuntime) {
    assert!(rt; are_first_choices(rt.alloc()));
}
