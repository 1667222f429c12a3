//! Certificates that are read, and steps that make none.
use re_cert::{Certificate, Kind, LowerMap, RowImage, Step, StepParts, read_certificate};
use re_problem::read_problem;
use std::alloc::Global;
use std::test::Fail;

const ORIENTATION_LOWER: &[u8] = b"== certificate 1 lower\nO I^2\n\nI [IO]\n== end\n";

const ORIENTATION_FIXED: &[u8] =
    b"== certificate 1 fixed 0\nI^2 O\n\nI^2\nI O\n== step\nA B\n\nA^2 B\nA B^2\nB^3\n== rows\n[I] [IO]\n== map\n[I] A\n[IO] B\n== step\nA B^2\n\nA B\nB^2\n== rows\n[B] [AB]^2\n== map\n[B] A\n[AB] B\n== back\nA O\nB I\n== end\n";

const LATER_FIXED: &[u8] =
    b"== certificate 1 fixed 1\nO [IO]^2\n\nI O\n== step\nA B\n\nA^2 B\nA B^2\nB^3\n== rows\n[I] [O]\n== map\n[I] A\n[O] B\n== step\nA B^2\n\nA B\nB^2\n== rows\n[B] [AB]^2\n== map\n[B] A\n[AB] B\n== step\nA B\n\nA^2 B\nA B^2\nB^3\n== rows\n[B] [AB]\n== map\n[B] A\n[AB] B\n== back\nA A\nB B\n== end\n";

const COLOURING_LOWER: &[u8] =
    b"== certificate 1 lower\n1^3\n2^3\n3^3\n\n1 2\n1 3\n2 3\n== step\n[ABCD]^2\n\n[ABCD]^3\n== rows\n[1] [23]\n[2] [13]\n== map\n[1] A\n[2] B\n[13] C\n[23] D\n== end\n";

const EMPTY_SET_UPPER: &[u8] =
    b"== certificate 1 upper\n[IO]^3\n\nI O\n== step\nA B\n\n[AB]^3\n== map\nA []\nB [O]\n== end\n";

// The kind, the number of steps and the number of pairs of the certificate of the text, which is short.
fn parts(alloc: Global, text: &[u8]) -> Result<(Kind, usize, usize), Fail> {
    if text.len() > 1_000 {
        return Err("long".into());
    }
    let certificate = read_certificate(alloc, text)?;
    Ok((
        certificate.kind(),
        certificate.steps().len(),
        certificate.renaming().len(),
    ))
}

#[test]
fn certificates_are_read(rt: HostRuntime) -> Result<(), Fail> {
    for (text, want) in [
        (ORIENTATION_LOWER, (Kind::Lower, 0, 0)),
        (ORIENTATION_FIXED, (Kind::Fixed, 2, 2)),
        (LATER_FIXED, (Kind::Fixed, 3, 2)),
        (COLOURING_LOWER, (Kind::Lower, 1, 0)),
        (EMPTY_SET_UPPER, (Kind::Upper, 1, 0)),
    ] {
        assert_eq!(rt; parts(rt.alloc(), text)?, want);
    }
    Ok(())
}

// One problem of the orientation with a step of this map, or None where they make no certificate.
fn one_step(alloc: Global, map: LowerMap) -> Result<Option<Certificate>, Fail> {
    let first = read_problem(alloc, b"I O\n\nI O\n")?;
    let next = read_problem(alloc, b"I O\n\nI O\n")?;
    let mut steps = Vec::new(alloc);
    steps.push(Step {
        next,
        parts: StepParts::Lower {
            rows: Vec::new(alloc),
            map,
        },
    })?;
    Ok(Certificate::build(Kind::Lower, 0, first, steps, Vec::new(alloc)))
}

#[test]
fn images_have_two_to_six_labels(rt: HostRuntime) -> Result<(), Fail> {
    assert!(rt; RowImage::new(&[0]).is_none());
    assert!(rt; RowImage::new(&[0; 7]).is_none());
    let image = RowImage::new(&[1, 0, 1]).ok_or("none")?;
    assert_eq!(rt; image.labels(), [1, 0, 1].as_slice());
    Ok(())
}

#[test]
fn maps_by_rows_fit_their_problems(rt: HostRuntime) -> Result<(), Fail> {
    let alloc = rt.alloc();
    for (labels, fits) in [
        ([0, 1].as_slice(), true),
        ([1, 1].as_slice(), true),
        ([0, 2].as_slice(), false),
        ([0, 1, 1].as_slice(), false),
    ] {
        let mut images = Vec::new(alloc);
        images.push(RowImage::new(labels).ok_or("none")?)?;
        assert_eq!(rt; one_step(alloc, LowerMap::ByRow(images))?.is_some(), fits);
    }
    assert!(rt; one_step(alloc, LowerMap::BySet(Vec::new(alloc)))?.is_some());
    Ok(())
}
