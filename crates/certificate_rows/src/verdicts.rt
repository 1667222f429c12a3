//! Certificates in memory, and what a report has beside its verdict.
use re_cert::read_certificate;
use re_check::{Clause, Kind, Verdict, check, check_stream};
use re_io::SureSource;
use std::alloc::Global;
use std::test::Fail;

const ORIENTATION_LOWER: &[u8] = b"== certificate 1 lower\nO I^2\n\nI [IO]\n== end\n";

const LATER_FIXED: &[u8] =
    b"== certificate 1 fixed 1\nO [IO]^2\n\nI O\n== step\nA B\n\nA^2 B\nA B^2\nB^3\n== rows\n[I] [O]\n== map\n[I] A\n[O] B\n== step\nA B^2\n\nA B\nB^2\n== rows\n[B] [AB]^2\n== map\n[B] A\n[AB] B\n== step\nA B\n\nA^2 B\nA B^2\nB^3\n== rows\n[B] [AB]\n== map\n[B] A\n[AB] B\n== back\nA A\nB B\n== end\n";

const COLOURING_FIXED: &[u8] =
    b"== certificate 1 fixed 0\n1^3\n2^3\n\n1 2\n== step\nA B\n\nA^3\nB^3\n== rows\n[1] [2]\n== map\n[1] A\n[2] B\n== step\nA^3\nB^3\n\nA B\n== rows\n[A]^3\n[B]^3\n== map\n[A] A\n[B] B\n== back\nA 1\nB 2\n== end\n";

const COLOURING_LOWER: &[u8] =
    b"== certificate 1 lower\n1^3\n2^3\n3^3\n\n1 2\n1 3\n2 3\n== step\n[ABCD]^2\n\n[ABCD]^3\n== rows\n[1] [23]\n[2] [13]\n== map\n[1] A\n[2] B\n[13] C\n[23] D\n== end\n";

// The verdict on the certificate of the text, which is short.
fn verdict(alloc: Global, text: &[u8]) -> Result<Verdict, Fail> {
    if text.len() > 1_000 {
        return Err("long".into());
    }
    let certificate = read_certificate(alloc, text)?;
    Ok(check(&certificate))
}

#[test]
fn certificates_in_memory_are_judged(rt: HostRuntime) -> Result<(), Fail> {
    for (text, want) in [
        (
            ORIENTATION_LOWER,
            Verdict::Accepted {
                kind: Kind::Lower,
                steps: 0,
            },
        ),
        (
            LATER_FIXED,
            Verdict::Accepted {
                kind: Kind::Fixed,
                steps: 3,
            },
        ),
        (
            COLOURING_LOWER,
            Verdict::Refused {
                step: 1,
                clause: Clause::L2,
            },
        ),
    ] {
        assert_eq!(rt; verdict(rt.alloc(), text)?, want);
    }
    Ok(())
}

// How many labels the first problem of the report has, and its active degree.
fn first_problem(alloc: Global, text: &[u8]) -> Result<(usize, u8), Fail> {
    let mut source = SureSource::new(Vec::from_slice(alloc, text)?, 4);
    let report = check_stream(alloc, &mut source)?;
    Ok((report.first.names().len(), report.first.active().degree()))
}

#[test]
fn a_report_has_the_first_problem(rt: HostRuntime) -> Result<(), Fail> {
    assert_eq!(rt; first_problem(rt.alloc(), COLOURING_FIXED)?, (2, 3));
    Ok(())
}
