//! Certificates that are read, printed and read back, with ample memory.
use re_cert::{Certificate, read_certificate};
use re_io::MAX_BYTES;
use re_labels::NoMemory;
use re_texts::{print_certificate, read_certificate_back};
use std::alloc::Global;

const ORIENTATION_LOWER: &[u8] = b"== certificate 1 lower\nO I^2\n\nI [IO]\n== end\n";

const ORIENTATION_LOWER_PRINTED: &[u8] = b"== certificate 1 lower\nI^2 O\n\nI^2\nI O\n== end\n";

const ORIENTATION_FIXED: &[u8] =
    b"== certificate 1 fixed 0\nI^2 O\n\nI^2\nI O\n== step\nA B\n\nA^2 B\nA B^2\nB^3\n== rows\n[I] [IO]\n== map\n[I] A\n[IO] B\n== step\nA B^2\n\nA B\nB^2\n== rows\n[B] [AB]^2\n== map\n[B] A\n[AB] B\n== back\nA O\nB I\n== end\n";

const LATER_FIXED: &[u8] =
    b"== certificate 1 fixed 1\nO [IO]^2\n\nI O\n== step\nA B\n\nA^2 B\nA B^2\nB^3\n== rows\n[I] [O]\n== map\n[I] A\n[O] B\n== step\nA B^2\n\nA B\nB^2\n== rows\n[B] [AB]^2\n== map\n[B] A\n[AB] B\n== step\nA B\n\nA^2 B\nA B^2\nB^3\n== rows\n[B] [AB]\n== map\n[B] A\n[AB] B\n== back\nA A\nB B\n== end\n";

const LATER_FIXED_PRINTED: &[u8] =
    b"== certificate 1 fixed 1\nI^2 O\nI O^2\nO^3\n\nI O\n== step\nA B\n\nA^2 B\nA B^2\nB^3\n== rows\n[I] [O]\n== map\n[I] A\n[O] B\n== step\nA B^2\n\nA B\nB^2\n== rows\n[B] [AB]^2\n== map\n[B] A\n[AB] B\n== step\nA B\n\nA^2 B\nA B^2\nB^3\n== rows\n[B] [AB]\n== map\n[B] A\n[AB] B\n== back\nA A\nB B\n== end\n";

const COLOURING_WITHOUT_A_ROW: &[u8] =
    b"== certificate 1 lower\n1^3\n2^3\n3^3\n\n1 2\n1 3\n2 3\n== step\n[ABCD]^2\n\n[ABCD]^3\n== rows\n[1] [23]\n[2] [13]\n== map\n[1] A\n[2] B\n[13] C\n[23] D\n== end\n";

const COLOURING_WITHOUT_A_ROW_PRINTED: &[u8] =
    b"== certificate 1 lower\n1^3\n2^3\n3^3\n\n1 2\n1 3\n2 3\n== step\nA^2\nA B\nA C\nA D\nB^2\nB C\nB D\nC^2\nC D\nD^2\n\nA^3\nA^2 B\nA^2 C\nA^2 D\nA B^2\nA B C\nA B D\nA C^2\nA C D\nA D^2\nB^3\nB^2 C\nB^2 D\nB C^2\nB C D\nB D^2\nC^3\nC^2 D\nC D^2\nD^3\n== rows\n[1] [23]\n[2] [13]\n== map\n[1] A\n[2] B\n[13] C\n[23] D\n== end\n";

const ONE_ROW_OF_TWO: &[u8] =
    b"== certificate 1 lower\n[ABC]^3\n\nA B\nA C\nB C\nC^2\n== step\n[AB]^2\n\n[AB]^3\n== rows\n[AC] [BC]\n== map\n[AC] A\n[BC] B\n== end\n";

const ONE_ROW_OF_TWO_PRINTED: &[u8] =
    b"== certificate 1 lower\nA^3\nA^2 B\nA^2 C\nA B^2\nA B C\nA C^2\nB^3\nB^2 C\nB C^2\nC^3\n\nA B\nA C\nB C\nC^2\n== step\nA^2\nA B\nB^2\n\nA^3\nA^2 B\nA B^2\nB^3\n== rows\n[AC] [BC]\n== map\n[AC] A\n[BC] B\n== end\n";

const EMPTY_SET_UPPER: &[u8] =
    b"== certificate 1 upper\n[IO]^3\n\nI O\n== step\nA B\n\n[AB]^3\n== map\nA []\nB [O]\n== end\n";

const EMPTY_SET_UPPER_PRINTED: &[u8] =
    b"== certificate 1 upper\nI^3\nI^2 O\nI O^2\nO^3\n\nI O\n== step\nA B\n\nA^3\nA^2 B\nA B^2\nB^3\n== map\nA []\nB [O]\n== end\n";

const ONE_ROUND_UPPER: &[u8] =
    b"== certificate 1 upper\n[IO]^3\n\nI O\n== step\nA B\n\n[AB]^3\n== map\nA [I]\nB [O]\n== end\n";

const TWO_COLOURS_FIXED: &[u8] =
    b"== certificate 1 fixed 0\n1^3\n2^3\n\n1 2\n== step\nA B\n\nA^3\nB^3\n== rows\n[1] [2]\n== map\n[1] A\n[2] B\n== step\nA^3\nB^3\n\nA B\n== rows\n[A]^3\n[B]^3\n== map\n[A] A\n[B] B\n== back\nA 1\nB 2\n== end\n";

const FOUND_UPPER: &[u8] =
    b"== certificate 1 upper\nI^3\nI^2 O\nI O^2\nO^3\n\nI O\n== step\nA B\n\nA^3\nA^2 B\nA B^2\nB^3\n== map\nA [I]\nB [O]\n== end\n";

const SPELT_OTHERWISE: &[u8] =
    b"\n \n==  certificate 1\tlower \n\nO I I\n\n\nI [OI]\n== step\nB (A)\n\n[AB]^2 B\n==\trows\n\n[IO] I^1\n== map \n[O I O] B\nI A\n[] B\n\n==\tend\n\n";

const SPELT_OTHERWISE_PRINTED: &[u8] =
    b"== certificate 1 lower\nI^2 O\n\nI^2\nI O\n== step\nA B\n\nA^2 B\nA B^2\nB^3\n== rows\n[I] [IO]\n== map\n[IO] B\n[I] A\n[] B\n== end\n";

const BY_ROW: &[u8] =
    b"==  certificate\t2 lower\nA B\n\nA^2 B\nA B^2\nB^3\n== step\nX Y Z\n\nX Y\nX Z\n[YZ]^2\n== rows\n[AB] [B] [AB]\n\n== map\n\nX (Y)  Z \nX Z Y\n== end\n";

const BY_ROW_PRINTED: &[u8] =
    b"== certificate 2 lower\nA B\n\nA^2 B\nA B^2\nB^3\n== step\nX Y Z\n\nX Y\nX Z\nY^2\nY Z\nZ^2\n== rows\n[B] [AB]^2\n== map\nX Y Z\nX Z Y\n== end\n";

// A second version whose maps are by sets, since it has none or they are those of an upper bound.
const SECOND_WITHOUT_STEPS: &[u8] = b"== certificate 2 lower\nI^2 O\n\nI^2\nI O\n== end\n";

const SECOND_UPPER: &[u8] =
    b"== certificate 2 upper\n[IO]^3\n\nI O\n== step\nA B\n\n[AB]^3\n== map\nA [I]\nB [O]\n== end\n";

fn read(alloc: Global, text: &[u8]) -> Option<Certificate> {
    if text.len() > MAX_BYTES {
        return None;
    }
    read_certificate(alloc, text).ok()
}

fn printed(alloc: Global, text: &[u8]) -> Result<Vec<u8>, NoMemory> {
    let Some(certificate) = read(alloc, text) else {
        return Err(NoMemory);
    };
    let Some(again) = read_certificate_back(alloc, &certificate)? else {
        return Err(NoMemory);
    };
    print_certificate(alloc, &again)
}

#[test]
fn certificates_are_printed(rt: HostRuntime) {
    let table = [
        (ORIENTATION_LOWER, ORIENTATION_LOWER_PRINTED),
        (ORIENTATION_FIXED, ORIENTATION_FIXED),
        (LATER_FIXED, LATER_FIXED_PRINTED),
        (COLOURING_WITHOUT_A_ROW, COLOURING_WITHOUT_A_ROW_PRINTED),
        (ONE_ROW_OF_TWO, ONE_ROW_OF_TWO_PRINTED),
        (EMPTY_SET_UPPER, EMPTY_SET_UPPER_PRINTED),
        (ONE_ROUND_UPPER, FOUND_UPPER),
        (BY_ROW, BY_ROW_PRINTED),
        (SECOND_WITHOUT_STEPS, ORIENTATION_LOWER_PRINTED),
        (SECOND_UPPER, FOUND_UPPER),
        (TWO_COLOURS_FIXED, TWO_COLOURS_FIXED),
        (FOUND_UPPER, FOUND_UPPER),
        (SPELT_OTHERWISE, SPELT_OTHERWISE_PRINTED),
    ];
    for (text, expected) in table {
        match printed(rt.alloc(), text) {
            Ok(found) => assert!(rt; found.as_slice() == expected),
            Err(_) => assert!(rt; false),
        }
        match printed(rt.alloc(), expected) {
            Ok(found) => assert!(rt; found.as_slice() == expected),
            Err(_) => assert!(rt; false),
        }
    }
}
