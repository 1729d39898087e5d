// A session over many clauses.
use crate::runs::{ROOM, WHOLE, run_over};
use si_io::MemoryLibrary;
use si_serve::Status;
use si_session::Limits;
use std::alloc::{AllocError, Global};
use std::process::Abort;
use std::test::Fail;

/// How many clauses the file has.
const CLAUSES: u32 = 60_000;

fn digit(number: u32) -> u8 {
    b'0' + (number % 10) as u8
}

/// The five digits of a number, with leading zeros.
fn digits(number: u32) -> [u8; 5] {
    [
        digit(number / 10_000),
        digit(number / 1_000),
        digit(number / 100),
        digit(number / 10),
        digit(number),
    ]
}

/// The clause's name: `n` and the number, without leading zeros.
fn push_name(page: &mut Vec<u8>, number: u32) -> Result<(), AllocError> {
    let mut begun = false;
    page.push(b'n')?;
    for byte in digits(number / 10) {
        begun = begun || byte != b'0';
        if begun {
            page.push(byte)?;
        }
    }
    page.push(digit(number))?;
    Ok(())
}

/// The atom whose arguments are the constants of the number's digits.
fn push_atom(page: &mut Vec<u8>, number: u32) -> Result<(), AllocError> {
    let [a, b, c, d, e] = digits(number);
    page.extend_from_slice(&[b'p', b'(', b'd', a, b',', b'd', b, b',', b'd', c, b','])?;
    page.extend_from_slice(&[b'd', d, b',', b'd', e, b')'])
}

/// A line for each clause.
fn push_clauses(page: &mut Vec<u8>) -> Result<(), AllocError> {
    for number in 0..CLAUSES {
        page.extend_from_slice(b"cnf(")?;
        push_name(page, number)?;
        page.extend_from_slice(b",axiom,")?;
        push_atom(page, number)?;
        page.extend_from_slice(b").\n")?;
    }
    Ok(())
}

/// Two lines for each question: the second asks what the first passes.
fn push_questions(page: &mut Vec<u8>) -> Result<(), AllocError> {
    for number in 0..CLAUSES {
        for command in [
            b"variants lit ".as_slice(),
            b"explain variants lit ".as_slice(),
        ] {
            page.extend_from_slice(command)?;
            push_atom(page, number)?;
            page.push(b'\n')?;
        }
    }
    Ok(())
}

/// Each clause is found, alone. Of the nodes only the root and six below it are open.
fn push_replies(page: &mut Vec<u8>) -> Result<(), AllocError> {
    for number in 0..CLAUSES {
        push_name(page, number)?;
        page.extend_from_slice(b":1 {}\nend 1\npassed 7 nodes 66668 answers 1\n")?;
    }
    Ok(())
}

/// A library of the file.
fn large_library(alloc: Global) -> Result<MemoryLibrary, AllocError> {
    let mut library = MemoryLibrary::new(alloc, Vec::new(alloc));
    let mut clauses = Vec::new(alloc);
    push_clauses(&mut clauses)?;
    library.put(b"big.p".to_vec(alloc)?, clauses)?;
    Ok(library)
}

/// What a session over the file writes.
fn answered(alloc: Global, input: &[u8]) -> Result<(Status, Vec<u8>), AllocError> {
    let mut library = large_library(alloc)?;
    let devices = (WHOLE, WHOLE);
    run_over(
        alloc,
        &Limits::standard(),
        input,
        devices,
        64 * ROOM,
        &mut library,
    )
}

fn assert_answers(
    rt: &impl Abort,
    alloc: Global,
    input: &[u8],
    output: &[u8],
) -> Result<(), AllocError> {
    let (status, bytes) = answered(alloc, input)?;
    assert_eq!(rt; status, Status::Ended);
    let same = bytes.as_slice() == output;
    assert!(rt; same);
    Ok(())
}

fn assert_found(rt: &impl Abort, alloc: Global) -> Result<(), AllocError> {
    let mut input = b"load 'big.p'\n".to_vec(alloc)?;
    push_questions(&mut input)?;
    let mut output = b"ok 60000 360000\n".to_vec(alloc)?;
    push_replies(&mut output)?;
    assert_answers(rt, alloc, input.as_slice(), output.as_slice())
}

#[test]
fn each_of_many_clauses_is_found(rt: HostRuntime) -> Result<(), Fail> {
    assert_found(&rt, rt.alloc())?;
    Ok(())
}
