// Texts of good lines, and each kind of line that says no vector.
use checks::{check_eq, check_row};
use std::test::*;
use vectors::{NoVector, ReadError, Vector, text_in, vectors_of};

const LARGEST: Vector = Vector {
    input: u64::MAX,
    output: u64::MAX,
};

const SMALL: Vector = Vector {
    input: 1,
    output: 20,
};

#[test]
fn good_texts(rt: HostRuntime) -> Result<(), Fail> {
    let texts = [
        "1 20\n18446744073709551615 18446744073709551615\n",
        "1 20\n18446744073709551615 18446744073709551615",
        "1 20\r\n18446744073709551615 18446744073709551615\r\n",
        "001 0020\n0018446744073709551615 18446744073709551615\n",
    ];
    for text in texts {
        let vectors = vectors_of(text, rt.alloc())?;
        check_eq(vectors.as_slice(), &[SMALL, LARGEST])?;
    }
    Ok(())
}

#[test]
fn bad_lines() -> Result<(), Fail> {
    let lines = [
        "",
        " ",
        "1",
        "1 ",
        " 1",
        "1 2 3",
        "1  2",
        "1\t2",
        " 1 2",
        "1 2 ",
        "1 2\r",
        "+1 2",
        "1 +2",
        "-1 2",
        "1 -2",
        "18446744073709551616 0",
        "0 18446744073709551616",
        "a b",
        "1 0x2",
        "1 2.0",
        "1,2",
    ];
    for (row, line) in lines.into_iter().enumerate() {
        check_row(row, line.parse::<Vector>(), Err(NoVector))?;
    }
    Ok(())
}

#[test]
fn the_first_bad_line_is_told(rt: HostRuntime) -> Result<(), Fail> {
    let texts = [
        ("\n", 1),
        ("1 2\n\n1 2\n", 2),
        ("1 2\n1 2\n1 2 3\n1\n", 3),
        ("1 2\n1 2\r", 2),
    ];
    for (text, line) in texts {
        let error = vectors_of(text, rt.alloc()).err();
        check_eq(error, Some(ReadError::NoVector { line }))?;
    }
    Ok(())
}

#[test]
fn no_lines(rt: HostRuntime) -> Result<(), Fail> {
    check_eq(vectors_of("", rt.alloc()).err(), Some(ReadError::NoLines))
}

#[test]
fn bytes_that_are_no_text() -> Result<(), Fail> {
    check_eq(text_in(b"1 2\n"), Ok("1 2\n"))?;
    check_eq(text_in(b"\xff 2\n"), Err(ReadError::NoText { line: 1 }))?;
    check_eq(
        text_in(b"1 2\n\n3 \xc3"),
        Err(ReadError::NoText { line: 3 }),
    )
}

#[test]
fn errors_in_words(rt: HostRuntime) -> Result<(), Fail> {
    let texts = [
        (
            ReadError::NoText { line: 3 },
            "line 3: the bytes are not text in UTF-8",
        ),
        (
            ReadError::NoVector { line: 7 },
            "line 7: two decimal numbers below 2^64, with a blank between them, were expected",
        ),
        (
            ReadError::NoLines,
            "there are no lines, so nothing was compared",
        ),
        (ReadError::OutOfMemory, "out of memory"),
    ];
    for (error, expected) in texts {
        let text = format!(in rt.alloc(); "{error}")?;
        check_eq(text.as_str(), expected)?;
    }
    Ok(())
}
