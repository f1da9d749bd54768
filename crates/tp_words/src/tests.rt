//! Words and the requests that they make.

use crate::{Request, WordsFault, read_words};
use std::alloc::Global;
use std::test::Fail;

/// The numbers of a request. Of a run these are the steps, the answers, and 1 where meters are
/// asked for; of a sample the processes, the steps, and 2.
type Numbers = Option<(u64, u64, u64)>;

/// The numbers of the request that the words make. Where it is a run, its texts are `m` and `g`.
fn numbers_of(alloc: Global, words: &[&str]) -> Result<Numbers, Fail> {
    let mut given = Vec::new(alloc);
    for word in words {
        given.push(String::from_str(alloc, word)?)?;
    }
    match read_words(alloc, &given) {
        Ok(
            Request::Run {
                model,
                goal,
                steps,
                answers,
                meters,
            },
        ) => {
            if model.as_str() != "m" || goal.as_str() != "g" {
                return Err(Fail::new("the texts are others"));
            }
            Ok(Some((steps, answers, u64::from(meters))))
        }
        Ok(Request::Sample { n, steps }) => Ok(Some((n, steps, 2))),
        Err(WordsFault::Usage) => Ok(None),
        Err(WordsFault::NoMemory) => Err(Fail::new("memory was refused")),
    }
}

#[test]
fn requests(rt: HostRuntime) -> Result<(), Fail> {
    for (words, wanted) in [
        (["m", "g"].as_slice(), (1_000_000, 1, 0)),
        (["m", "g", "--steps", "5"].as_slice(), (5, 1, 0)),
        (
            ["--steps=1000000000", "m", "g"].as_slice(),
            (1_000_000_000, 1, 0),
        ),
        (
            ["m", "--answers", "1000000", "g"].as_slice(),
            (1_000_000, 1_000_000, 0),
        ),
        (["m", "g", "--meters"].as_slice(), (1_000_000, 1, 1)),
        (
            ["--meters", "--answers=2", "m", "--steps=007", "g"].as_slice(),
            (7, 2, 1),
        ),
        (["--steps", "1", "--", "m", "g"].as_slice(), (1, 1, 0)),
        (["--sample", "5"].as_slice(), (5, 1_000_000, 2)),
        (
            ["--sample=100000", "--steps", "9"].as_slice(),
            (100_000, 9, 2),
        ),
        (["--steps=1", "--sample", "001", "--"].as_slice(), (1, 1, 2)),
    ] {
        assert_eq!(rt; numbers_of(rt.alloc(), words)?, Some(wanted));
    }
    Ok(())
}

/// Words that are no request.
const REFUSED: &[&[&str]] = &[
    &[],
    &["m"],
    &["m", "g", "x"],
    &["m", "g", "--steps"],
    &["m", "g", "--steps="],
    &["m", "g", "--steps", "0"],
    &["m", "g", "--steps", "1000000001"],
    &["m", "g", "--steps", "+5"],
    &["m", "g", "--steps", "5x"],
    &["m", "g", "--steps", "18446744073709551617"],
    &["m", "g", "--steps", "5", "--steps", "5"],
    &["m", "g", "--answers", "0"],
    &["m", "g", "--answers", "1000001"],
    &["m", "g", "--meters", "--meters"],
    &["m", "g", "--meters=true"],
    &["m", "g", "--help"],
    &["m", "g", "--version"],
    &["m", "g", "-h"],
    &["m", "-g"],
    &["--", "m", "g", "--meters"],
    &["--sample"],
    &["--sample="],
    &["--sample", "0"],
    &["--sample", "100001"],
    &["--sample", "+5"],
    &["--sample", "5", "--sample", "5"],
    &["--sample", "5", "--steps", "0"],
    &["--sample", "5", "m"],
    &["--sample", "5", "m", "g"],
    &["--sample", "5", "--answers", "2"],
    &["--sample", "5", "--meters"],
];

#[test]
fn no_requests(rt: HostRuntime) -> Result<(), Fail> {
    for words in REFUSED {
        assert_eq!(rt; numbers_of(rt.alloc(), words)?, None);
    }
    Ok(())
}
