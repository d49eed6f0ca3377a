use crate::cases::{Case, call_line, calls, names, settings, settings_line};
use crate::harness::{listing_of, listing_over_chains};
use listing::fault::Refusal;
use listing::list::MOST_INPUT;
use std::alloc::Global;
use std::process::Abort;
use std::test::Fail;

fn is_listing(rt: &impl Abort, answer: Result<Vec<u8>, Refusal>, case: &Case) {
    match answer {
        Ok(listing) => assert!(rt; &listing[..] == case.listing, "{}", case.name),
        Err(_) => assert!(rt; false, "{}", case.name),
    }
}

// A file's listing is the one that the case gives, over either wire.
fn every(rt: &impl Abort, heap: Global, cases: &[Case]) -> Result<(), Fail> {
    for case in cases {
        is_listing(rt, listing_of(heap, case.input)?, case);
        is_listing(rt, listing_over_chains(heap, case.input)?, case);
    }
    Ok(())
}

#[test]
fn every_case_has_its_listing(rt: HostRuntime) -> Result<(), Fail> {
    every(&rt, rt.alloc(), &names::CASES)?;
    every(&rt, rt.alloc(), &settings_line::CASES)?;
    every(&rt, rt.alloc(), &call_line::CASES)?;
    every(&rt, rt.alloc(), &settings::CASES)?;
    every(&rt, rt.alloc(), &calls::CASES)
}

fn ends_with_its_last_lines(rt: &impl Abort, answer: Result<Vec<u8>, Refusal>) {
    match answer {
        Ok(listing) => assert!(rt;
            listing.ends_with(b"\n5997 0\n5998 3\nkept messages freed\n0 0 0\n")
        ),
        Err(_) => assert!(rt; false),
    }
}

// As many good lines as go into a file, and an unfinished one up to its last byte; then a byte more.
#[test]
fn a_file_has_at_most_so_many_bytes(rt: HostRuntime) -> Result<(), Fail> {
    let heap = rt.alloc();
    let mut file = Vec::new(heap);
    file.extend_from_slice(b"boards cells entries credit\n1 8 4 1\ncall board a b c\n")?;
    for _ in 0..5994 {
        file.extend_from_slice(b"5 0 0 7 0\n")?;
    }
    file.extend_from_slice(b"5 0 0 7")?;
    assert!(rt; file.len() == MOST_INPUT);
    ends_with_its_last_lines(&rt, listing_of(heap, &file)?);
    ends_with_its_last_lines(&rt, listing_over_chains(heap, &file)?);
    file.push(b'\n')?;
    assert_eq!(rt; listing_of(heap, &file)?.err(), Some(Refusal::Size));
    assert_eq!(rt;
        listing_over_chains(heap, &file)?.err(),
        Some(Refusal::Size)
    );
    Ok(())
}
