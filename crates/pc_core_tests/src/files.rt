//! A derivation in a file that is read in parts.
use crate::judgements::{Asked, asked_of, program};
use pc_core::Core;
use pc_deriv::LineFault;
use pc_feed::{DerivationFault, judge_file};
use pc_io::MemFiles;
use pc_referee::{ListReferee, Rules};
use pc_test_inputs::{LINES, Wrong, variant_of};
use std::alloc::{AllocError, Global};
use std::test::Fail;

// Files in memory for which these calls fail, with this text in `a.der`.
fn files_with(alloc: Global, fail: &[u32], text: &[u8]) -> Result<MemFiles, AllocError> {
    let mut files = MemFiles::new(alloc, fail)?;
    files.add("a.der", text)?;
    Ok(files)
}

/// What is reported of a derivation in a file.
type Answer = Result<(), DerivationFault>;

// What is reported of the program's derivation in a file.
fn judged(alloc: Global, files: &mut MemFiles, name: &str) -> Result<Answer, Wrong> {
    let core = program(alloc)?;
    Ok(judge_file(alloc, files, name, &core, &mut Rules))
}

fn judge_asking(alloc: Global, files: &mut MemFiles, core: &Core) -> (Answer, Asked) {
    let mut referee = ListReferee::new(alloc);
    let found = judge_file(alloc, files, "a.der", core, &mut referee);
    (found, asked_of(&referee))
}

// What is reported of the program's derivation in `a.der`, and what is asked about it.
fn judged_asking(alloc: Global, files: &mut MemFiles) -> Result<(Answer, Asked), Wrong> {
    let core = program(alloc)?;
    Ok(judge_asking(alloc, files, &core))
}

const FAILED: Answer = Err(DerivationFault::Failed);

// The second reading of all is of no file, the third fails, and the fourth does not.
const READINGS: [(&str, Answer); 3] = [("gone.der", FAILED), ("a.der", FAILED), ("a.der", Ok(()))];

// The first of these readings with another result, and that result.
fn wrong_reading(
    alloc: Global,
    files: &mut MemFiles,
    readings: &[(&str, Answer)],
) -> Option<(usize, Result<Answer, Wrong>)> {
    for at in 0..readings.len() {
        let found = judged(alloc, files, readings[at].0);
        if found != Ok(readings[at].1) {
            return Some((at, found));
        }
    }
    None
}

#[test]
fn a_file_is_judged_as_its_bytes_are(rt: HostRuntime) -> Result<(), Fail> {
    let text = variant_of(rt.alloc(), &LINES, 0, b"")?;
    let mut files = files_with(rt.alloc(), &[3], &text)?;
    assert_eq!(rt; judged_asking(rt.alloc(), &mut files), Ok((Ok(()), Ok(7))));
    assert_eq!(rt; wrong_reading(rt.alloc(), &mut files, &READINGS), None);
    Ok(())
}

// The derivation followed by 70,000 line ends.
fn long_text(alloc: Global) -> Result<Vec<u8>, AllocError> {
    let mut text = variant_of(alloc, &LINES, 0, b"")?;
    for _ in 0..70_000 {
        text.push(b'\n')?;
    }
    Ok(text)
}

// What is reported of the long text if these calls fail.
fn judged_long(alloc: Global, fail: &[u32]) -> Result<Answer, Wrong> {
    let text = long_text(alloc)?;
    let mut files = files_with(alloc, fail, &text)?;
    judged(alloc, &mut files, "a.der")
}

#[test]
fn a_file_of_more_than_one_part_is_read_to_its_end(rt: HostRuntime) {
    let fault = DerivationFault::Text(LineFault::BadLine(13));
    assert_eq!(rt; judged_long(rt.alloc(), &[]), Ok(Err(fault)));
    assert_eq!(rt; judged_long(rt.alloc(), &[2]), Ok(FAILED));
}
