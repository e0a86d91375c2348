//! The lines of the derivation, and texts that differ from it in one of them.
use std::alloc::{AllocError, Global};

/// The derivation in version 1: a class, and an actor whose constructor defines a local of it.
pub const LINES: [&[u8]; 12] = [
    b"rcap-derivation 1 4 7\n",
    b"s 6 ref\n",
    b"s 7 ref\n",
    b"s 4 val\n",
    b"s 6 iso\n",
    b"n prim 0 val 1 0 1 0\n",
    b"n seq 0 val 1 0 1 0\n",
    b"n body - 1 0 1 0\n",
    b"n new 6 iso^ 3 0 3 0\n",
    b"n define - 3 0 7 0\n",
    b"n seq - 3 0 3 0\n",
    b"n body - 3 0 3 0\n",
];

/// The same in version 2.
pub const LINES2: [&[u8]; 12] = [
    b"rcap-derivation 2 4 7\n",
    b"s 6 ref\n",
    b"s 7 ref\n",
    b"s 4 val\n",
    b"s 6 iso\n",
    b"n prim 0 val 1 0 0 0\n",
    b"n seq 0 val 1 0 0 0\n",
    b"n body - 1 0 0 0\n",
    b"n new 6 iso^ 3 0 0 0\n",
    b"n define - 3 0 4 0\n",
    b"n seq - 3 0 0 0\n",
    b"n body - 3 0 0 0\n",
];

/// The lines with other bytes for one of them, counted from 1.
pub fn variant_of(
    alloc: Global,
    lines: &[&[u8]],
    number: usize,
    line: &[u8],
) -> Result<Vec<u8>, AllocError> {
    let mut text: Vec<u8> = Vec::new(alloc);
    for at in 0..lines.len() {
        if at + 1 == number {
            text.extend_from_slice(line)?;
        } else {
            text.extend_from_slice(lines[at])?;
        }
    }
    Ok(text)
}
