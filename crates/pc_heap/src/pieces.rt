//! The pieces of a text, one after another.
ghost use Rattle.std.specs.List.{concat};
ghost use Rattle.std.specs.Prelude.{◌≡◌, ◌<◌, ◌+◌, ◌++◌, [], ◌∷◌, List as Sequence, ℕ, length, IfOk, OnOk, MatchOption};
ghost use Rattle.std.specs.Str.{bytes_eq};

use pc_base::{List, SharedList};
use std::alloc::{AllocError, Global};
use std::cmp;

/// The greatest number of bytes of two pieces that are merged into one.
const PIECE: usize = 256;

/// The part of a text that is still to be looked at.
#[derive(Clone, Copy, Drop)]
pub struct Rest<'t> {
    /// What is left of the piece at hand.
    pub piece: &'t [u8],
    /// The pieces after it.
    pub behind: &'t [SharedList<u8>],
}

/// How many bytes of `room` are left after the bytes of the pieces. `None` iff the pieces have more.
pub fn room_behind(pieces: &[SharedList<u8>], room: usize) -> Option<usize>
    ensures { MatchOption result (room < length (concat pieces.now)) (λ left. left + length (concat pieces.now) ≡ room) }
{
    let mut rest = pieces;
    let mut left = room;
    'rest: loop {
        match rest.split_first() {
            Some((first, behind)) => {
                left = left.checked_sub(first.len())?;
                rest = behind;
            }
            None => return Some(left),
        }
    }
}

/// The bytes of all pieces.
pub fn collected(alloc: Global, pieces: &[SharedList<u8>]) -> Result<Vec<u8>, AllocError>
    ensures { IfOk result (λ bytes. bytes.items ≡ concat pieces.now) }
{
    let mut bytes = Vec::new(alloc);
    let mut rest = pieces;
    'rest: loop {
        match rest.split_first() {
            Some((first, behind)) => {
                bytes.extend_from_slice(first.as_slice())?;
                rest = behind;
            }
            None => return Ok(bytes),
        }
    }
}

/// Whether two adjacent pieces are to be merged into one. No contract depends on the answer.
pub fn is_small(left: &SharedList<u8>, right: &SharedList<u8>) -> bool {
    left.as_slice().len() + right.as_slice().len() <= PIECE
}

/// Two pieces merged into one.
pub fn joined_piece(
    alloc: Global,
    left: &SharedList<u8>,
    right: &SharedList<u8>,
) -> Result<SharedList<u8>, AllocError>
    ensures { IfOk result (λ piece. piece ≡ left.now ++ right.now) }
{
    let (left, right) = (left.as_slice(), right.as_slice());
    let mut bytes = Vec::with_capacity(alloc, left.len() + right.len())?;
    bytes.extend_from_slice(left)?;
    bytes.extend_from_slice(right)?;
    SharedList::from_list(alloc, List::from_vec(bytes))
}

/// Two pieces, the left one first.
pub fn two(
    alloc: Global,
    left: &SharedList<u8>,
    right: &SharedList<u8>,
) -> Result<SharedList<SharedList<u8>>, AllocError>
    ensures { IfOk result (λ pieces. pieces ≡ left.now ∷ right.now ∷ []) }
{
    let mut pieces = Vec::with_capacity(alloc, 2)?;
    pieces.push(left.share()?)?;
    pieces.push(right.share()?)?;
    SharedList::from_list(alloc, List::from_vec(pieces))
}

/// The left pieces and then the right ones. The two that meet may be merged.
pub fn joined(
    alloc: Global,
    left: &[SharedList<u8>],
    right: &[SharedList<u8>],
) -> Result<SharedList<SharedList<u8>>, AllocError>
    ensures { IfOk result (λ pieces. concat pieces ≡ concat left.now ++ concat right.now) }
{
    let mut pieces = Vec::with_capacity(alloc, left.len() + right.len())?;
    add_both(alloc, &mut pieces, left, right)?;
    SharedList::from_list(alloc, List::from_vec(pieces))
}

// Adds the left pieces and then the right ones. The two that meet may be merged.
fn add_both(
    alloc: Global,
    pieces: &mut Vec<SharedList<u8>>,
    left: &[SharedList<u8>],
    right: &[SharedList<u8>],
) -> Result<(), AllocError>
    requires { pieces.old.items ≡ [] }
    ensures { OnOk result (concat pieces.new.items ≡ concat left.now ++ concat right.now) }
{
    match left.split_last() {
        Some((last, front)) => match right.split_first() {
            Some((first, behind)) => {
                add_all(pieces, front)?;
                meet(alloc, pieces, last, first)?;
                add_all(pieces, behind)?;
                Ok(())
            }
            None => add_all(pieces, left),
        },
        None => add_all(pieces, right),
    }
}

// Appends these pieces.
fn add_all(pieces: &mut Vec<SharedList<u8>>, more: &[SharedList<u8>]) -> Result<(), AllocError>
    ensures { OnOk result (pieces.new.items ≡ pieces.old.items ++ more.now) }
{
    let mut rest = more;
    'rest: loop {
        match rest.split_first() {
            Some((first, behind)) => {
                pieces.push(first.share()?)?;
                rest = behind;
            }
            None => return Ok(()),
        }
    }
}

// Appends two pieces, which may be merged into one.
fn meet(
    alloc: Global,
    pieces: &mut Vec<SharedList<u8>>,
    last: &SharedList<u8>,
    first: &SharedList<u8>,
) -> Result<(), AllocError>
    ensures { OnOk result (concat pieces.new.items ≡ concat pieces.old.items ++ (last.now ++ first.now)) }
{
    if is_small(last, first) {
        pieces.push(joined_piece(alloc, last, first)?)?;
    } else {
        pieces.push(last.share()?)?;
        pieces.push(first.share()?)?;
    }
    Ok(())
}

/// Whether both have the same bytes, no matter where a piece ends.
pub fn are_equal(left: &[SharedList<u8>], right: Rest<'_>) -> bool
    ensures { result ≡ bytes_eq (concat left.now) (right.entry.piece.now ++ concat right.entry.behind.now) }
{
    let mut others = right;
    let mut rest = left;
    'rest: loop {
        match rest.split_first() {
            Some((first, behind)) => match strip(others, first.as_slice()) {
                Some(after) => {
                    others = after;
                    rest = behind;
                }
                None => return false,
            },
            None => return is_used_up(others),
        }
    }
}

// Whether there are no bytes left.
fn is_used_up(rest: Rest<'_>) -> bool
    ensures { result ≡ bytes_eq [] (rest.entry.piece.now ++ concat rest.entry.behind.now) }
{
    rest.piece.is_empty() && room_behind(rest.behind, 0).is_some()
}

// What is left after these bytes. `None` iff it does not begin with them.
fn strip<'t>(from: Rest<'t>, bytes: &[u8]) -> Option<Rest<'t>>
    ensures { MatchOption result ((after : Sequence ℕ) → from.entry.piece.now ++ concat from.entry.behind.now ≡ bytes.now ++ after → ⊥)
        (λ rest. from.entry.piece.now ++ concat from.entry.behind.now ≡ bytes.now ++ (rest.piece.now ++ concat rest.behind.now)) }
{
    let mut rest = from;
    let mut wanted = bytes;
    'wanted: loop {
        if wanted.is_empty() {
            return Some(rest);
        }
        if rest.piece.is_empty() {
            match rest.behind.split_first() {
                Some((first, behind)) => {
                    rest = Rest {
                        piece: first.as_slice(),
                        behind,
                    };
                }
                None => return None,
            }
        } else {
            let count = cmp::min(rest.piece.len(), wanted.len());
            let (here, piece) = rest.piece.split_at(count);
            let (before, after) = wanted.split_at(count);
            if before != here {
                return None;
            }
            rest.piece = piece;
            wanted = after;
        }
    }
}
