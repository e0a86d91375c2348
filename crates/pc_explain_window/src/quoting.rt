//! Pieces of a source and names, as they appear in a line of words.
ghost use Rattle.std.specs.Prelude.{◌≡◌, ◌++◌, ◌≤◌, IfOk, OnOk};
ghost use Rattle.pc_explain_window.specs.Quoting as spec;

use crate::bytes::{goes_on, shown};
use std::alloc::{AllocError, Global};

// How many bytes of a piece are written in full, and how many of a longer one are kept at most.
const WHOLE: usize = 40;

const KEPT: usize = 38;

fn is_blank(byte: u8) -> bool
    ensures { result ≡ spec.is_white_space byte }
{
    byte == b' ' || byte == b'\t' || byte == b'\n' || byte == b'\r'
}

// Appends what a byte is written as, after a blank or after another byte.
fn push_in_line(out: &mut Vec<u8>, after_blank: bool, byte: u8) -> Result<(), AllocError>
    ensures { OnOk result (out.new.items ≡ out.old.items ++ spec.in_line after_blank byte) }
{
    if !is_blank(byte) {
        out.push(shown(byte))?;
    } else if !after_blank {
        out.push(b' ')?;
    }
    Ok(())
}

// A piece in one line.
fn one_line(alloc: Global, piece: &[u8]) -> Result<Vec<u8>, AllocError>
    ensures { IfOk result (λ line. line.items ≡ spec.one_line piece.now) }
{
    let mut line = Vec::new(alloc);
    let mut after_blank = false;
    'bytes: for byte in piece {
        push_in_line(&mut line, after_blank, *byte)?;
        after_blank = is_blank(*byte);
    }
    Ok(line)
}

// Whether a cut before the byte with this index splits a character.
fn splits(line: &[u8], at: usize) -> bool
    ensures { result ≡ spec.splits line.now at }
{
    match line.get(at) {
        Some(byte) => goes_on(*byte),
        None => false,
    }
}

// How many bytes of a longer line are kept, such that no character is split.
fn cut_of(line: &[u8]) -> usize
    ensures value { result ≡ spec.cut_of line.now }
    ensures few { result ≤ spec.kept_bytes }
{
    if !splits(line, KEPT) {
        KEPT
    } else if !splits(line, KEPT - 1) {
        KEPT - 1
    } else if !splits(line, KEPT - 2) {
        KEPT - 2
    } else {
        KEPT - 3
    }
}

// Appends a line, cut if it is long.
fn push_cut(out: &mut Vec<u8>, line: &[u8]) -> Result<(), AllocError>
    ensures { OnOk result (out.new.items ≡ out.old.items ++ spec.cut line.now) }
{
    if line.len() <= WHOLE {
        return out.extend_from_slice(line);
    }
    out.extend_from_slice(&line[..cut_of(line)])?;
    out.extend_from_slice(b"..")
}

/// Appends a piece in one line, with each run of blanks, tabs and line ends as one blank. If it has more than 40 bytes,
/// it is cut.
#[tactic(auto, unfolding(crate::specs::Quoting::piece))]
pub fn push_piece(alloc: Global, out: &mut Vec<u8>, piece: &[u8]) -> Result<(), AllocError>
    ensures { OnOk result (out.new.items ≡ out.old.items ++ spec.piece piece.now) }
{
    let line = one_line(alloc, piece)?;
    push_cut(out, line.as_slice())
}

/// Appends a piece between backquotes.
#[tactic(auto, unfolding(crate::specs::Quoting::quoted))]
pub fn push_quoted(alloc: Global, out: &mut Vec<u8>, piece: &[u8]) -> Result<(), AllocError>
    ensures { OnOk result (out.new.items ≡ out.old.items ++ spec.quoted piece.now) }
{
    out.extend_from_slice(b"`")?;
    push_piece(alloc, out, piece)?;
    out.extend_from_slice(b"`")
}
