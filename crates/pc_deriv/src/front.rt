//! The line at the start of a text.
ghost use Rattle.std.specs.Prelude.{◌≡◌};
ghost use Rattle.pc_deriv.specs.Front as front;
ghost use Rattle.pc_deriv.specs.LineState.{Room};

use crate::line::Line;
use crate::lines::{head_at, note_at, slot_at};
use crate::version::Version;

// The first line, and the number of its bytes.
fn front_head(text: &[u8]) -> Option<(Line, usize)>
    ensures { result ≡ front.front_head text.now }
{
    let ((version, (slots, nodes)), rest) = head_at(text)?;
    let line = Line::Head {
        version: version.number(),
        slots,
        nodes,
    };
    Some((line, text.len().saturating_sub(rest.len())))
}

// The line of a slot, and the number of its bytes.
fn front_slot(text: &[u8]) -> Option<(Line, usize)>
    ensures { result ≡ front.front_slot text.now }
{
    let ((entity, cap), rest) = slot_at(text)?;
    Some((
        Line::Slot(entity, cap),
        text.len().saturating_sub(rest.len()),
    ))
}

// The line of a node, and the number of its bytes.
fn front_node(version: Version, text: &[u8]) -> Option<(Line, usize)>
    ensures { result ≡ front.front_node version text.now }
{
    let (note, rest) = note_at(version, text)?;
    Some((Line::Node(note), text.len().saturating_sub(rest.len())))
}

/// The line with which the text begins after `ended` lines, and the number of its bytes.
pub fn front_line(
    version: Version,
    counts: Option<(u32, u32)>,
    ended: u32,
    text: &[u8],
) -> Option<(Line, usize)>
    requires { Room counts ended }
    ensures { result ≡ front.front_line version counts ended text.now }
{
    match counts {
        None => front_head(text),
        Some((slots, nodes)) => {
            if ended <= slots {
                front_slot(text)
            } else if ended <= slots + nodes {
                front_node(version, text)
            } else {
                None
            }
        }
    }
}
