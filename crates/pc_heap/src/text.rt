//! Texts.
ghost use Rattle.std.specs.List.{concat};
ghost use Rattle.std.specs.Prelude.{◌≡◌, ◌<◌, ◌+◌, ◌++◌, length, IfOk, MatchOption};
ghost use Rattle.std.specs.Str.{bytes_eq};
ghost use Rattle.pc_heap.specs.Texts.{bytes_of};

use crate::pieces::{Rest, are_equal, collected, is_small, joined, joined_piece, room_behind, two};
use pc_base::{List, SharedList};
use std::alloc::{AllocError, Global};
use std::marker::Model;
use std::slice;

/// A text, seen as its bytes, which never change. All copies of a text share its bytes; so does a text joined from two
/// others with them, except for a few bytes at the seam.
#[derive(Debug, Drop)]
pub struct Text {
    form: Form,
}

// How the bytes are held.
#[derive(Debug, Drop)]
enum Form {
    // In one piece.
    Whole(SharedList<u8>),
    // In several pieces, one after another.
    Pieces(SharedList<SharedList<u8>>),
}

impl Model for Text {
    ghost use Rattle.std.specs.Prelude.{List as Sequence, ℕ};
    ghost use Rattle.pc_heap.specs.Texts.{bytes_of};

    ghost Value = { Sequence ℕ };

    ghost view = { λ text. bytes_of text.form };
}

impl Text {
    /// The text with these bytes. It cannot run out of memory.
    pub fn new(bytes: SharedList<u8>) -> Text
        ensures { result ≡ bytes }
    {
        Text {
            form: Form::Whole(bytes),
        }
    }

    /// Another owner of the same text. It cannot run out of memory: `Err` means that the text has too many owners to be
    /// counted.
    pub fn share(&self) -> Result<Text, AllocError>
        ensures { IfOk result (λ copy. copy ≡ self.now) }
    {
        let form = match &self.form {
            Form::Whole(bytes) => Form::Whole(bytes.share()?),
            Form::Pieces(pieces) => Form::Pieces(pieces.share()?),
        };
        Ok(Text { form })
    }

    /// The left text and then the right one.
    ///
    /// The pieces share their bytes with the two texts. Two small pieces that meet are merged, so that a text that is
    /// made by many joins has few pieces; how many it has is neither proved nor tested.
    pub fn join(alloc: Global, left: &Text, right: &Text) -> Result<Text, AllocError>
        ensures { IfOk result (λ text. text ≡ left.now ++ right.now) }
    {
        let form = match (&left.form, &right.form) {
            (Form::Whole(left), Form::Whole(right)) => join_whole(alloc, left, right)?,
            (Form::Pieces(_), _) | (Form::Whole(_), Form::Pieces(_)) => Form::Pieces(joined(
                alloc,
                left.pieces(),
                right.pieces(),
            )?),
        };
        Ok(Text { form })
    }

    /// The bytes, in order.
    pub fn to_list(&self, alloc: Global) -> Result<List<u8>, AllocError>
        ensures { IfOk result (λ bytes. bytes ≡ self.now) }
    {
        Ok(List::from_vec(collected(alloc, self.pieces())?))
    }

    /// How many bytes of `room` are left after this text. `None` iff it has more bytes.
    pub fn room_behind(&self, room: usize) -> Option<usize>
        ensures { MatchOption result (room < length self.now) (λ left. left + length self.now ≡ room) }
    {
        room_behind(self.pieces(), room)
    }

    /// Whether the other text has the same bytes.
    pub fn is_equal(&self, other: &Text) -> bool
        ensures { result ≡ bytes_eq self.now other.now }
    {
        let other = Rest {
            piece: &[],
            behind: other.pieces(),
        };
        are_equal(self.pieces(), other)
    }

    /// Whether the text has these bytes.
    pub fn has_bytes(&self, bytes: &[u8]) -> bool
        ensures { result ≡ bytes_eq self.now bytes.now }
    {
        let other = Rest {
            piece: bytes,
            behind: &[],
        };
        are_equal(self.pieces(), other)
    }

    // The pieces, one after another.
    fn pieces(&self) -> &[SharedList<u8>]
        ensures { concat result.now ≡ self.now }
    {
        match &self.form {
            Form::Whole(bytes) => slice::from_ref(bytes),
            Form::Pieces(pieces) => pieces.as_slice(),
        }
    }
}

// Joins two texts of one piece each.
fn join_whole(
    alloc: Global,
    left: &SharedList<u8>,
    right: &SharedList<u8>,
) -> Result<Form, AllocError>
    ensures { IfOk result (λ form. bytes_of form ≡ left.now ++ right.now) }
{
    if is_small(left, right) {
        Ok(Form::Whole(joined_piece(alloc, left, right)?))
    } else {
        Ok(Form::Pieces(two(alloc, left, right)?))
    }
}
