//! What a call returns besides its status and its texts.
ghost use Rattle.std.specs.Prelude.{◌≡◌};
ghost use Rattle.pc_lib_buffers.specs.Places.{no_place};

use crate::place::{NO_PLACE, Place};

/// The status if memory ran out, as `rcap` returns it.
pub const OUT_OF_MEMORY: u8 = 11;

/// What a call returns besides its status and its texts.
#[repr(C)]
#[derive(Clone, Copy, Debug)]
pub struct Answer {
    /// The length in bytes of everything that the command writes, whether or not its buffer has room for it.
    pub out_length: usize,
    /// The length in bytes of its line, whether or not its buffer has room for it.
    pub err_length: usize,
    /// The byte at which the line points: text 1 is the source, and text 2 the schedule.
    pub place: Place,
}

/// Reports that memory ran out, with no text and no place.
pub fn refuse_memory(answer: &mut Answer) -> u8
    ensures status { result ≡ 11 }
    ensures out { answer.new.out_length ≡ 0 }
    ensures err { answer.new.err_length ≡ 0 }
    ensures place { answer.new.place ≡ no_place }
{
    answer.out_length = 0;
    answer.err_length = 0;
    answer.place = NO_PLACE;
    OUT_OF_MEMORY
}
