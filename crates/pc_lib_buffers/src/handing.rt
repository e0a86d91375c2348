//! What is handed to a caller.
ghost use Rattle.std.specs.Prelude.{◌≡◌, ◌≢◌};
ghost use Rattle.pc_lib_buffers.specs.Laying.{BufferHolds, IsUntouched, buffer};
ghost use Rattle.pc_lib_buffers.specs.Places.{no_place};
ghost use Rattle.pc_lib_buffers.specs.Points.{Points};

use crate::answer::{Answer, OUT_OF_MEMORY, refuse_memory};
use crate::beside::Beside;
use crate::laying::lay;
use crate::pointing::find_place;
use std::alloc::Global;

/// Hands over what a command answered on these texts: its status, its text and its line, as far as there is room for
/// them, and the place at which the line points. If memory ran out, even while looking for that place, no text and no
/// place are handed over.
pub fn hand_over(
    alloc: Global,
    status: u8,
    written: &[u8],
    line: &[u8],
    source: &[u8],
    beside: Beside<'_>,
    out: &mut [u8],
    err: &mut [u8],
    answer: &mut Answer,
) -> u8
    ensures status { result ≢ 11 → result ≡ status }
    ensures texts { result ≢ 11 → BufferHolds (buffer out.old out.new answer.new.out_length) written.now × BufferHolds (buffer err.old err.new answer.new.err_length) line.now × Points source.now beside.entry line.now answer.new.place }
    ensures memory { result ≡ 11 → IsUntouched (buffer out.old out.new answer.new.out_length) × IsUntouched (buffer err.old err.new answer.new.err_length) × (answer.new.place ≡ no_place) }
{
    if status == OUT_OF_MEMORY {
        return refuse_memory(answer);
    }
    match find_place(alloc, line, source, beside) {
        Ok(place) => {
            answer.place = place;
            answer.out_length = lay(out, written);
            answer.err_length = lay(err, line);
            status
        }
        Err(_) => refuse_memory(answer),
    }
}
