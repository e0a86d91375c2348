//! What a worker does with its cell.
ghost use Rattle.std.specs.Prelude.{◌≡◌};
ghost use Rattle.pc_gen.specs.Program as spec;

/// A task of a worker, with its cell and its number.
#[derive(Clone, Copy)]
pub enum Task {
    /// Add the number.
    Add,
    /// Check whether the cell holds more than the number, and add one or the number.
    Compare,
    /// Add to the cell three times.
    Repeat,
    /// Copy the content into a cell that no one writes any more, and print it.
    Freeze,
}

/// The task chosen by a draw below 4.
pub fn task_of(draw: u32) -> Task
    ensures { result ≡ spec.task_of draw }
{
    match draw {
        0 => Task::Add,
        1 => Task::Compare,
        2 => Task::Repeat,
        _ => Task::Freeze,
    }
}
