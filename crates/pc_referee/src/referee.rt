//! The interface of a referee.
ghost use Rattle.std.specs.Prelude.{◌≡◌, ◌↔◌, ◌<◌, ℕ, List, length, IfOk, IsTrue};
ghost use Rattle.std.specs.declared.option.Option.{Option};
ghost use Rattle.pc_ann.specs.declared.annotation.Note.{Note as NoteIs};
ghost use Rattle.pc_valid.specs.NoRule.{Holds};
ghost use Rattle.pc_referee.specs.Asked.{asked_after};

use pc_ann::Note;
use pc_caps::Cap;
use pc_core::Core;
use std::alloc::AllocError;

/// Decides for nodes, one by one, whether they satisfy their rules.
///
/// Contracts see `asked`: the nodes that were found right so far, each with its number and its note, the latest last;
/// or none if a referee keeps no such list.
pub trait Referee {
    /// The nodes that were found right, if that is known.
    ghost asked: { Self → Option (List (ℕ × NoteIs)) };

    /// Whether node `n` satisfies the rule of this note, by the types of the slots and the notes of its children, in
    /// order. If the list is known, a node that does is appended to it, and nothing else changes it.
    ///
    /// # Errors
    /// `AllocError` if memory runs out, which says nothing about the node.
    fn ask(
        &mut self,
        core: &Core,
        slots: &[(u32, Cap)],
        own: &Note,
        children: &[Note],
        number: u32,
    ) -> Result<bool, AllocError>
        requires slots { length slots.now ≡ length core.now.slots }
        requires node { number < length core.now.nodes }
        ensures right { IfOk result (λ b. IsTrue b ↔ Holds core.now slots.now own.now children.now number) }
        ensures list { asked self.new ≡ asked_after (asked self.old) number own.now result };
}
