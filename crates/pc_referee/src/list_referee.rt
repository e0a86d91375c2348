//! A referee that keeps what it was asked.
ghost use Rattle.std.specs.Prelude.{◌≡◌, ◌↔◌, ◌<◌, [], Some, length, IfOk, IsTrue};
ghost use Rattle.pc_valid.specs.NoRule.{Holds};
ghost use Rattle.pc_referee.specs.Asked.{pairs_after};

use crate::Referee;
use pc_ann::Note;
use pc_base::List;
use pc_caps::Cap;
use pc_core::Core;
use pc_rules::holds;
use std::alloc::{AllocError, Global};
use std::marker::Model;

/// The referee that answers by the rules and keeps the nodes that it found right. In contracts it is the list of these.
#[derive(Drop)]
pub struct ListReferee {
    asked: List<(u32, Note)>,
}

impl Model for ListReferee {
    ghost use Rattle.std.specs.Prelude.{List as Sequence, ℕ};
    ghost use Rattle.pc_ann.specs.declared.annotation.Note.{Note as NoteIs};

    ghost Value = { Sequence (ℕ × NoteIs) };

    ghost view = { λ referee. referee.asked };
}

impl ListReferee {
    /// Nothing was asked. Does not allocate.
    pub fn new(alloc: Global) -> ListReferee
        ensures { result ≡ [] }
    {
        ListReferee {
            asked: List::new(alloc),
        }
    }

    /// The numbers of the nodes that were found right, each with its note, the latest last.
    pub fn asked(&self) -> &List<(u32, Note)>
        ensures { result.now ≡ self.now }
    {
        &self.asked
    }
}

impl Referee for ListReferee {
    ghost asked = { λ pairs. Some pairs };

    fn ask(
        &mut self,
        core: &Core,
        slots: &[(u32, Cap)],
        own: &Note,
        children: &[Note],
        number: u32,
    ) -> Result<bool, AllocError>
        requires slots { length slots.now ≡ length core.now.slots }
        requires node { number < length core.now.nodes }
        ensures right { IfOk result (λ b. IsTrue b ↔ Holds core.now slots.now own.now children.now number) }
        ensures list { self.new ≡ pairs_after self.old number own.now result }
    {
        let is_right = holds(core, slots, own, children, number);
        if is_right {
            self.asked.push((number, *own))?;
        }
        Ok(is_right)
    }
}
