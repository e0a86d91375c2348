//! The rules as a referee.
ghost use Rattle.std.specs.Prelude.{◌≡◌, ◌↔◌, ◌<◌, None, length, IfOk, IsOk, IsTrue};
ghost use Rattle.pc_valid.specs.NoRule.{Holds};

use crate::Referee;
use pc_ann::Note;
use pc_caps::Cap;
use pc_core::Core;
use pc_rules::holds;
use std::alloc::AllocError;

/// The referee that answers by the rules, keeps nothing and does not allocate.
#[derive(Clone, Copy, Debug)]
pub struct Rules;

impl Referee for Rules {
    ghost asked = { λ _. None };

    /// Always answers.
    fn ask(
        &mut self,
        core: &Core,
        slots: &[(u32, Cap)],
        own: &Note,
        children: &[Note],
        number: u32,
    ) -> Result<bool, AllocError>
        requires slots { length slots.now ≡ length core.now.slots }
        requires node { number < length core.now.nodes }
        ensures right { IfOk result (λ b. IsTrue b ↔ Holds core.now slots.now own.now children.now number) }
        ensures answers { IsOk result }
    {
        Ok(holds(core, slots, own, children, number))
    }
}
