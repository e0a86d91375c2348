//! Which methods may ever begin or be sent.
ghost use Rattle.std.specs.Prelude.{◌≡◌, ℕ, [], Some, IfOk, OnOk};
ghost use Rattle.pc_semantics.specs.Configurations as beginning;
ghost use Rattle.pc_sends.specs.Found.{ListsMayBe};
ghost use Rattle.pc_sends.specs.Growth.{Grown};
ghost use Rattle.pc_sends.specs.Reached as spec;

use crate::found::Found;
use crate::walk::{Noted, Walk};
use pc_core::Core;
use pc_semantics::main_create;
use std::alloc::{AllocError, Global};

// Finds the method with which the program begins.
fn find_first(core: &Core, found: &mut Found) -> Result<(), AllocError>
    ensures { OnOk result (Grown (λ t. (e : ℕ) × (beginning.main_create core.now ≡ Some (e, t))) found.old found.new) }
{
    match main_create(core) {
        Some((_, create)) => found.add(create),
        None => Ok(()),
    }
}

// The walk that has found this method, and has not looked at any call.
fn begin(alloc: Global, noted: &Noted) -> Result<Walk, AllocError>
    ensures found { IfOk result (λ walk. spec.Found noted.now.core.now noted.now.entities.now 0 walk.found) }
    ensures calls { IfOk result (λ walk. walk.calls ≡ []) }
{
    let mut walk = Walk::new(alloc);
    find_first(noted.core, &mut walk.found)?;
    Ok(walk)
}

/// The methods in Reach, each once: the methods found are looked at one after another, and what they use is found in
/// turn.
pub(crate) fn reach(alloc: Global, noted: &Noted) -> Result<Found, AllocError>
    requires { ListsMayBe noted.now.core.now noted.now.lists.now }
    ensures { IfOk result (λ found. spec.IsReach noted.now.core.now noted.now.entities.now found) }
{
    noted.core.formed();
    let mut walk = begin(alloc, noted)?;
    for at in 0..noted.core.methods().len() {
        match walk.found.get(at) {
            Some(number) => walk.see_method(noted, number)?,
            None => return Ok(walk.found),
        }
    }
    Ok(walk.found)
}
