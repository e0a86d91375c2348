//! The parameters of a method, which are visible throughout its body.
ghost use Rattle.std.specs.Prelude.{◌≡◌, ◌∷◌, [], ◌++◌, IfOk, OnOk};
ghost use Rattle.pc_body_spec.specs.Bodies as spec;

use crate::scope::Visible;
use pc_base::{List, ShortBytes};
use pc_tree::{Name, ParamDef};
use std::alloc::{AllocError, Global};

/// The parameters, whose slots come after that of `this`. `Err` if memory runs out, or if there are so many that the
/// slot after the last one does not fit in 32 bits.
pub fn params_scope(alloc: Global, params: &[ParamDef]) -> Result<List<Visible>, AllocError>
    ensures { IfOk result (λ scope. scope ≡ spec.params_scope params.now) }
{
    let mut scope = List::new(alloc);
    add_params(alloc, &mut scope, params)?;
    Ok(scope)
}

// Appends the parameters.
fn add_params(
    alloc: Global,
    scope: &mut List<Visible>,
    params: &[ParamDef],
) -> Result<(), AllocError>
    ensures { OnOk result (scope.new ≡ scope.old ++ spec.params_scope params.now) }
{
    let mut slot: u32 = 1;
    for param in params {
        push_name(alloc, scope, &param.name, slot)?;
        let Some(next) = slot.checked_add(1) else {
            return Err(AllocError);
        };
        slot = next;
    }
    Ok(())
}

// Appends the name, in the slot with this index.
fn push_name(
    alloc: Global,
    scope: &mut List<Visible>,
    name: &Name,
    slot: u32,
) -> Result<(), AllocError>
    ensures { OnOk result (scope.new ≡ scope.old ++ record { name = name.now.text; slot = slot } ∷ []) }
{
    let text = ShortBytes::from_slice(alloc, name.text.as_slice())?;
    scope.push(Visible::new(text, slot))
}
