//! The locals of a body.
ghost use Rattle.std.specs.Prelude.{◌≡◌, IfOk};
ghost use Rattle.std.specs.Option.{option_copied};

use pc_base::ShortBytes;
use pc_tree::{Name, TypeRef};
use std::alloc::{AllocError, Global};
use std::marker::Model;

/// A local at its definition.
#[derive(Drop)]
pub struct Local {
    fixed: bool,
    name: Name,
    ty: Option<TypeRef>,
    depth: u32,
}

impl Model for Local {
    ghost use Rattle.pc_body_spec.specs.Slots.{Local as Seen};

    ghost Value = { Seen };

    ghost view = { λ l. record { fixed = l.fixed; name = l.name; ty = l.ty; depth = l.depth } };
}

impl Local {
    /// A copy of what is written for a local.
    pub(crate) fn copy(
        alloc: Global,
        fixed: bool,
        name: &Name,
        ty: &Option<TypeRef>,
        depth: u32,
    ) -> Result<Local, AllocError>
        ensures { IfOk result (λ l. l ≡ record { fixed = fixed; name = name.now; ty = ty.now; depth = depth }) }
    {
        let name = copy_name(alloc, name)?;
        let ty = copy_written(alloc, ty)?;
        Ok(Local {
            fixed,
            name,
            ty,
            depth,
        })
    }

    /// Whether the keyword is `let`: the local is never assigned again.
    pub fn is_fixed(&self) -> bool
        ensures { result ≡ self.now.fixed }
    {
        self.fixed
    }

    /// Its name, at its definition.
    pub fn name(&self) -> &Name
        ensures { result.now ≡ self.now.name }
    {
        &self.name
    }

    /// Its type, if one is written.
    pub fn ty(&self) -> Option<&TypeRef>
        ensures { option_copied result ≡ self.now.ty }
    {
        match &self.ty {
            Some(ty) => Some(ty),
            None => None,
        }
    }

    /// The number of `recover` bodies around its definition.
    pub fn depth(&self) -> u32
        ensures { result ≡ self.now.depth }
    {
        self.depth
    }
}

// A copy of a name.
fn copy_name(alloc: Global, name: &Name) -> Result<Name, AllocError>
    ensures { IfOk result (λ n. n ≡ name.now) }
{
    let text = ShortBytes::from_slice(alloc, name.text.as_slice())?;
    Ok(Name {
        text,
        span: name.span,
    })
}

// A copy of a type.
fn copy_type(alloc: Global, ty: &TypeRef) -> Result<TypeRef, AllocError>
    ensures { IfOk result (λ t. t ≡ ty.now) }
{
    let name = copy_name(alloc, &ty.name)?;
    Ok(TypeRef {
        name,
        cap: ty.cap,
        hat: ty.hat,
    })
}

fn copy_written(alloc: Global, ty: &Option<TypeRef>) -> Result<Option<TypeRef>, AllocError>
    ensures { IfOk result (λ t. t ≡ ty.now) }
{
    match ty {
        None => Ok(None),
        Some(ty) => {
            let ty = copy_type(alloc, ty)?;
            Ok(Some(ty))
        }
    }
}
