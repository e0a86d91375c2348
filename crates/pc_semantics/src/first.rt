//! The method with which a program begins.
ghost use Rattle.std.specs.Prelude.{◌≡◌, position};
ghost use Rattle.std.specs.Str.{bytes_eq};
ghost use Rattle.pc_semantics.specs.Configurations as spec;
ghost use Rattle.pc_semantics.specs.Parts as parts;

use pc_base::List;
use pc_core::{Core, EntityDef};

// The place of a text in this list.
fn place_of(texts: &[List<u8>], text: &[u8]) -> Option<usize>
    ensures { result ≡ position (bytes_eq text.now) texts.now }
{
    texts.iter().position(|other| text == other.as_slice())
}

// The number of the name with this text.
fn name_of(core: &Core, text: &[u8]) -> Option<u32>
    ensures { result ≡ position (bytes_eq text.now) core.now.names }
{
    core.formed();
    let place = place_of(core.names(), text)?;
    Some(place as u32)
}

// The place of the entity with this name in the list.
fn place_named(entities: &[EntityDef], name: &[u8]) -> Option<usize>
    ensures { result ≡ position (λ x. bytes_eq name.now x.name) entities.now }
{
    entities
        .iter()
        .position(|entity| name == entity.name.as_slice())
}

// The number of the entity with this name.
#[tactic(auto, using(crate::proofs::Named::position_named))]
fn entity_named(core: &Core, name: &[u8]) -> Option<u32>
    ensures { result ≡ parts.number_of_entity core.now name.now }
{
    core.formed();
    let place = place_named(core.entities(), name)?;
    Some(place as u32)
}

/// The numbers of the entity Main and of its constructor `create`, if the core has both: with these the program begins.
pub fn main_create(core: &Core) -> Option<(u32, u32)>
    ensures { result ≡ spec.main_create core.now }
{
    let main = entity_named(core, b"Main")?;
    let name = name_of(core, b"create")?;
    let create = core.method(main, name)?;
    Some((main, create))
}
