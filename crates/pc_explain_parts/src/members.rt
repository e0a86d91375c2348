//! The fields and methods that a node names.
ghost use Rattle.std.specs.Prelude.{◌≡◌, Some};
ghost use Rattle.std.specs.Option.{option_copied};
ghost use Rattle.pc_explain_parts.specs.Members as spec;
ghost use Rattle.pc_rules.specs.Fields.{field_of as field_is};
ghost use Rattle.pc_rules.specs.Parts.{last_child as last_child_is};

use pc_caps::Cap;
use pc_core::{Core, FieldInfo, Method, Node};
use pc_explain_words::Scene;

// A field of an entity by its name, with its index.
fn field_of(core: &Core, entity: u32, name: u32) -> Option<(u32, FieldInfo)>
    ensures { result ≡ field_is core.now entity name }
{
    let at = core.field(entity, name)?;
    let found = core.entity_at(entity)?;
    let field = found.fields.get(at as usize)?;
    Some((at, *field))
}

// The field with this name of the entity of the node with this number.
#[tactic(auto, unfolding(crate::specs::Members::field_of_node))]
fn field_of_node(scene: &Scene, node: u32, name: u32) -> Option<FieldInfo>
    ensures { result ≡ spec.field_of_node scene.now (Some node) name }
{
    let ty = scene.type_of(node)?;
    let found = field_of(scene.core(), ty.0, name)?;
    Some(found.1)
}

/// The field with this name of the entity of a node.
#[tactic(auto, unfolding(crate::specs::Members::field_of_node))]
pub fn field_at(scene: &Scene, node: Option<u32>, name: u32) -> Option<FieldInfo>
    ensures { result ≡ spec.field_of_node scene.now node name }
{
    match node {
        Some(number) => field_of_node(scene, number, name),
        None => None,
    }
}

/// The type of a field's place.
pub fn place_of(field: Option<FieldInfo>) -> Option<(u32, Cap)>
    ensures { result ≡ spec.found_field_place field }
{
    match field {
        Some(found) => Some((found.entity, found.cap)),
        None => None,
    }
}

fn last_child(children: &[u32]) -> Option<u32>
    ensures { result ≡ last_child_is children.now }
{
    children.get(children.len().saturating_sub(1)).copied()
}

/// The method with this name of the entity of a call's receiver.
#[tactic(auto, unfolding(crate::specs::Members::node_callee))]
pub fn callee<'a>(scene: &Scene<'a>, node: &Node, name: u32) -> Option<&'a Method>
    ensures { option_copied result ≡ spec.node_callee scene.now node.now name }
{
    let receiver = last_child(node.children.as_slice())?;
    let ty = scene.type_of(receiver)?;
    let method = scene.core().method(ty.0, name)?;
    scene.core().method_at(method)
}
