//! What every program has: the built-in entities.
ghost use Rattle.std.specs.Prelude.{◌≡◌, ◌++◌, ◌∷◌, [], IfOk, OnOk};
ghost use Rattle.pc_core.specs.Entities.{built_in, built_in_value, out_field, print_method};
ghost use Rattle.pc_file_spec.specs.Cores as spec;

use pc_base::{List, Span};
use pc_caps::{Cap, Form};
use pc_core::{EntityDef, FieldInfo, Method, MethodKind, ParamInfo};
use pc_tree::{EntityKind, NONE_ENTITY, OUT_STREAM_ENTITY, STRING_ENTITY};
use std::alloc::{AllocError, Global};

// Built-in parts have no place in the text.
const NOWHERE: Span = Span { start: 0, end: 0 };

// Appends a built-in entity.
fn add_built_in(
    alloc: Global,
    entities: &mut List<EntityDef>,
    kind: EntityKind,
    cap: Cap,
    name: &str,
    fields: List<FieldInfo>,
    methods: u32,
) -> Result<(), AllocError>
    ensures { OnOk result (entities.new ≡ entities.old ++ built_in kind cap name.now fields methods ∷ []) }
{
    let name = List::from_slice(alloc, name.as_bytes())?;
    entities.push(EntityDef {
        kind,
        cap,
        name,
        span: NOWHERE,
        provides: List::new(alloc),
        above: List::new(alloc),
        fields,
        first_method: 0,
        methods,
    })
}

// Appends an entity of literal values.
fn add_value(alloc: Global, entities: &mut List<EntityDef>, name: &str) -> Result<(), AllocError>
    ensures { OnOk result (entities.new ≡ entities.old ++ built_in_value name.now ∷ []) }
{
    let none = List::new(alloc);
    add_built_in(
        alloc,
        entities,
        EntityKind::Primitive,
        Cap::Val,
        name,
        none,
        0,
    )
}

// The fields of the environment.
fn list_env_fields(alloc: Global) -> Result<List<FieldInfo>, AllocError>
    ensures { IfOk result (λ fields. fields ≡ out_field 0 ∷ []) }
{
    let mut fields = List::new(alloc);
    fields.push(FieldInfo {
        name: 0,
        fixed: true,
        entity: OUT_STREAM_ENTITY,
        cap: Cap::Tag,
    })?;
    Ok(fields)
}

/// Adds the built-in entities, with `out` and `print` as the first two texts, to an empty list.
pub(crate) fn add_built_ins(alloc: Global, entities: &mut List<EntityDef>) -> Result<(), AllocError>
    requires { entities.old ≡ [] }
    ensures { OnOk result (entities.new ≡ spec.built_ins) }
{
    add_value(alloc, entities, "None")?;
    add_value(alloc, entities, "U64")?;
    add_value(alloc, entities, "Bool")?;
    add_value(alloc, entities, "String")?;
    let fields = list_env_fields(alloc)?;
    add_built_in(
        alloc,
        entities,
        EntityKind::Class,
        Cap::Val,
        "Env",
        fields,
        0,
    )?;
    let none = List::new(alloc);
    add_built_in(
        alloc,
        entities,
        EntityKind::Actor,
        Cap::Tag,
        "OutStream",
        none,
        1,
    )
}

/// The behaviour of the stream.
pub(crate) fn make_print(alloc: Global) -> Result<Method, AllocError>
    ensures { IfOk result (λ x. x ≡ print_method 1) }
{
    let mut params = List::new(alloc);
    params.push(ParamInfo {
        entity: STRING_ENTITY,
        cap: Cap::Val,
        span: NOWHERE,
    })?;
    Ok(Method {
        entity: OUT_STREAM_ENTITY,
        name: 1,
        kind: MethodKind::Be,
        receiver: Cap::Ref,
        params,
        result: (NONE_ENTITY, Form::Val),
        first_slot: 0,
        slots: 0,
        first_node: 0,
        body: None,
        span: NOWHERE,
    })
}
