//! The nodes of names and texts on their own.
ghost use Rattle.pc_body_spec.specs.Fold as fold;
ghost use Rattle.std.specs.Prelude.{◌≡◌, ◌∷◌, [], Some, option_map, if◌then◌else◌};
ghost use Rattle.pc_core.specs.declared.nodes.NodeKind.TheVariants as kinds;
ghost use Rattle.pc_body_spec.specs.Fold.{put};
ghost use Rattle.pc_resolve.specs.Meanings.{meaning_view};
ghost use Rattle.pc_body_spec.specs.Bodies.{Meaning as Seen, resolve, type_meaning, slot_named as slot_in, constructor_named as constructor_in, number_of_text as text_in};
ghost use Rattle.pc_body_spec.specs.Bodies as spec;
ghost use Rattle.pc_body_spec.specs.Parts as parts;
ghost use Rattle.pc_emit.specs.Giving.{GivesNodes};
ghost use Rattle.pc_emit.specs.Closing.{name_closes};

use crate::nodes::{double, gap, leaf, single};
use crate::setting::Setting;
use crate::stop::EmitStop;
use pc_base::{List, SharedList, Span};
use pc_core::{Node, NodeKind};
use pc_resolve::{Constructors, Meaning, TypeMeaning, Visible, slot_of};
use pc_tree::Name;

/// Reading a bare name.
pub(crate) fn read_name(
    setting: &Setting,
    scope: &[Visible],
    nodes: &mut List<Node>,
    name: &Name,
) -> Result<u32, EmitStop>
    ensures { GivesNodes result nodes.new (put setting.now.number (spec.read_name setting.now.context.now name.now setting.now.depth (resolve setting.now.context.now scope.now name.now.text)) nodes.old) }
{
    match setting.context.resolve(scope, name.text.as_slice()) {
        Meaning::Local(slot) => leaf(setting, nodes, NodeKind::Local(slot), name.span),
        Meaning::Field => read_field(setting, nodes, name),
        Meaning::Method | Meaning::Nothing => gap(setting, nodes, name.span),
    }
}

// Reading a field of `this`.
fn read_field(setting: &Setting, nodes: &mut List<Node>, name: &Name) -> Result<u32, EmitStop>
    ensures { GivesNodes result nodes.new (put setting.now.number (spec.read_field setting.now.context.now name.now.span name.now setting.now.depth (spec.added_this name.now setting.now.depth)) nodes.old) }
{
    let this = leaf(setting, nodes, NodeKind::This, name.span)?;
    let kind = NodeKind::Field(setting.context.text_of(name.text.as_slice()));
    single(setting, nodes, kind, name.span, this)
}

/// Writing this value to a bare name, which has this meaning and is defined.
pub(crate) fn write_name(
    setting: &Setting,
    nodes: &mut List<Node>,
    span: Span,
    name: &Name,
    target: Option<Meaning>,
    value: u32,
) -> Result<u32, EmitStop>
    ensures { (w : Seen) → option_map meaning_view target ≡ Some w → GivesNodes result nodes.new (name_closes setting.now.context.now setting.now.number setting.now.depth span name.now w value nodes.old) }
{
    match target {
        Some(meaning) => write_meaning(setting, nodes, span, name, meaning, value),
        None => gap(setting, nodes, span),
    }
}

#[tactic(auto, unfolding(crate::specs::Closing::name_closes))]
fn write_meaning(
    setting: &Setting,
    nodes: &mut List<Node>,
    span: Span,
    name: &Name,
    meaning: Meaning,
    value: u32,
) -> Result<u32, EmitStop>
    ensures { GivesNodes result nodes.new (name_closes setting.now.context.now setting.now.number setting.now.depth span name.now (meaning_view meaning) value nodes.old) }
{
    match meaning {
        Meaning::Local(slot) => single(setting, nodes, NodeKind::Assign(slot), span, value),
        Meaning::Field | Meaning::Method | Meaning::Nothing => {
            write_field(setting, nodes, span, name, value)
        }
    }
}

/// Writing this value to a field of `this`, with this span.
pub(crate) fn write_field(
    setting: &Setting,
    nodes: &mut List<Node>,
    span: Span,
    name: &Name,
    value: u32,
) -> Result<u32, EmitStop>
    ensures { GivesNodes result nodes.new (fold.and_then (fold.push setting.now.number kinds.This name.now.span setting.now.depth [] nodes.old) (λ this. fold.push setting.now.number (kinds.SetField (text_in setting.now.context.now name.now.text)) span setting.now.depth (value ∷ this ∷ []))) }
{
    let this = leaf(setting, nodes, NodeKind::This, name.span)?;
    let kind = NodeKind::SetField(setting.context.text_of(name.text.as_slice()));
    double(setting, nodes, kind, span, value, this)
}

/// A text.
pub(crate) fn read_text(
    setting: &Setting,
    nodes: &mut List<Node>,
    bytes: &SharedList<u8>,
    span: Span,
) -> Result<u32, EmitStop>
    ensures { GivesNodes result nodes.new (put setting.now.number (spec.leaf (kinds.Text bytes.now) span setting.now.depth) nodes.old) }
{
    leaf(setting, nodes, NodeKind::Text(bytes.share()?), span)
}

/// A type name without suffixes.
pub(crate) fn read_type(
    setting: &Setting,
    nodes: &mut List<Node>,
    name: &Name,
) -> Result<u32, EmitStop>
    ensures { GivesNodes result nodes.new (put setting.now.number (spec.read_type name.now setting.now.depth (type_meaning setting.now.context.now name.now.text)) nodes.old) }
{
    match setting.context.type_meaning(name.text.as_slice()) {
        TypeMeaning::Primitive(entity) => {
            let kind = NodeKind::Prim(entity);
            leaf(setting, nodes, kind, name.span)
        }
        TypeMeaning::Created {
            actor,
            constructors,
        } => create(setting, nodes, name.span, actor, constructors),
        TypeMeaning::NoValue => gap(setting, nodes, name.span),
    }
}

// A new object by `create`, without arguments.
fn create(
    setting: &Setting,
    nodes: &mut List<Node>,
    span: Span,
    actor: bool,
    constructors: &Constructors,
) -> Result<u32, EmitStop>
    ensures { GivesNodes result nodes.new (put setting.now.number (spec.new_object_rose actor span setting.now.depth spec.no_roses (constructor_in constructors.now spec.create_name)) nodes.old) }
{
    match constructors.create() {
        Some(method) => leaf(setting, nodes, object_kind(actor, method), span),
        None => gap(setting, nodes, span),
    }
}

/// The kind of the node for a new object by this constructor: of an actor, or of a class.
pub(crate) fn object_kind(actor: bool, method: u32) -> NodeKind
    ensures { result ≡ if actor then kinds.Spawn method else kinds.New method }
{
    if actor {
        NodeKind::Spawn(method)
    } else {
        NodeKind::New(method)
    }
}

/// `consume` of a local or parameter.
pub(crate) fn consume(
    setting: &Setting,
    scope: &[Visible],
    nodes: &mut List<Node>,
    name: &Name,
    span: Span,
) -> Result<u32, EmitStop>
    ensures { GivesNodes result nodes.new (put setting.now.number (parts.consumed span setting.now.depth (slot_in scope.now name.now.text)) nodes.old) }
{
    match slot_of(scope, name.text.as_slice()) {
        Some(slot) => leaf(setting, nodes, NodeKind::Consume(slot), span),
        None => gap(setting, nodes, span),
    }
}
