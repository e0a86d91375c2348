//! How a chain of suffixes starts, and what its suffixes are used for.
ghost use Rattle.std.specs.Prelude.{◌≡◌, ◌<◌, ◌≤◌, ◌^◌, length, map, drop, option_map, slice_get, Some, if◌then◌else◌};
ghost use Rattle.pc_emit.specs.declared.chains.Beginning.TheVariants as beginnings;
ghost use Rattle.pc_tree.specs.Tree as t;
ghost use Rattle.pc_tree.specs.View.{expr_view, suffix_view};
ghost use Rattle.pc_resolve.specs.Meanings.{meaning_view};
ghost use Rattle.pc_body_spec.specs.Bodies.{chain_start, start_with_name, with_type, with_method, Scope, resolve, type_meaning, created, primitive, constructor_named as constructor_in};
ghost use Rattle.pc_body_spec.specs.Fold.{put};
ghost use Rattle.pc_emit.specs.Giving.{GivesNodes};
ghost use Rattle.pc_emit.specs.Closing as spec;
ghost use Rattle.pc_emit.specs.Closing.{BeginsChain, IsCut, IsBefore, IsSplit, ReadsAtom, taken};

use crate::name_nodes::object_kind;
use crate::nodes::{leaf, single};
use crate::setting::Setting;
use crate::stop::EmitStop;
use pc_base::{List, Span};
use pc_core::{Node, NodeKind};
use pc_resolve::{Constructors, Context, Meaning, TypeMeaning, Visible};
use pc_tree::{Expr, Name, Suffix};

/// What the first arguments of a chain make, together with the atom and the suffixes before them.
#[derive(Drop)]
pub(crate) enum First {
    /// A node of this kind, whose children are the arguments: a new object, or the value of a primitive.
    Made(NodeKind),
    /// A call of the method with this text on `this`, which has this span.
    OnThis(u32, Span),
    /// The node of a missing constructor.
    Missing,
}

/// How a chain starts.
#[derive(Drop)]
pub(crate) enum Beginning {
    /// With the value of the atom.
    Value,
    /// With what the arguments at this place among the suffixes make.
    With(First, usize),
}

/// What the atom of a chain reads.
#[derive(Clone, Copy)]
pub(crate) enum Reading {
    /// A local or parameter, by the index of its slot.
    Local(u32),
    /// A field of `this`, by the number of its text.
    Field(u32),
    /// The value of a primitive, by the entity's number.
    Primitive(u32),
}

/// The atom of a chain.
#[derive(Clone, Copy)]
pub(crate) enum Atom {
    /// It reads this.
    Reads(Reading),
    /// It is walked.
    Walked,
}

/// How many suffixes belong to the start.
pub(crate) fn count_taken(beginning: &Beginning) -> usize
    requires { taken beginning.now < 2 ^ 64 }
    ensures { result ≡ taken beginning.now }
{
    match beginning {
        Beginning::Value => 0,
        Beginning::With(_, at) => *at + 1,
    }
}

/// How a chain with this atom and these suffixes starts, and what the atom reads, so that its name is looked up once.
pub(crate) fn begin(
    context: &Context,
    scope: &[Visible],
    head: &Expr,
    suffixes: &[Suffix],
) -> (Beginning, Atom)
    ensures begins { BeginsChain context.now (chain_start context.now scope.now (expr_view head.now)) (map suffix_view suffixes.now) result.0 }
    ensures reads { ReadsAtom context.now scope.now (expr_view head.now) result.1 }
    ensures within { taken result.0 ≤ length suffixes.now }
{
    match head {
        Expr::Name(name) => begin_with_name(context, scope, name, suffixes),
        Expr::TypeName(name) => begin_with_type(context, name, suffixes),
        Expr::Number { .. }
        | Expr::Truth { .. }
        | Expr::Text { .. }
        | Expr::This(_)
        | Expr::Consume { .. }
        | Expr::Not { .. }
        | Expr::Infix { .. }
        | Expr::Chain { .. }
        | Expr::Group { .. }
        | Expr::If { .. }
        | Expr::While { .. }
        | Expr::Recover { .. }
        | Expr::Assign { .. } => (Beginning::Value, Atom::Walked),
    }
}

// With a bare name, which may be that of a method.
fn begin_with_name(
    context: &Context,
    scope: &[Visible],
    name: &Name,
    suffixes: &[Suffix],
) -> (Beginning, Atom)
    ensures begins { BeginsChain context.now (start_with_name name.now (resolve context.now scope.now name.now.text)) (map suffix_view suffixes.now) result.0 }
    ensures reads { ReadsAtom context.now scope.now (t.name name.now) result.1 }
    ensures within { taken result.0 ≤ length suffixes.now }
{
    match context.resolve(scope, name.text.as_slice()) {
        Meaning::Local(slot) => (Beginning::Value, Atom::Reads(Reading::Local(slot))),
        Meaning::Field => {
            let text = context.text_of(name.text.as_slice());
            (Beginning::Value, Atom::Reads(Reading::Field(text)))
        }
        Meaning::Method => (begin_with_method(context, name, suffixes), Atom::Walked),
        Meaning::Nothing => (Beginning::Value, Atom::Walked),
    }
}

// With the bare name of a method, which is called if arguments follow it.
fn begin_with_method(context: &Context, name: &Name, suffixes: &[Suffix]) -> Beginning
    ensures begins { BeginsChain context.now (with_method name.now) (map suffix_view suffixes.now) result }
    ensures within { taken result ≤ length suffixes.now }
{
    if has_args(suffixes, 0) {
        let text = context.text_of(name.text.as_slice());
        Beginning::With(First::OnThis(text, name.span), 0)
    } else {
        Beginning::Value
    }
}

// With a type name.
fn begin_with_type(context: &Context, name: &Name, suffixes: &[Suffix]) -> (Beginning, Atom)
    ensures begins { BeginsChain context.now (with_type (type_meaning context.now name.now.text)) (map suffix_view suffixes.now) result.0 }
    ensures reads { (scope : Scope) → ReadsAtom context.now scope (t.type_name name.now) result.1 }
    ensures within { taken result.0 ≤ length suffixes.now }
{
    match context.type_meaning(name.text.as_slice()) {
        TypeMeaning::Primitive(entity) => {
            let beginning = begin_with_primitive(context, entity, suffixes);
            (beginning, Atom::Reads(Reading::Primitive(entity)))
        }
        TypeMeaning::Created {
            actor,
            constructors,
        } => {
            let beginning = begin_with_object(context, actor, constructors, suffixes);
            (beginning, Atom::Walked)
        }
        TypeMeaning::NoValue => (Beginning::Value, Atom::Walked),
    }
}

// With a primitive's value, whose name may be followed by `()`.
fn begin_with_primitive(context: &Context, entity: u32, suffixes: &[Suffix]) -> Beginning
    ensures begins { BeginsChain context.now (with_type (primitive entity)) (map suffix_view suffixes.now) result }
    ensures within { taken result ≤ length suffixes.now }
{
    if has_no_arguments(suffixes) {
        Beginning::With(First::Made(NodeKind::Prim(entity)), 0)
    } else {
        Beginning::Value
    }
}

// With the name of a class or an actor, which calls a constructor if it is followed by arguments, or by a name and
// arguments.
fn begin_with_object(
    context: &Context,
    actor: bool,
    constructors: &Constructors,
    suffixes: &[Suffix],
) -> Beginning
    ensures begins { BeginsChain context.now (with_type (created actor constructors.now)) (map suffix_view suffixes.now) result }
    ensures within { taken result ≤ length suffixes.now }
{
    let Some(first) = suffixes.first() else {
        return Beginning::Value;
    };
    match first {
        Suffix::Args { .. } => begin_object(actor, constructors.create(), 0),
        Suffix::Dot(name) => begin_behind_name(actor, constructors, name, suffixes),
    }
}

// With the name of a class or an actor, followed by the name of a constructor, if arguments follow.
fn begin_behind_name(
    actor: bool,
    constructors: &Constructors,
    name: &Name,
    suffixes: &[Suffix],
) -> Beginning
    ensures { result ≡ if spec.is_args (slice_get (map suffix_view suffixes.now) 1) then spec.object actor (constructor_in constructors.now name.now.text) 1 else beginnings.Value }
{
    if has_args(suffixes, 1) {
        begin_object(actor, constructors.find(name.text.as_slice()), 1)
    } else {
        Beginning::Value
    }
}

// Whether the suffix at this place is a list of arguments.
fn has_args(suffixes: &[Suffix], at: usize) -> bool
    ensures { result ≡ spec.is_args (slice_get (map suffix_view suffixes.now) at) }
{
    match suffixes.get(at) {
        Some(suffix) => is_args(suffix),
        None => false,
    }
}

fn is_args(suffix: &Suffix) -> bool
    ensures { result ≡ spec.is_args (Some (suffix_view suffix.now)) }
{
    match suffix {
        Suffix::Dot(_) => false,
        Suffix::Args { .. } => true,
    }
}

// Whether the first suffix is `()`.
fn has_no_arguments(suffixes: &[Suffix]) -> bool
    ensures { result ≡ spec.is_empty_args (slice_get (map suffix_view suffixes.now) 0) }
{
    match suffixes.first() {
        Some(suffix) => is_empty_args(suffix),
        None => false,
    }
}

fn is_empty_args(suffix: &Suffix) -> bool
    ensures { result ≡ spec.is_empty_args (Some (suffix_view suffix.now)) }
{
    match suffix {
        Suffix::Dot(_) => false,
        Suffix::Args { args, .. } => args.is_empty(),
    }
}

// With a new object by this constructor, if there is one.
fn begin_object(actor: bool, constructor: Option<u32>, at: usize) -> Beginning
    ensures { result ≡ spec.object actor constructor at }
{
    match constructor {
        Some(method) => Beginning::With(First::Made(object_kind(actor, method)), at),
        None => Beginning::With(First::Missing, at),
    }
}

/// Emits the nodes of the atom of a chain, which has this span.
pub(crate) fn read_atom(
    setting: &Setting,
    nodes: &mut List<Node>,
    reading: Reading,
    span: Span,
) -> Result<u32, EmitStop>
    ensures { GivesNodes result nodes.new (put setting.now.number (spec.reading_rose reading span setting.now.depth) nodes.old) }
{
    match reading {
        Reading::Local(slot) => leaf(setting, nodes, NodeKind::Local(slot), span),
        Reading::Field(text) => {
            let this = leaf(setting, nodes, NodeKind::This, span)?;
            single(setting, nodes, NodeKind::Field(text), span, this)
        }
        Reading::Primitive(entity) => leaf(setting, nodes, NodeKind::Prim(entity), span),
    }
}

/// The suffixes from this place on.
pub(crate) fn behind(suffixes: &[Suffix], first: usize) -> &[Suffix]
    requires { first ≤ length suffixes.now }
    ensures { result.now ≡ drop first suffixes.now }
{
    &suffixes[first..]
}

/// The number of the text that the last of the first `left` suffixes uses, and how many suffixes come before it: a name
/// directly followed by arguments is one call.
pub(crate) fn cut(context: &Context, suffixes: &[Suffix], left: usize) -> (u32, usize)
    requires some { 0 < left }
    requires within { left ≤ length suffixes.now }
    ensures less { result.1 < left }
    ensures cut { IsCut context.now (map suffix_view suffixes.now) left result.0 result.1 }
{
    match &suffixes[left - 1] {
        Suffix::Dot(name) => (context.text_of(name.text.as_slice()), left - 1),
        Suffix::Args { .. } => cut_args(context, suffixes, left - 1),
    }
}

// The number of the text that arguments after the first `left` suffixes use, and how many suffixes come before them.
fn cut_args(context: &Context, suffixes: &[Suffix], left: usize) -> (u32, usize)
    requires within { left ≤ length suffixes.now }
    ensures less { result.1 ≤ left }
    ensures cut { IsBefore context.now (map suffix_view suffixes.now) left result.0 result.1 }
{
    if left == 0 {
        return (context.apply(), 0);
    }
    match &suffixes[left - 1] {
        Suffix::Dot(name) => (context.text_of(name.text.as_slice()), left - 1),
        Suffix::Args { .. } => (context.apply(), left),
    }
}

/// The number of the text of the field with which a chain ends, and how many suffixes come before it; or the number of
/// all suffixes if it ends in another way.
pub(crate) fn split_field(context: &Context, suffixes: &[Suffix]) -> (Option<u32>, usize)
    ensures within { result.1 ≤ length suffixes.now }
    ensures split { IsSplit context.now (map suffix_view suffixes.now) result.0 result.1 }
{
    let count = suffixes.len();
    if count == 0 {
        return (None, 0);
    }
    match &suffixes[count - 1] {
        Suffix::Dot(name) => (Some(context.text_of(name.text.as_slice())), count - 1),
        Suffix::Args { .. } => (None, count),
    }
}

/// The meaning of the target of an assignment, if it is a bare name.
pub(crate) fn target_of(context: &Context, scope: &[Visible], left: &Expr) -> Option<Meaning>
    ensures { option_map meaning_view result ≡ spec.target_meaning context.now scope.now (expr_view left.now) }
{
    match left {
        Expr::Name(name) => Some(context.resolve(scope, name.text.as_slice())),
        Expr::Number { .. }
        | Expr::Truth { .. }
        | Expr::Text { .. }
        | Expr::TypeName(_)
        | Expr::This(_)
        | Expr::Consume { .. }
        | Expr::Not { .. }
        | Expr::Infix { .. }
        | Expr::Chain { .. }
        | Expr::Group { .. }
        | Expr::If { .. }
        | Expr::While { .. }
        | Expr::Recover { .. }
        | Expr::Assign { .. } => None,
    }
}

/// Whether a target with this meaning is a bare name that is no local, parameter or field.
pub(crate) fn is_missing(target: Option<Meaning>) -> bool
    ensures { result ≡ spec.none_named (option_map meaning_view target) }
{
    match target {
        Some(meaning) => names_none(meaning),
        None => false,
    }
}

fn names_none(meaning: Meaning) -> bool
    ensures { result ≡ spec.names_none (meaning_view meaning) }
{
    matches!(meaning, Meaning::Method | Meaning::Nothing)
}
