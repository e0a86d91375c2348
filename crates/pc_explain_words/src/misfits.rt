//! Why a method cannot replace another.
ghost use Rattle.std.specs.Prelude.{◌≡◌, ◌++◌, OnOk};
ghost use Rattle.std.specs.Option.{option_copied};
ghost use Rattle.pc_explain_words.specs.Misfits as spec;

use crate::caps::{cap_word, form_word};
use crate::chains::is_chain;
use crate::forms::{entity_name, push_entity, push_with_article};
use crate::scene::Scene;
use pc_caps::{below, fits, unalias};
use pc_core::{Core, Method, ParamInfo};
use pc_explain_window::{piece_of, push_bytes, push_number, push_quoted};
use std::alloc::{AllocError, Global};

/// What does not fit about a method that is to replace another.
#[derive(Clone, Copy, Debug, PartialEq, Eq)]
pub enum Misfit {
    /// The capability of its receiver.
    Receiver,
    /// The number of its parameters.
    Count,
    /// The entity of the parameter with this index.
    ParameterEntity(usize),
    /// The capability of that parameter.
    ParameterCap(usize),
    /// The entity of its result.
    ResultEntity,
    /// The form of its result.
    ResultForm,
}

// What does not fit about the parameter with this index.
fn param_misfit(core: &Core, index: usize, wanted: ParamInfo, given: ParamInfo) -> Option<Misfit>
    ensures { result ≡ spec.param_misfit core.now index wanted given }
{
    if !is_chain(core, wanted.entity, given.entity) {
        return Some(Misfit::ParameterEntity(index));
    }
    if !fits(unalias(wanted.cap), given.cap) {
        return Some(Misfit::ParameterCap(index));
    }
    None
}

// The first thing about the parameters that does not fit.
fn params_misfit(core: &Core, wanted: &[ParamInfo], given: &[ParamInfo]) -> Option<Misfit>
    ensures { result ≡ spec.params_misfit core.now 0 wanted.now given.now }
{
    let mut left = given;
    let mut index = 0;
    for param in wanted {
        match left {
            [] => return None,
            [first, others @ ..] => {
                let misfit = param_misfit(core, index, *param, *first);
                if misfit.is_some() {
                    return misfit;
                }
                left = others;
            }
        }
        index += 1;
    }
    None
}

// What does not fit about the result.
fn result_misfit(core: &Core, wanted: &Method, given: &Method) -> Option<Misfit>
    ensures { result ≡ spec.result_misfit core.now wanted.now given.now }
{
    if !is_chain(core, given.result.0, wanted.result.0) {
        return Some(Misfit::ResultEntity);
    }
    if !below(given.result.1, wanted.result.1) {
        return Some(Misfit::ResultForm);
    }
    None
}

// What does not fit about the parameters, their number first, and about the result.
fn count_misfit(core: &Core, wanted: &Method, given: &Method) -> Option<Misfit>
    ensures { result ≡ spec.count_misfit core.now wanted.now given.now }
{
    if wanted.params.len() != given.params.len() {
        return Some(Misfit::Count);
    }
    let misfit = params_misfit(core, wanted.params.as_slice(), given.params.as_slice());
    if misfit.is_some() {
        return misfit;
    }
    result_misfit(core, wanted, given)
}

/// The first thing that does not fit about a method that is to replace another: its receiver, the number of its
/// parameters, the parameters in order, or its result. `None` iff it can replace the other.
pub fn first_misfit(core: &Core, wanted: &Method, given: &Method) -> Option<Misfit>
    ensures { result ≡ spec.first_misfit core.now wanted.now given.now }
{
    if fits(unalias(wanted.receiver), given.receiver) {
        count_misfit(core, wanted, given)
    } else {
        Some(Misfit::Receiver)
    }
}

// Appends that the receivers do not fit.
#[tactic(auto, unfolding(crate::specs::Misfits::receiver_misfit))]
fn push_receiver(out: &mut Vec<u8>, wanted: &Method, given: &Method) -> Result<(), AllocError>
    ensures { OnOk result (out.new.items ≡ out.old.items ++ spec.receiver_misfit wanted.now given.now) }
{
    push_bytes(out, b"its receiver must take ")?;
    push_bytes(out, cap_word(wanted.receiver))?;
    push_bytes(out, b", and ")?;
    push_bytes(out, cap_word(given.receiver))?;
    push_bytes(out, b" does not")
}

// `parameter` or `parameters`.
fn plural(count: usize) -> &'static [u8]
    ensures { result.now ≡ spec.plural count }
{
    if count == 1 {
        b" parameter, and must take "
    } else {
        b" parameters, and must take "
    }
}

// Appends how many parameters there are and should be.
#[tactic(auto, unfolding(crate::specs::Misfits::count_words))]
fn push_count(
    alloc: Global,
    out: &mut Vec<u8>,
    wanted: usize,
    given: usize,
) -> Result<(), AllocError>
    ensures { OnOk result (out.new.items ≡ out.old.items ++ spec.count_words wanted given) }
{
    push_bytes(out, b"it takes ")?;
    push_number(alloc, out, given as u64)?;
    push_bytes(out, plural(given))?;
    push_number(alloc, out, wanted as u64)
}

// Appends which parameter it is.
#[tactic(auto, unfolding(crate::specs::Misfits::param_head))]
fn push_param_head(
    alloc: Global,
    out: &mut Vec<u8>,
    scene: &Scene,
    given: ParamInfo,
) -> Result<(), AllocError>
    ensures { OnOk result (out.new.items ≡ out.old.items ++ spec.param_head scene.now given) }
{
    push_bytes(out, b"its parameter ")?;
    push_quoted(alloc, out, piece_of(scene.bytes(), given.span))?;
    push_bytes(out, b" is ")
}

// Appends that the entities of a parameter do not fit.
#[tactic(auto, unfolding(crate::specs::Misfits::param_entity))]
fn push_param_entity(
    alloc: Global,
    out: &mut Vec<u8>,
    scene: &Scene,
    wanted: ParamInfo,
    given: ParamInfo,
) -> Result<(), AllocError>
    ensures { OnOk result (out.new.items ≡ out.old.items ++ spec.param_entity scene.now wanted given) }
{
    push_param_head(alloc, out, scene, given)?;
    push_with_article(alloc, out, entity_name(scene.core(), given.entity))?;
    push_bytes(out, b", and must take ")?;
    push_with_article(alloc, out, entity_name(scene.core(), wanted.entity))
}

// Appends that the capabilities of a parameter do not fit.
#[tactic(auto, unfolding(crate::specs::Misfits::param_cap))]
fn push_param_cap(
    alloc: Global,
    out: &mut Vec<u8>,
    scene: &Scene,
    wanted: ParamInfo,
    given: ParamInfo,
) -> Result<(), AllocError>
    ensures { OnOk result (out.new.items ≡ out.old.items ++ spec.param_cap scene.now wanted given) }
{
    push_param_head(alloc, out, scene, given)?;
    push_bytes(out, cap_word(given.cap))?;
    push_bytes(out, b", and must take ")?;
    push_bytes(out, form_word(unalias(wanted.cap)))
}

// Appends what does not fit about the parameter with this index: its entity, or its capability.
fn push_param(
    alloc: Global,
    out: &mut Vec<u8>,
    scene: &Scene,
    wanted: Option<&ParamInfo>,
    given: Option<&ParamInfo>,
    by_entity: bool,
) -> Result<(), AllocError>
    ensures { OnOk result
        (out.new.items ≡ out.old.items ++ spec.param_misfit_words scene.now by_entity (option_copied wanted.entry) (option_copied given.entry)) }
{
    match (wanted, given) {
        (Some(wanted), Some(given)) => {
            if by_entity {
                push_param_entity(alloc, out, scene, *wanted, *given)
            } else {
                push_param_cap(alloc, out, scene, *wanted, *given)
            }
        }
        (None, _) | (Some(_), None) => Ok(()),
    }
}

// Appends that the entities of the results do not fit.
#[tactic(auto, unfolding(crate::specs::Misfits::result_entity))]
fn push_result_entity(
    alloc: Global,
    out: &mut Vec<u8>,
    core: &Core,
    wanted: &Method,
    given: &Method,
) -> Result<(), AllocError>
    ensures { OnOk result (out.new.items ≡ out.old.items ++ spec.result_entity core.now wanted.now given.now) }
{
    push_bytes(out, b"it gives ")?;
    push_with_article(alloc, out, entity_name(core, given.result.0))?;
    push_bytes(out, b", which is no ")?;
    push_entity(alloc, out, core, wanted.result.0)
}

// Appends that the forms of the results do not fit.
#[tactic(auto, unfolding(crate::specs::Misfits::result_form_misfit))]
fn push_result_form(out: &mut Vec<u8>, wanted: &Method, given: &Method) -> Result<(), AllocError>
    ensures { OnOk result (out.new.items ≡ out.old.items ++ spec.result_form_misfit wanted.now given.now) }
{
    push_bytes(out, b"it gives ")?;
    push_bytes(out, form_word(given.result.1))?;
    push_bytes(out, b", which is not below ")?;
    push_bytes(out, form_word(wanted.result.1))
}

/// Appends what does not fit about a method that is to replace another, if anything.
#[tactic(auto, unfolding(crate::specs::Misfits::misfit))]
pub fn push_misfit(
    alloc: Global,
    out: &mut Vec<u8>,
    scene: &Scene,
    wanted: &Method,
    given: &Method,
    misfit: Option<Misfit>,
) -> Result<(), AllocError>
    ensures { OnOk result (out.new.items ≡ out.old.items ++ spec.misfit scene.now wanted.now given.now misfit) }
{
    match misfit {
        None => Ok(()),
        Some(Misfit::Receiver) => push_receiver(out, wanted, given),
        Some(Misfit::Count) => push_count(alloc, out, wanted.params.len(), given.params.len()),
        Some(Misfit::ParameterEntity(index)) => push_param(
            alloc,
            out,
            scene,
            wanted.params.get(index),
            given.params.get(index),
            true,
        ),
        Some(Misfit::ParameterCap(index)) => push_param(
            alloc,
            out,
            scene,
            wanted.params.get(index),
            given.params.get(index),
            false,
        ),
        Some(Misfit::ResultEntity) => {
            push_result_entity(alloc, out, scene.core(), wanted, given)
        }
        Some(Misfit::ResultForm) => push_result_form(out, wanted, given),
    }
}
