//! The last stage of a source whose core must have a derivation: its annotation.
ghost use Rattle.pc_refusals.specs.Source.{Typing};
ghost use Rattle.pc_refusals.specs.Inner.Stages.{StageEnds};

use crate::core_faults::refuse_core;
use crate::source::Source;
use crate::stop::Stop;
use pc_ann::Ann;
use pc_check::check;
use std::alloc::Global;

/// A source that has passed all stages, with its core's valid annotation.
#[derive(Drop)]
pub struct Accepted {
    /// The source with its core.
    pub source: Source,
    /// The annotation of the core.
    pub ann: Ann,
}

/// The source with this name, with its core's annotation.
pub fn type_source(alloc: Global, name: &str, source: Source) -> Result<Accepted, Stop>
    ensures { StageEnds (Typing name.now source) result }
{
    match check(alloc, &source.core) {
        Ok(ann) => Ok(Accepted { source, ann }),
        Err(fault) => Err(refuse_core(alloc, name, &source, &fault)),
    }
}
