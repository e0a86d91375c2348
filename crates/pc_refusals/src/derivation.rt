//! A derivation: read in parts and judged as they come, or read whole.
ghost use Rattle.std.specs.Prelude.{◌≡◌, ◌≤◌, ℕ, List as Sequence, IfOk};
ghost use Rattle.pc_deriv.specs.Laws.{as_read};
ghost use Rattle.pc_deriv.specs.Text.{derivation_limit};
ghost use Rattle.pc_refusals.specs.Derivation.{DerivationStage, Deriving, Judging, in_parts, judge_line, text_line, text_status};
ghost use Rattle.pc_refusals.specs.Inner.Derivations.{DerivationJudged, FileAsks};
ghost use Rattle.pc_refusals.specs.Inner.Refusals.{IsDerivationStop, IsRefusal, IsTextStop};
ghost use Rattle.pc_refusals.specs.Inner.Stages.{PartEnds, StageEnds};
ghost use Rattle.pc_refusals.specs.Verdict.{file_at};

use crate::core_faults::{declaration_offset, declaration_text};
use crate::lines::{
    make_bad_line, make_longer_line, make_many_line, make_node_line, make_shape_line,
    make_slot_line, make_unset_line,
};
use crate::reading::read_file;
use crate::refusal::{make_offset_line, refuse};
use crate::source::Source;
use crate::stop::Stop;
use pc_ann::Ann;
use pc_deriv::{DerivFault, LineFault, read};
use pc_feed::{DERIVATION_LIMIT, DerivationFault, judge_file, valid_asks_all};
use pc_io::{Bytes, Files};
use pc_judge::{JudgeFault, judge};
use pc_referee::Referee;
use std::alloc::{AllocError, Global};

// The line of the first fault of the derivation with this name.
fn make_fault_line(
    alloc: Global,
    source_name: &str,
    name: &str,
    source: &Source,
    fault: JudgeFault,
) -> Result<Bytes, AllocError>
    ensures { IfOk result (λ line. line ≡ judge_line source_name.now name.now source.now fault) }
{
    match fault {
        JudgeFault::Decl(fault) => make_offset_line(
            alloc,
            source_name,
            source.bytes.as_slice(),
            declaration_offset(&source.core, fault),
            declaration_text(fault),
        ),
        JudgeFault::Shape => make_shape_line(alloc, name),
        JudgeFault::Slot(number) => make_slot_line(alloc, name, number),
        JudgeFault::Node(number) => make_node_line(alloc, name, number),
        JudgeFault::Unset(number) => make_unset_line(alloc, name, number),
    }
}

// The refusal of bytes that are not the text of a derivation.
fn refuse_text(alloc: Global, name: &str, fault: LineFault) -> Stop
    ensures { IsRefusal (text_status (as_read fault)) (text_line name.now (as_read fault)) result }
{
    match fault {
        LineFault::BadLine(number) => refuse(5, make_bad_line(alloc, name, number)),
        LineFault::TooMany => refuse(8, make_many_line(alloc, name)),
    }
}

// Why the derivation with this name is not accepted.
fn refuse_derivation(
    alloc: Global,
    source_name: &str,
    name: &str,
    source: &Source,
    fault: DerivationFault,
) -> Stop
    ensures { IsDerivationStop source_name.now name.now source.now fault result }
{
    match fault {
        DerivationFault::Failed => match Bytes::copy_of(alloc, name.as_bytes()) {
            Ok(name) => Stop::File { name },
            Err(_) => Stop::Memory,
        },
        DerivationFault::TooLong => refuse(8, make_longer_line(alloc, name, DERIVATION_LIMIT)),
        DerivationFault::Text(fault) => refuse_text(alloc, name, fault),
        DerivationFault::Invalid(fault) => {
            refuse(6, make_fault_line(alloc, source_name, name, source, fault))
        }
        DerivationFault::Memory => Stop::Memory,
    }
}

/// Reads the derivation with this name part by part, and judges it for the source. Each of its nodes is decided by
/// asking the referee.
pub fn judge_derivation<F: Files, R: Referee>(
    alloc: Global,
    files: &mut F,
    source_name: &str,
    name: &str,
    source: &Source,
    referee: &mut R,
) -> Result<(), Stop>
    ensures later { (n : Sequence ℕ) → F.faults files.old n ≤ F.faults files.new n }
    ensures same { (n : Sequence ℕ) → F.bytes files.new n ≡ F.bytes files.old n }
    ensures ends { DerivationJudged source_name.now source.now
        (in_parts (file_at (F.bytes files.old) (F.faults files.old) (F.faults files.new) (F.taken files.new) name.now)) result }
    ensures asks { FileAsks source.now.core (F.bytes files.old name.now) (R.asked referee.old) (R.asked referee.new) result }
{
    source.core.formed();
    valid_asks_all();
    match judge_file(alloc, files, name, &source.core, referee) {
        Ok(()) => Ok(()),
        Err(fault) => Err(refuse_derivation(alloc, source_name, name, source, fault)),
    }
}

/// Reads the derivation with this name whole and takes it through its stages.
pub fn read_derivation<F: Files>(alloc: Global, files: &mut F, name: &str) -> Result<Ann, Stop>
    ensures later { (n : Sequence ℕ) → F.faults files.old n ≤ F.faults files.new n }
    ensures same { (n : Sequence ℕ) → F.bytes files.new n ≡ F.bytes files.old n }
    ensures stage { PartEnds derivation_limit (DerivationStage name.now)
        (file_at (F.bytes files.old) (F.faults files.old) (F.faults files.new) (F.taken files.new) name.now) result }
{
    let bytes = read_file(alloc, files, name, DERIVATION_LIMIT)?;
    read_annotation(alloc, name, bytes.as_slice())
}

// The annotation of these bytes of the derivation with this name.
fn read_annotation(alloc: Global, name: &str, bytes: &[u8]) -> Result<Ann, Stop>
    ensures { StageEnds (Deriving name.now bytes.now) result }
{
    match read(alloc, bytes) {
        Ok(ann) => Ok(ann),
        Err(fault) => Err(refuse_bytes(alloc, name, fault)),
    }
}

// The refusal of bytes that have this fault.
fn refuse_bytes(alloc: Global, name: &str, fault: DerivFault) -> Stop
    ensures { IsTextStop name.now fault result }
{
    match fault {
        DerivFault::BadLine(number) => refuse_text(alloc, name, LineFault::BadLine(number)),
        DerivFault::TooMany => refuse_text(alloc, name, LineFault::TooMany),
        DerivFault::Memory => Stop::Memory,
    }
}

/// Judges the annotation that was read from the derivation with this name.
pub fn judge_annotation(
    alloc: Global,
    source_name: &str,
    name: &str,
    source: &Source,
    ann: &Ann,
) -> Result<(), Stop>
    ensures { StageEnds (Judging source_name.now name.now source.now ann.now) result }
{
    match judge(&source.core, ann) {
        Ok(()) => Ok(()),
        Err(fault) => Err(Stop::Refused {
            status: 6,
            line: make_fault_line(alloc, source_name, name, source, fault)?,
        }),
    }
}
