//! The laws of verdicts. Each call does nothing, and its contract is the law.
ghost use Rattle.pc_verdicts.specs.Free.{ElevenIsFree};
ghost use Rattle.pc_verdicts.specs.There.{ThereIsAVerdict};

use pc_regions::valid_is_safe;
use pc_top::{cores_of_sources_are_formed, verdict_is_one};
use pc_types::accepted_never_lacks;

/// There is a verdict on any words, whatever bytes their files have: tokens or a fault, a tree or a fault, a core or a
/// fault, a valid annotation or the reason why there is none, and what each command does with them.
pub fn there_is_a_verdict()
    ensures { ThereIsAVerdict }
{
    cores_of_sources_are_formed();
    accepted_never_lacks();
    valid_is_safe();
}

/// If the bytes of the command's files are known, and none of these files and no stream failed, the answer is that
/// verdict, or it is 11. So running out of memory is the only answer that words and files do not determine.
pub fn eleven_is_the_one_free_answer()
    ensures { ElevenIsFree }
{
    verdict_is_one();
}
