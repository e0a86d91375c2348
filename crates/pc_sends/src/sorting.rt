//! Numbers in ascending order.
ghost use Rattle.std.specs.Prelude.{IfOk};
ghost use Rattle.pc_base.specs.Lists.{Differ};
ghost use Rattle.pc_sends.specs.Growth.{Sorts};

use crate::found::Found;
use pc_base::List;
use std::alloc::{AllocError, Global};

/// The numbers that were found, in ascending order.
pub(crate) fn ascending(alloc: Global, found: &Found) -> Result<List<u32>, AllocError>
    requires { Differ found.now }
    ensures { IfOk result (λ numbers. Sorts found.now numbers) }
{
    let mut numbers = found.to_vec(alloc)?;
    numbers.sort_unstable();
    Ok(List::from_vec(numbers))
}
