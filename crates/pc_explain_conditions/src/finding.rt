//! Why each rule for a node does not apply.
ghost use Rattle.std.specs.Prelude.{◌≡◌, IfOk};
ghost use Rattle.pc_explain_conditions.specs.Failing as spec;

use crate::asking::failing;
use crate::chosen::chosen;
use crate::condition::Condition;
use crate::reason::Reason;
use crate::site::Site;
use pc_ann::Rule;
use pc_base::List;
use pc_check::rules_for;
use std::alloc::{AllocError, Global};

// Why the rule does not apply, if it is considered.
fn failure(site: &Site, rule: Rule) -> Option<Condition>
    ensures { result ≡ spec.failure site.now.core.now site.now.slots.now site.now.children.now site.now.node.now (site.now.live, site.now.set) rule }
{
    if chosen(site, rule) {
        failing(site, rule)
    } else {
        None
    }
}

/// Why no rule applies to the node: of the rules for it, in order, each that is considered and has a condition that
/// does not hold, with the first such condition.
pub fn reasons(alloc: Global, site: &Site) -> Result<List<Reason>, AllocError>
    ensures { IfOk result (λ found. found ≡ spec.reasons site.now.core.now site.now.slots.now site.now.children.now site.now.node.now (site.now.live, site.now.set)) }
{
    let mut found = List::new(alloc);
    for rule in rules_for(&site.node.kind) {
        if let Some(condition) = failure(site, *rule) {
            found.push(Reason {
                rule: *rule,
                condition,
            })?;
        }
    }
    Ok(found)
}
