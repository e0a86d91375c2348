//! Laws of the definitions. Each call does nothing, and its contract is the law.
ghost use Rattle.pc_core_relation.specs.Laws.{CoreStandsOrFault, MadeCoresStand, MemberFaultsAreFirst, MembersAreComputed, StandingCoresAreMade, StandingCoresAreOne, StandingHasNoFault, WhatIsNumberedIsPut, WhatIsPutIsNumbered};

use pc_file_spec::cores_are_one;

/// What is appended to some nodes is numbered in the whole list, and what is numbered in a list is what is appended to
/// the nodes before it.
pub fn nodes_are_numbered()
    ensures put { WhatIsPutIsNumbered }
    ensures numbered { WhatIsNumberedIsPut }
{}

/// An entity of a file whose names have no fault has one list of members by the relation, which has no bound on chains
/// of `is`, and it is the list that is computed with such a bound.
pub fn members_are_computed()
    ensures { MembersAreComputed }
{}

/// The core computed from a file, member by member, is its core.
pub fn made_cores_stand()
    ensures { MadeCoresStand }
{}

/// The core of a file is the one computed from it. So a file has at most one core.
pub fn standing_cores_are_made()
    ensures made { StandingCoresAreMade }
    ensures one { StandingCoresAreOne }
{}

/// A file whose names have no fault, and which has fewer than 2^32 texts, has a core or a fault of its members, and not
/// both.
pub fn core_stands_or_fault()
    ensures some { CoreStandsOrFault }
    ensures apart { StandingHasNoFault }
{
    cores_are_one();
}

/// The fault at which the making of a core stops is the first fault of the file's members.
pub fn member_faults_are_first()
    ensures { MemberFaultsAreFirst }
{}
