//! A core as one value.
ghost use Rattle.std.specs.Prelude.{◌≡◌, ◌+◌, slice_get};
ghost use Rattle.std.specs.Option.{option_copied};
ghost use Rattle.pc_core.specs.Formed.{Formed};

use crate::declarations::{EntityDef, Method};
use crate::entity_set::EntitySet;
use crate::index::MethodIndex;
use crate::nodes::{Node, Slot};
use pc_base::List;
use std::alloc::{AllocError, Global};
use std::marker::Model;

/// A program whose parts fit together: `Formed`, in this crate's definitions, states how, and holds for every core.
#[derive(Debug, Drop)]
pub struct Core {
    entities: List<EntityDef>,
    methods: List<Method>,
    slots: List<Slot>,
    nodes: List<Node>,
    names: List<List<u8>>,
    // If there is an index, it is that of all the methods.
    pub(crate) index: Option<MethodIndex>,
    // If there is a table of what conforms to what, it is right.
    pub(crate) conforming: Option<List<EntitySet>>,
}

impl Model for Core {
    ghost use Rattle.pc_core.specs.CoreData.{CoreData};
    ghost use Rattle.pc_core.specs.Parts.{data_of};
    ghost use Rattle.pc_core.specs.Whole.{IsWhole};

    ghost Value = { CoreData };

    ghost view = { λ a. record { entities = a.entities; methods = a.methods; slots = a.slots; nodes = a.nodes; names = a.names } };

    ghost invariant = { λ a. IsWhole (data_of a.entities a.methods a.slots a.nodes a.names) a.index a.conforming };
}

impl Core {
    /// The core with these parts. This is the only way to make a core.
    pub fn from_parts(
        entities: List<EntityDef>,
        methods: List<Method>,
        slots: List<Slot>,
        nodes: List<Node>,
        names: List<List<u8>>,
    ) -> Core
        requires { Formed (record { entities = entities; methods = methods; slots = slots; nodes = nodes; names = names }) }
        ensures { result ≡ record { entities = entities; methods = methods; slots = slots; nodes = nodes; names = names } }
    {
        Core {
            entities,
            methods,
            slots,
            nodes,
            names,
            index: None,
            conforming: None,
        }
    }

    /// Makes the index by which later calls of `method` take a time that does not grow with the number of methods. It
    /// allocates. In contracts the core is unchanged, and an `Err` leaves it as it was.
    pub fn index_methods(&mut self, alloc: Global) -> Result<(), AllocError>
        ensures { self.new ≡ self.old }
    {
        self.formed();
        self.index = MethodIndex::of(self.methods.as_slice(), alloc)?;
        Ok(())
    }

    /// The entities: 0 None, 1 U64, 2 Bool, 3 String, 4 Env, 5 OutStream, and then the file's.
    pub fn entities(&self) -> &[EntityDef]
        ensures { result.now ≡ self.now.entities }
    {
        self.entities.as_slice()
    }

    /// The methods: 0 is `print` of OutStream, followed by those of the file's entities.
    pub fn methods(&self) -> &[Method]
        ensures { result.now ≡ self.now.methods }
    {
        self.methods.as_slice()
    }

    /// The slots, method by method.
    pub fn slots(&self) -> &[Slot]
        ensures { result.now ≡ self.now.slots }
    {
        self.slots.as_slice()
    }

    /// The nodes, method by method, each after its children.
    pub fn nodes(&self) -> &[Node]
        ensures { result.now ≡ self.now.nodes }
    {
        self.nodes.as_slice()
    }

    /// The texts of the names of fields and methods.
    pub fn names(&self) -> &[List<u8>]
        ensures { result.now ≡ self.now.names }
    {
        self.names.as_slice()
    }

    /// The entity with this number. `None` iff there is none, as for the next four.
    pub fn entity_at(&self, entity: u32) -> Option<&EntityDef>
        ensures { option_copied result ≡ slice_get self.now.entities entity }
    {
        self.entities.get(entity as usize)
    }

    /// The method with this number.
    pub fn method_at(&self, method: u32) -> Option<&Method>
        ensures { option_copied result ≡ slice_get self.now.methods method }
    {
        self.methods.get(method as usize)
    }

    /// The slot with this index, counted from the method's first slot: an index past its last slot gives a slot of a
    /// later method. `None` iff the core has no such slot.
    pub fn slot_at(&self, method: &Method, slot: u32) -> Option<&Slot>
        ensures { option_copied result ≡ slice_get self.now.slots (method.now.first_slot + slot) }
    {
        self.slots.get(method.first_slot as usize + slot as usize)
    }

    /// The node with this number.
    pub fn node_at(&self, node: u32) -> Option<&Node>
        ensures { option_copied result ≡ slice_get self.now.nodes node }
    {
        self.nodes.get(node as usize)
    }

    /// The text with this number.
    pub fn name_at(&self, name: u32) -> Option<&List<u8>>
        ensures { option_copied result ≡ slice_get self.now.names name }
    {
        self.names.get(name as usize)
    }

    /// Every core is formed. The call does nothing; it makes the fact available to a proof.
    pub fn formed(&self)
        ensures { Formed self.now }
    {
        let _nodes = &self.nodes;
    }
}
