//! What is known of an annotation whose lines come one by one.
ghost use Rattle.std.specs.Prelude.{◌≡◌, ◌<◌, ◌↔◌, ℕ, List as Sequence, [], ◌∷◌, ◌++◌, None, Some, length, slice_get, IfOk, OnOk, OnErr, IsTrue};
ghost use Rattle.pc_ann.specs.declared.annotation.Ann.{Ann as AnnIs};
ghost use Rattle.pc_core.specs.declared.nodes.NodeKind.TheVariants as kind;
ghost use Rattle.pc_valid.specs.NoRule.{Holds};
ghost use Rattle.pc_referee.specs.Asked.{asked_after};
ghost use Rattle.pc_deriv.specs.Lines.{line_of_slot, lines_of};
ghost use Rattle.pc_deriv.specs.declared.version.Version.{Version as VersionIs};
ghost use Rattle.pc_deriv.specs.declared.line.Line.{Line as LineIs};
ghost use Rattle.pc_deriv.specs.declared.line.Line.TheVariants as line;
ghost use Rattle.pc_feed.specs.Steps.{MayFollow, HasRoom, JudgedSo, LineTaken, OneFound, SameFound, last_of, nothing_judged, waits_after};
ghost use Rattle.pc_feed.specs.Streams.{JudgedSoFar};

use crate::fault::StreamFault;
use crate::nodes::{has_counts, leaves_unset, may_have};
use pc_ann::Note;
use pc_base::List;
use pc_caps::Cap;
use pc_core::{Core, Node, NodeKind};
use pc_deriv::Line;
use pc_judge::JudgeFault;
use pc_referee::Referee;
use pc_sub::declarations;
use std::alloc::{AllocError, Global};

/// The types of the slots so far, the notes of the nodes without a parent so far, how many nodes were found right, and
/// the first fault.
#[derive(Drop)]
pub struct Judging {
    pub slots: List<(u32, Cap)>,
    pub waiting: List<Note>,
    pub right: u32,
    pub fault: Option<JudgeFault>,
}

// Whether the node is the body of a method.
fn is_body(node: &Node) -> bool
    ensures { IsTrue result ↔ (node.now.kind ≡ kind.Body) }
{
    matches!(&node.kind, NodeKind::Body)
}

impl Judging {
    /// No line so far. Does not allocate.
    pub fn new(alloc: Global) -> Judging
        ensures { result ≡ nothing_judged }
    {
        Judging {
            slots: List::new(alloc),
            waiting: List::new(alloc),
            right: 0,
            fault: None,
        }
    }

    // The first line, in either version.
    fn take_head(&mut self, core: &Core, slots: u32, nodes: u32)
        requires { self.old.fault ≡ None }
        ensures { (version : ℕ) (ls : Sequence LineIs) → MayFollow ls (line.Head version slots nodes) → JudgedSoFar core.now ls self.old
            → JudgedSoFar core.now (ls ++ line.Head version slots nodes ∷ []) self.new × (self.new.right ≡ self.old.right) }
    {
        if has_counts(core, slots, nodes) {
            return;
        }
        self.fault = Some(JudgeFault::Shape);
    }

    // The line of a slot.
    fn take_slot(&mut self, core: &Core, ty: (u32, Cap)) -> Result<(), AllocError>
        requires right { self.old.fault ≡ None }
        requires room { length self.old.slots < length core.now.slots }
        ensures { (ls : Sequence LineIs) → MayFollow ls (line_of_slot ty) → JudgedSoFar core.now ls self.old → SameFound core.now ls (line_of_slot ty) self.old self.new result }
    {
        core.formed();
        let number = self.slots.len();
        if !may_have(core, number, ty) {
            self.fault = Some(JudgeFault::Slot(number as u32));
            return Ok(());
        }
        self.slots.push(ty)
    }

    // Asks the referee about the next node, which has this note.
    fn ask<R: Referee>(
        &self,
        core: &Core,
        node: &Node,
        own: &Note,
        referee: &mut R,
    ) -> Result<bool, AllocError>
        requires slots { length self.now.slots ≡ length core.now.slots }
        requires node { slice_get core.now.nodes self.now.right ≡ Some node.now }
        ensures right { IfOk result (λ b. IsTrue b ↔ Holds core.now self.now.slots own.now (last_of self.now.waiting (length node.now.children)) self.now.right) }
        ensures list { R.asked referee.new ≡ asked_after (R.asked referee.old) self.now.right own.now result }
    {
        let waiting = self.waiting.as_slice();
        let from = waiting.len().saturating_sub(node.children.len());
        referee.ask(
            core,
            self.slots.as_slice(),
            own,
            &waiting[from..],
            self.right,
        )
    }

    // The next node's note takes the place of its children's. After a body no notes are left.
    fn keep(&mut self, node: &Node, own: Note) -> Result<(), AllocError>
        ensures ok { OnOk result (self.new ≡ record self.old { waiting = waits_after self.old.waiting node.now own }) }
        ensures err { OnErr result (self.new.right ≡ self.old.right) }
    {
        let from = self.waiting.len().saturating_sub(node.children.len());
        self.waiting.truncate(from);
        if is_body(node) {
            return Ok(());
        }
        self.waiting.push(own)
    }

    // The next node was found right.
    fn take_right(&mut self, core: &Core, node: &Node, own: Note) -> Result<(), AllocError>
        requires right { self.old.fault ≡ None }
        requires node { slice_get core.now.nodes self.old.right ≡ Some node.now }
        ensures { (ls : Sequence LineIs) → MayFollow ls (line.Node own) → JudgedSoFar core.now ls self.old
            → Holds core.now self.old.slots own (last_of self.old.waiting (length node.now.children)) self.old.right
            → OneFound core.now ls own self.old self.new result }
    {
        core.formed();
        let number = self.right;
        self.right += 1;
        if leaves_unset(core, number, node.method, own) {
            self.fault = Some(JudgeFault::Unset(node.method));
            return Ok(());
        }
        self.keep(node, own)
    }

    // The line of a node.
    fn take_node<R: Referee>(
        &mut self,
        core: &Core,
        node: &Node,
        own: Note,
        referee: &mut R,
    ) -> Result<(), AllocError>
        requires right { self.old.fault ≡ None }
        requires slots { length self.old.slots ≡ length core.now.slots }
        requires node { slice_get core.now.nodes self.old.right ≡ Some node.now }
        ensures { (ls : Sequence LineIs) → MayFollow ls (line.Node own) → JudgedSoFar core.now ls self.old
            → LineTaken core.now ls (line.Node own) self.old self.new (R.asked referee.old) (R.asked referee.new) result }
    {
        core.formed();
        let is_right = self.ask(core, node, &own, referee)?;
        if is_right {
            return self.take_right(core, node, own);
        }
        self.fault = Some(JudgeFault::Node(self.right));
        Ok(())
    }

    // A line, if there was no fault before it.
    fn take_next<R: Referee>(
        &mut self,
        core: &Core,
        line: Line,
        referee: &mut R,
    ) -> Result<(), AllocError>
        requires right { self.old.fault ≡ None }
        requires room { HasRoom core.now self.old line }
        ensures { (ls : Sequence LineIs) → MayFollow ls line → JudgedSoFar core.now ls self.old
            → LineTaken core.now ls line self.old self.new (R.asked referee.old) (R.asked referee.new) result }
    {
        match line {
            Line::Head {
                version: _,
                slots,
                nodes,
            } => {
                self.take_head(core, slots, nodes);
                Ok(())
            }
            Line::Slot(entity, cap) => self.take_slot(core, (entity, cap)),
            Line::Node(own) => match core.node_at(self.right) {
                None => unreachable!(),
                Some(node) => self.take_node(core, node, own, referee),
            },
        }
    }

    /// Processes a line. After the first fault, lines are skipped.
    pub fn take_line<R: Referee>(
        &mut self,
        core: &Core,
        line: Line,
        referee: &mut R,
    ) -> Result<(), AllocError>
        requires room { self.old.fault ≡ None → HasRoom core.now self.old line }
        ensures { (ls : Sequence LineIs) → MayFollow ls line → JudgedSoFar core.now ls self.old
            → LineTaken core.now ls line self.old self.new (R.asked referee.old) (R.asked referee.new) result }
    {
        match self.fault {
            None => self.take_next(core, line, referee),
            Some(_) => Ok(()),
        }
    }

    /// The first fault of the annotation with these lines: a declaration, or what was found.
    pub fn end(&self, core: &Core) -> Result<(), StreamFault>
        ensures { (version : VersionIs) (ann : AnnIs) → JudgedSoFar core.now (lines_of version ann) self.now → JudgedSo core.now ann result }
    {
        core.formed();
        match declarations(core) {
            Err(fault) => Err(StreamFault::Invalid(JudgeFault::Decl(fault))),
            Ok(()) => match self.fault {
                None => Ok(()),
                Some(fault) => Err(StreamFault::Invalid(fault)),
            },
        }
    }
}
