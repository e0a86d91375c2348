//! What a node of a kind does: each question about kinds has its answer here, where every kind is named.
ghost use Rattle.std.specs.Prelude.{◌≡◌};
ghost use Rattle.pc_core.specs.FurtherKinds as further;
ghost use Rattle.pc_core.specs.Kinds as spec;

use crate::nodes::NodeKind;
use pc_tree::Op;

/// An operator that is applied to the values of all children.
#[derive(Clone, Copy, Debug, PartialEq, Eq)]
pub enum Operation {
    /// Arithmetic, comparison or `xor`.
    Binary(Op),
    /// `is`, or `isnt` if false.
    Same(bool),
    /// `not`.
    Not,
}

/// An operator whose right side is evaluated only if the left side does not decide.
#[derive(Clone, Copy, Debug, PartialEq, Eq)]
pub enum Connective {
    And,
    Or,
}

impl NodeKind {
    /// The slot that a node of this kind defines.
    #[inline(always)]
    pub fn defined_slot(&self) -> Option<u32>
        ensures { result ≡ further.defined_slot self.now }
    {
        match self {
            NodeKind::Define(slot) => Some(*slot),
            NodeKind::Number(_)
            | NodeKind::Truth(_)
            | NodeKind::Text(_)
            | NodeKind::Prim(_)
            | NodeKind::This
            | NodeKind::Local(_)
            | NodeKind::Consume(_)
            | NodeKind::Field(_)
            | NodeKind::SetField(_)
            | NodeKind::Assign(_)
            | NodeKind::New(_)
            | NodeKind::Spawn(_)
            | NodeKind::Call(_)
            | NodeKind::Binary(_)
            | NodeKind::Not
            | NodeKind::And
            | NodeKind::Or
            | NodeKind::Same(_)
            | NodeKind::Seq
            | NodeKind::If
            | NodeKind::While
            | NodeKind::Recover(_)
            | NodeKind::Body => None,
        }
    }

    /// The slot that a definition or an assignment stores its value in.
    #[inline(always)]
    pub fn stored_slot(&self) -> Option<u32>
        ensures { result ≡ spec.stored_slot self.now }
    {
        match self {
            NodeKind::Define(slot) | NodeKind::Assign(slot) => Some(*slot),
            NodeKind::Number(_)
            | NodeKind::Truth(_)
            | NodeKind::Text(_)
            | NodeKind::Prim(_)
            | NodeKind::This
            | NodeKind::Local(_)
            | NodeKind::Consume(_)
            | NodeKind::Field(_)
            | NodeKind::SetField(_)
            | NodeKind::New(_)
            | NodeKind::Spawn(_)
            | NodeKind::Call(_)
            | NodeKind::Binary(_)
            | NodeKind::Not
            | NodeKind::And
            | NodeKind::Or
            | NodeKind::Same(_)
            | NodeKind::Seq
            | NodeKind::If
            | NodeKind::While
            | NodeKind::Recover(_)
            | NodeKind::Body => None,
        }
    }

    /// The slot whose value is read, and stays there.
    #[inline(always)]
    pub fn local_slot(&self) -> Option<u32>
        ensures { result ≡ further.local_slot self.now }
    {
        match self {
            NodeKind::Local(slot) => Some(*slot),
            NodeKind::Number(_)
            | NodeKind::Truth(_)
            | NodeKind::Text(_)
            | NodeKind::Prim(_)
            | NodeKind::This
            | NodeKind::Consume(_)
            | NodeKind::Field(_)
            | NodeKind::SetField(_)
            | NodeKind::Define(_)
            | NodeKind::Assign(_)
            | NodeKind::New(_)
            | NodeKind::Spawn(_)
            | NodeKind::Call(_)
            | NodeKind::Binary(_)
            | NodeKind::Not
            | NodeKind::And
            | NodeKind::Or
            | NodeKind::Same(_)
            | NodeKind::Seq
            | NodeKind::If
            | NodeKind::While
            | NodeKind::Recover(_)
            | NodeKind::Body => None,
        }
    }

    /// The slot whose value is consumed.
    #[inline(always)]
    pub fn consumed_slot(&self) -> Option<u32>
        ensures { result ≡ further.consumed_slot self.now }
    {
        match self {
            NodeKind::Consume(slot) => Some(*slot),
            NodeKind::Number(_)
            | NodeKind::Truth(_)
            | NodeKind::Text(_)
            | NodeKind::Prim(_)
            | NodeKind::This
            | NodeKind::Local(_)
            | NodeKind::Field(_)
            | NodeKind::SetField(_)
            | NodeKind::Define(_)
            | NodeKind::Assign(_)
            | NodeKind::New(_)
            | NodeKind::Spawn(_)
            | NodeKind::Call(_)
            | NodeKind::Binary(_)
            | NodeKind::Not
            | NodeKind::And
            | NodeKind::Or
            | NodeKind::Same(_)
            | NodeKind::Seq
            | NodeKind::If
            | NodeKind::While
            | NodeKind::Recover(_)
            | NodeKind::Body => None,
        }
    }

    /// The name of the field that is read, by its number.
    #[inline(always)]
    pub fn field_read(&self) -> Option<u32>
        ensures { result ≡ spec.field_read self.now }
    {
        match self {
            NodeKind::Field(name) => Some(*name),
            NodeKind::Number(_)
            | NodeKind::Truth(_)
            | NodeKind::Text(_)
            | NodeKind::Prim(_)
            | NodeKind::This
            | NodeKind::Local(_)
            | NodeKind::Consume(_)
            | NodeKind::SetField(_)
            | NodeKind::Define(_)
            | NodeKind::Assign(_)
            | NodeKind::New(_)
            | NodeKind::Spawn(_)
            | NodeKind::Call(_)
            | NodeKind::Binary(_)
            | NodeKind::Not
            | NodeKind::And
            | NodeKind::Or
            | NodeKind::Same(_)
            | NodeKind::Seq
            | NodeKind::If
            | NodeKind::While
            | NodeKind::Recover(_)
            | NodeKind::Body => None,
        }
    }

    /// The name of the field that is written, by its number.
    #[inline(always)]
    pub fn field_written(&self) -> Option<u32>
        ensures { result ≡ spec.field_written self.now }
    {
        match self {
            NodeKind::SetField(name) => Some(*name),
            NodeKind::Number(_)
            | NodeKind::Truth(_)
            | NodeKind::Text(_)
            | NodeKind::Prim(_)
            | NodeKind::This
            | NodeKind::Local(_)
            | NodeKind::Consume(_)
            | NodeKind::Field(_)
            | NodeKind::Define(_)
            | NodeKind::Assign(_)
            | NodeKind::New(_)
            | NodeKind::Spawn(_)
            | NodeKind::Call(_)
            | NodeKind::Binary(_)
            | NodeKind::Not
            | NodeKind::And
            | NodeKind::Or
            | NodeKind::Same(_)
            | NodeKind::Seq
            | NodeKind::If
            | NodeKind::While
            | NodeKind::Recover(_)
            | NodeKind::Body => None,
        }
    }

    /// The name of the method that is called, by its number.
    #[inline(always)]
    pub fn called_name(&self) -> Option<u32>
        ensures { result ≡ spec.called_name self.now }
    {
        match self {
            NodeKind::Call(name) => Some(*name),
            NodeKind::Number(_)
            | NodeKind::Truth(_)
            | NodeKind::Text(_)
            | NodeKind::Prim(_)
            | NodeKind::This
            | NodeKind::Local(_)
            | NodeKind::Consume(_)
            | NodeKind::Field(_)
            | NodeKind::SetField(_)
            | NodeKind::Define(_)
            | NodeKind::Assign(_)
            | NodeKind::New(_)
            | NodeKind::Spawn(_)
            | NodeKind::Binary(_)
            | NodeKind::Not
            | NodeKind::And
            | NodeKind::Or
            | NodeKind::Same(_)
            | NodeKind::Seq
            | NodeKind::If
            | NodeKind::While
            | NodeKind::Recover(_)
            | NodeKind::Body => None,
        }
    }

    /// The constructor, of a class or an actor, by the number of its method.
    #[inline(always)]
    pub fn constructor(&self) -> Option<u32>
        ensures { result ≡ further.constructor self.now }
    {
        match self {
            NodeKind::New(method) | NodeKind::Spawn(method) => Some(*method),
            NodeKind::Number(_)
            | NodeKind::Truth(_)
            | NodeKind::Text(_)
            | NodeKind::Prim(_)
            | NodeKind::This
            | NodeKind::Local(_)
            | NodeKind::Consume(_)
            | NodeKind::Field(_)
            | NodeKind::SetField(_)
            | NodeKind::Define(_)
            | NodeKind::Assign(_)
            | NodeKind::Call(_)
            | NodeKind::Binary(_)
            | NodeKind::Not
            | NodeKind::And
            | NodeKind::Or
            | NodeKind::Same(_)
            | NodeKind::Seq
            | NodeKind::If
            | NodeKind::While
            | NodeKind::Recover(_)
            | NodeKind::Body => None,
        }
    }

    /// The name of the field or the method that a node of this kind reads, writes or calls, by its number.
    #[inline(always)]
    pub fn member_name(&self) -> Option<u32>
        ensures { result ≡ further.member_name self.now }
    {
        match self {
            NodeKind::Field(name) | NodeKind::SetField(name) | NodeKind::Call(name) => Some(*name),
            NodeKind::Number(_)
            | NodeKind::Truth(_)
            | NodeKind::Text(_)
            | NodeKind::Prim(_)
            | NodeKind::This
            | NodeKind::Local(_)
            | NodeKind::Consume(_)
            | NodeKind::Define(_)
            | NodeKind::Assign(_)
            | NodeKind::New(_)
            | NodeKind::Spawn(_)
            | NodeKind::Binary(_)
            | NodeKind::Not
            | NodeKind::And
            | NodeKind::Or
            | NodeKind::Same(_)
            | NodeKind::Seq
            | NodeKind::If
            | NodeKind::While
            | NodeKind::Recover(_)
            | NodeKind::Body => None,
        }
    }

    /// The operator that is applied to the values of all children.
    #[inline(always)]
    pub fn applied_operation(&self) -> Option<Operation>
        ensures { result ≡ spec.applied_operation self.now }
    {
        match self {
            NodeKind::Binary(op) => Some(Operation::Binary(*op)),
            NodeKind::Same(wanted) => Some(Operation::Same(*wanted)),
            NodeKind::Not => Some(Operation::Not),
            NodeKind::Number(_)
            | NodeKind::Truth(_)
            | NodeKind::Text(_)
            | NodeKind::Prim(_)
            | NodeKind::This
            | NodeKind::Local(_)
            | NodeKind::Consume(_)
            | NodeKind::Field(_)
            | NodeKind::SetField(_)
            | NodeKind::Define(_)
            | NodeKind::Assign(_)
            | NodeKind::New(_)
            | NodeKind::Spawn(_)
            | NodeKind::Call(_)
            | NodeKind::And
            | NodeKind::Or
            | NodeKind::Seq
            | NodeKind::If
            | NodeKind::While
            | NodeKind::Recover(_)
            | NodeKind::Body => None,
        }
    }

    /// The operator whose right side is evaluated only if the left side does not decide.
    #[inline(always)]
    pub fn connective(&self) -> Option<Connective>
        ensures { result ≡ spec.connective self.now }
    {
        match self {
            NodeKind::And => Some(Connective::And),
            NodeKind::Or => Some(Connective::Or),
            NodeKind::Number(_)
            | NodeKind::Truth(_)
            | NodeKind::Text(_)
            | NodeKind::Prim(_)
            | NodeKind::This
            | NodeKind::Local(_)
            | NodeKind::Consume(_)
            | NodeKind::Field(_)
            | NodeKind::SetField(_)
            | NodeKind::Define(_)
            | NodeKind::Assign(_)
            | NodeKind::New(_)
            | NodeKind::Spawn(_)
            | NodeKind::Call(_)
            | NodeKind::Binary(_)
            | NodeKind::Not
            | NodeKind::Same(_)
            | NodeKind::Seq
            | NodeKind::If
            | NodeKind::While
            | NodeKind::Recover(_)
            | NodeKind::Body => None,
        }
    }
}
