//! The derivation as an annotation.
use pc_ann::{Note, Rule};
use pc_caps::{Cap, Form};
use pc_masks::Mask;

/// A node of the derivation: its rule, its type, and the live masks before and after it.
pub type NodeRow = (Rule, Option<(u32, Form)>, u64, u64);

/// A note that sets nothing.
pub fn note(row: NodeRow) -> Note {
    Note {
        rule: row.0,
        ty: row.1,
        live_before: Mask(row.2),
        set_before: Mask(0),
        live_after: Mask(row.3),
        set_after: Mask(0),
    }
}

/// Its slots.
pub const SLOTS: [(u32, Cap); 4] = [(6, Cap::Ref), (7, Cap::Ref), (4, Cap::Val), (6, Cap::Iso)];

/// Its nodes.
pub const NODES: [NodeRow; 7] = [
    (Rule::Prim, Some((0, Form::Val)), 1, 1),
    (Rule::Seq, Some((0, Form::Val)), 1, 1),
    (Rule::Body, None, 1, 1),
    (Rule::New, Some((6, Form::IsoE)), 3, 3),
    (Rule::Define, None, 3, 7),
    (Rule::Seq, None, 3, 3),
    (Rule::Body, None, 3, 3),
];
