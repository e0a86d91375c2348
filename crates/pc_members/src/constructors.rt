//! Which entities have a constructor.
ghost use Rattle.std.specs.Prelude.{◌≡◌, map};
ghost use Rattle.std.specs.List.{list_any};
ghost use Rattle.pc_tree.specs.Tree as tree;
ghost use Rattle.pc_tree.specs.View.{entity_view, method_view};
ghost use Rattle.pc_members.specs.Members as spec;

use pc_tree::{Entity, MethodDef, MethodWord};

/// Whether the keyword is `new`.
pub fn is_new(word: MethodWord) -> bool
    ensures { result ≡ spec.is_new word }
{
    matches!(word, MethodWord::New)
}

// Whether one of the methods is a constructor.
fn has_constructor(methods: &[MethodDef]) -> bool
    ensures { result ≡ list_any (λ (m : tree.Method). spec.is_new m.word) (map method_view methods.now) }
{
    for method in methods {
        if is_new(method.word) {
            return true;
        }
    }
    false
}

/// Whether the constructor `create` is added to the entity: it is a class or an actor without a constructor.
pub fn has_added(entity: &Entity) -> bool
    ensures { result ≡ spec.has_added (entity_view entity.now) }
{
    if has_constructor(entity.methods.as_slice()) {
        false
    } else {
        entity.kind.may_hold(MethodWord::New)
    }
}
