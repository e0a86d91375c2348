//! Entities, names and types in words.
ghost use Rattle.std.specs.Prelude.{◌≡◌, ◌++◌, OnOk};
ghost use Rattle.pc_explain_words.specs.Forms as spec;

use crate::caps::{cap_word, form_word};
use pc_caps::{Cap, Form};
use pc_core::Core;
use pc_explain_window::{push_bytes, push_piece};
use std::alloc::{AllocError, Global};

/// The bytes of an entity's name.
#[tactic(auto, unfolding(crate::specs::Forms::entity_name))]
pub fn entity_name(core: &Core, entity: u32) -> &[u8]
    ensures { result.now ≡ spec.entity_name core.now entity }
{
    match core.entity_at(entity) {
        Some(found) => found.name.as_slice(),
        None => b"",
    }
}

/// The text of the name of a field or a method.
#[tactic(auto, unfolding(crate::specs::Forms::name_text))]
pub fn name_text(core: &Core, name: u32) -> &[u8]
    ensures { result.now ≡ spec.name_text core.now name }
{
    match core.name_at(name) {
        Some(found) => found.as_slice(),
        None => b"",
    }
}

/// Appends an entity's name.
#[tactic(auto, unfolding(crate::specs::Forms::entity_words))]
pub fn push_entity(
    alloc: Global,
    out: &mut Vec<u8>,
    core: &Core,
    entity: u32,
) -> Result<(), AllocError>
    ensures { OnOk result (out.new.items ≡ out.old.items ++ spec.entity_words core.now entity) }
{
    push_piece(alloc, out, entity_name(core, entity))
}

fn is_vowel(byte: u8) -> bool
    ensures { result ≡ spec.is_vowel byte }
{
    byte == b'a'
        || byte == b'e'
        || byte == b'i'
        || byte == b'o'
        || byte == b'A'
        || byte == b'E'
        || byte == b'I'
        || byte == b'O'
}

// Whether `an` comes before the word.
fn takes_an(word: &[u8]) -> bool
    ensures { result ≡ spec.takes_an word.now }
{
    match word {
        [first, ..] => is_vowel(*first),
        [] => false,
    }
}

fn article(word: &[u8]) -> &'static [u8]
    ensures { result.now ≡ spec.article word.now }
{
    if takes_an(word) { b"an " } else { b"a " }
}

/// Appends `a` or `an` and the word.
#[tactic(auto, unfolding(crate::specs::Forms::with_article))]
pub fn push_with_article(alloc: Global, out: &mut Vec<u8>, word: &[u8]) -> Result<(), AllocError>
    ensures { OnOk result (out.new.items ≡ out.old.items ++ spec.with_article word.now) }
{
    push_bytes(out, article(word))?;
    push_piece(alloc, out, word)
}

/// Appends the type of a value, like `C iso^`.
#[tactic(auto, unfolding(crate::specs::Forms::type_words))]
pub fn push_type(
    alloc: Global,
    out: &mut Vec<u8>,
    core: &Core,
    ty: (u32, Form),
) -> Result<(), AllocError>
    ensures { OnOk result (out.new.items ≡ out.old.items ++ spec.type_words core.now ty) }
{
    push_entity(alloc, out, core, ty.0)?;
    push_bytes(out, b" ")?;
    push_bytes(out, form_word(ty.1))
}

/// Appends the type of a place, like `C iso`.
#[tactic(auto, unfolding(crate::specs::Forms::place_words))]
pub fn push_place_type(
    alloc: Global,
    out: &mut Vec<u8>,
    core: &Core,
    place: (u32, Cap),
) -> Result<(), AllocError>
    ensures { OnOk result (out.new.items ≡ out.old.items ++ spec.place_words core.now place) }
{
    push_entity(alloc, out, core, place.0)?;
    push_bytes(out, b" ")?;
    push_bytes(out, cap_word(place.1))
}
