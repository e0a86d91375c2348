//! The notes of a node's children, in order: held together, or found by their numbers in an annotation.
ghost use Rattle.std.specs.Prelude.{◌≡◌, false, length, slice_get};
ghost use Rattle.pc_rules.specs.Children.{HaveNotes, is_there, each_has, picked_note, all_or_gathered, MayGather};

use pc_ann::Note;
use std::marker::Model;

/// The notes of a node's children, in order: all of these, or those with these numbers among them.
#[derive(Drop)]
pub(crate) struct Children<'a> {
    notes: &'a [Note],
    numbers: &'a [u32],
    held: bool,
}

impl<'a> Model for Children<'a> {
    ghost use Rattle.std.specs.Prelude.{List};
    ghost use Rattle.pc_ann.specs.declared.annotation.Note.{Note as NoteIs};
    ghost use Rattle.pc_rules.specs.Children.{all_or_gathered, MayGather};

    ghost Value = { List NoteIs };

    ghost view = { λ s. all_or_gathered s.held s.notes.now s.numbers.now };

    ghost invariant = { λ s. MayGather s.held s.notes.now s.numbers.now };
}

impl<'a> Children<'a> {
    /// These notes, in order.
    pub(crate) fn held(notes: &'a [Note]) -> Children<'a>
        ensures { result ≡ notes.now }
    {
        Children {
            notes,
            numbers: &[],
            held: true,
        }
    }

    /// Those of these notes that have these numbers.
    pub(crate) fn among(notes: &'a [Note], numbers: &'a [u32]) -> Children<'a>
        requires { HaveNotes notes.now numbers.now }
        ensures { result ≡ all_or_gathered false notes.now numbers.now }
    {
        Children {
            notes,
            numbers,
            held: false,
        }
    }

    /// The number of children.
    pub(crate) fn count(&self) -> usize
        ensures { result ≡ length self.now }
    {
        count_in(self.held, self.notes, self.numbers)
    }

    /// The note of the child with this index. `None` iff there is none.
    pub(crate) fn note(&self, index: usize) -> Option<Note>
        ensures { result ≡ slice_get self.now index }
    {
        note_in(self.held, self.notes, self.numbers, index)
    }
}

fn note_in(held: bool, notes: &[Note], numbers: &[u32], index: usize) -> Option<Note>
    requires { MayGather held notes.now numbers.now }
    ensures { result ≡ slice_get (all_or_gathered held notes.now numbers.now) index }
{
    if held {
        notes.get(index).copied()
    } else {
        note_of(notes, numbers, index)
    }
}

fn count_in(held: bool, notes: &[Note], numbers: &[u32]) -> usize
    requires { MayGather held notes.now numbers.now }
    ensures { result ≡ length (all_or_gathered held notes.now numbers.now) }
{
    if held { notes.len() } else { numbers.len() }
}

fn number_at(numbers: &[u32], index: usize) -> Option<u32>
    ensures { result ≡ slice_get numbers.now index }
{
    numbers.get(index).copied()
}

fn note_at(notes: &[Note], number: u32) -> Option<Note>
    ensures { result ≡ slice_get notes.now number }
{
    notes.get(number as usize).copied()
}

fn note_of(notes: &[Note], numbers: &[u32], index: usize) -> Option<Note>
    ensures { result ≡ picked_note notes.now numbers.now index }
{
    let number = number_at(numbers, index)?;
    note_at(notes, number)
}

fn has_note(notes: &[Note], number: u32) -> bool
    ensures { result ≡ is_there (slice_get notes.now number) }
{
    match note_at(notes, number) {
        None => false,
        Some(_) => true,
    }
}

// Whether each of these nodes has a note.
pub(crate) fn have_notes(notes: &[Note], numbers: &[u32]) -> bool
    ensures { result ≡ each_has notes.now numbers.now }
{
    for number in numbers {
        if !has_note(notes, *number) {
            return false;
        }
    }
    true
}
