//! The tasks of a frame.
ghost use Rattle.std.specs.Prelude.{◌≡◌, ◌<◌, ◌∷◌, ◌++◌, [], length, take, drop, slice_get, Some, true, MatchOption, OnOk, OnErr};
ghost use Rattle.pc_semantics.specs.Children.{evaluations};
ghost use Rattle.pc_semantics.specs.Evaluation.{item_tasks};
ghost use Rattle.pc_semantics.specs.Pending.{all_tasks, as_items, tasks_after, entry_tasks, single};

use crate::frames::Task;
use crate::stack::Stack;
use pc_core::Children;
use std::alloc::{AllocError, Global};
use std::marker::Model;
use std::mem;

/// What a frame has to do. Contracts see it as a list, the first task on top.
///
/// The children of a node share one entry, however many there are: the core's list of them, and a place in it.
#[derive(Debug, Drop)]
pub struct Tasks {
    entries: Stack<Entry>,
}

// A task, and what follows it before the entry below.
#[derive(Debug, Drop)]
struct Entry {
    task: Task,
    after: After,
}

// What follows a task: the children of a node from a place on.
#[derive(Debug, Drop)]
enum After {
    Nothing,
    // Each child is evaluated.
    Evaluations(Children, usize),
    // Before each child is evaluated, a value is dropped.
    Items(Children, usize),
    // The same after the first of these values has been dropped.
    Dropped(Children, usize),
}

impl Model for Tasks {
    ghost use Rattle.std.specs.Prelude.{List as Sequence};
    ghost use Rattle.pc_semantics.specs.declared.frames.Task.{Task};
    ghost use Rattle.pc_semantics.specs.Pending.{all_tasks};

    ghost Value = { Sequence Task };

    ghost view = { λ tasks. all_tasks tasks.entries };
}

impl Tasks {
    /// No tasks. It does not allocate.
    pub fn new(alloc: Global) -> Tasks
        ensures { result ≡ [] }
    {
        Tasks {
            entries: Stack::new(alloc),
        }
    }

    /// The first task. `None` iff there is none.
    #[tactic(auto, using(crate::proofs::Pending::top_task, crate::proofs::Pending::no_task))]
    #[inline(always)]
    pub fn top(&self) -> Option<Task>
        ensures { result ≡ slice_get self.now 0 }
    {
        match self.entries.top() {
            Some(entry) => Some(entry.task),
            None => None,
        }
    }

    /// Puts a task before the others. An `Err` changes nothing.
    #[inline(always)]
    pub fn push(&mut self, task: Task) -> Result<(), AllocError>
        ensures ok { OnOk result (self.new ≡ task ∷ self.old) }
        ensures err { OnErr result (self.new ≡ self.old) }
    {
        self.entries.push(alone(task))?;
        Ok(())
    }

    /// Takes the first task off. `None` iff there is none.
    #[inline(always)]
    pub fn pop(&mut self) -> Option<Task>
        ensures value { result ≡ slice_get self.old 0 }
        ensures rest { self.new ≡ drop 1 self.old }
    {
        let task = self.top()?;
        advance(&mut self.entries);
        Some(task)
    }

    /// Replaces the first task, and returns the old one. It does not allocate.
    #[tactic(auto, using(crate::proofs::Pending::top_task))]
    #[inline(always)]
    pub fn replace_top(&mut self, task: Task) -> Task
        requires { 0 < length self.old }
        ensures new { self.new ≡ task ∷ drop 1 self.old }
        ensures top { slice_get self.old 0 ≡ Some result }
    {
        let entry = self.entries.top_mut();
        mem::replace(&mut entry.task, task)
    }

    /// Puts tasks before the others, in this order. An `Err` changes nothing.
    pub fn push_all(&mut self, tasks: &[Task]) -> Result<(), AllocError>
        ensures ok { OnOk result (self.new ≡ tasks.now ++ self.old) }
        ensures err { OnErr result (self.new ≡ self.old) }
    {
        let mut left = tasks.len();
        'tasks: while left > 0 {
            left -= 1;
            if self.entries.push(alone(tasks[left])).is_err() {
                self.entries.discard(tasks.len() - 1 - left);
                return Err(AllocError);
            }
        }
        Ok(())
    }

    /// Puts the evaluations of these children before the other tasks. An `Err` changes nothing.
    #[inline(always)]
    pub fn push_evaluations(&mut self, children: &Children) -> Result<(), AllocError>
        ensures ok { OnOk result (self.new ≡ evaluations children.now ++ self.old) }
        ensures err { OnErr result (self.new ≡ self.old) }
    {
        let Some(first) = children.as_slice().first() else {
            return Ok(());
        };
        let entry = Entry {
            task: Task::Eval(*first),
            after: After::Evaluations(children.share()?, 1),
        };
        self.entries.push(entry)?;
        Ok(())
    }

    /// Replaces the first task by the items of a sequence: each is evaluated, and its value is dropped before the next
    /// one. An `Err` changes nothing.
    pub fn go_on_with_items(&mut self, children: &Children) -> Result<(), AllocError>
        requires { 0 < length self.old }
        ensures ok { OnOk result (self.new ≡ item_tasks children.now ++ drop 1 self.old) }
        ensures err { OnErr result (self.new ≡ self.old) }
    {
        let Some(first) = children.as_slice().first() else {
            advance(&mut self.entries);
            return Ok(());
        };
        let entry = Entry {
            task: Task::Eval(*first),
            after: After::Items(children.share()?, 1),
        };
        replace_first(&mut self.entries, entry)?;
        Ok(())
    }
}

// A task that is followed by the entry below.
#[inline(always)]
fn alone(task: Task) -> Entry
    ensures { result ≡ single task }
{
    Entry {
        task,
        after: After::Nothing,
    }
}

// The evaluation of the child at a place, and then of those after it.
#[inline(always)]
fn evaluation_at(children: Children, place: usize) -> Option<Entry>
    ensures { MatchOption result (evaluations (drop place children) ≡ []) (λ e. entry_tasks e ≡ evaluations (drop place children)) }
{
    let child = *children.as_slice().get(place)?;
    Some(Entry {
        task: Task::Eval(child),
        after: After::Evaluations(children, place + 1),
    })
}

// A value is dropped, and then the item at a place is evaluated.
#[inline(always)]
fn item_at(children: Children, place: usize) -> Option<Entry>
    ensures { MatchOption result (as_items (drop place children) ≡ []) (λ e. entry_tasks e ≡ as_items (drop place children)) }
{
    let _ = children.as_slice().get(place)?;
    Some(Entry {
        task: Task::Discard,
        after: After::Dropped(children, place),
    })
}

// The item at a place, after the value before it has been dropped.
#[inline(always)]
fn dropped_at(children: Children, place: usize) -> Option<Entry>
    ensures { MatchOption result (drop 1 (as_items (drop place children)) ≡ []) (λ e. entry_tasks e ≡ drop 1 (as_items (drop place children))) }
{
    let child = *children.as_slice().get(place)?;
    Some(Entry {
        task: Task::Eval(child),
        after: After::Items(children, place + 1),
    })
}

// What follows a task, as an entry. `None` iff nothing follows.
#[inline(always)]
fn following(after: After) -> Option<Entry>
    ensures { MatchOption result (tasks_after after ≡ []) (λ e. entry_tasks e ≡ tasks_after after) }
{
    match after {
        After::Nothing => None,
        After::Evaluations(children, place) => evaluation_at(children, place),
        After::Items(children, place) => item_at(children, place),
        After::Dropped(children, place) => dropped_at(children, place),
    }
}

// Whether nothing follows a task before the entry below.
#[inline(always)]
fn is_alone(entry: &Entry) -> bool
    ensures { result ≡ true → tasks_after entry.now.after ≡ [] }
{
    match entry.after {
        After::Nothing => true,
        After::Evaluations(..) | After::Items(..) | After::Dropped(..) => false,
    }
}

// Removes the first task.
#[tactic(auto, using(crate::proofs::Pending::goes_alone, crate::proofs::Pending::none_goes))]
#[inline(always)]
fn advance(entries: &mut Stack<Entry>)
    ensures { all_tasks entries.new ≡ drop 1 (all_tasks entries.old) }
{
    let Some(entry) = entries.top() else {
        return;
    };
    if is_alone(entry) {
        entries.discard(1);
        return;
    }
    let Entry { after, .. } = entries.replace_top(alone(Task::Discard));
    match following(after) {
        Some(next) => {
            let _ = entries.replace_top(next);
        }
        None => {
            let _ = entries.pop();
        }
    }
}

// Removes the second entry.
fn drop_second(entries: &mut Stack<Entry>)
    requires { 1 < length entries.old }
    ensures { entries.new ≡ take 1 entries.old ++ drop 2 entries.old }
{
    if let Some(top) = entries.pop() {
        let _ = entries.replace_top(top);
    }
}

// Replaces the first task by an entry. An `Err` changes nothing.
fn replace_first(entries: &mut Stack<Entry>, entry: Entry) -> Result<(), AllocError>
    requires { 0 < length entries.old }
    ensures ok { OnOk result (all_tasks entries.new ≡ entry_tasks entry ++ drop 1 (all_tasks entries.old)) }
    ensures err { OnErr result (entries.new ≡ entries.old) }
{
    entries.push(entry)?;
    let Entry { after, .. } = entries.replace(1, alone(Task::Discard));
    match following(after) {
        Some(next) => {
            let _ = entries.replace(1, next);
        }
        None => drop_second(entries),
    }
    Ok(())
}
