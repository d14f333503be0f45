//! A message and what it holds, one after another: its attachments, and the messages that these embed.

ghost use Rattle.std.specs.Prelude.{◌≡◌, IfOk, string_bytes};
ghost use Rattle.pst_export.specs.Held.{folder_in as folder_called};

use crate::index::turn_to_attachments;
use pst_msg::{Attachment, Attachments, Message};
use pst_ndb::NodeIndexes;
use pst_value_json::nid_text;
use std::alloc::{AllocError, Global};

/// So many messages may nest in one another: at least as many as lists of subnodes may.
pub(crate) const LEVELS: u32 = 256;

/// A message or an attachment.
#[derive(Clone, Copy)]
pub(crate) enum Holder<'a> {
    /// A message.
    Message(Message<'a>),
    /// An attachment.
    Attachment(Attachment<'a>),
}

/// What has a folder of its own.
#[derive(Drop)]
pub(crate) struct Item<'a> {
    /// The name of its folder.
    pub(crate) folder: String,
    /// What it is.
    pub(crate) holder: Holder<'a>,
}

// What is still to be gone through.
#[derive(Drop)]
enum Task<'a> {
    // A message in this folder, and what it holds; so many more may nest below it.
    Message(String, Message<'a>, u32),
    // The attachments that are left of a message in this folder.
    Rest(String, Attachments<'a>, u32),
}

/// A message that is gone through, in the order of its archive. What is to be gone through first stands last. What messages and
/// attachments name is found by indexes that turn to the list of each.
#[derive(Drop)]
pub(crate) struct Walk<'a> {
    alloc: Global,
    tasks: Vec<Task<'a>>,
}

/// The folder in another that is called as a node.
pub(crate) fn folder_in(alloc: Global, folder: &str, nid: u32) -> Result<String, AllocError>
    ensures { IfOk result (λ s. string_bytes s ≡ folder_called folder.now nid) }
{
    let mut path = String::from_str(alloc, folder)?;
    path.push_str("/")?;
    path.push_str(&nid_text(alloc, nid)?)?;
    Ok(path)
}

impl<'a> Walk<'a> {
    ghost use Rattle.std.specs.Prelude.{◌≡◌, ◌++◌, ◌∷◌, IfOk, OnOk, option_map, string_bytes};
    ghost use Rattle.pst_block.specs.Table.{Table};
    ghost use Rattle.pst_ndb.specs.NodeIndexes.{AreNodeIndexes};
    ghost use Rattle.pst_ndb.specs.Views.{table_of_node, roots_of, nid_of, top_of};
    ghost use Rattle.pst_verify.specs.pst_msg.Shown.{object_shown};
    ghost use Rattle.pst_verify.specs.pst_msg.Values.{embedded_of};
    ghost use Rattle.pst_verify.specs.pst_msg.View.{node_of_message, node_of_attachment, message_roots, holder_left};
    ghost use Rattle.pst_export.specs.declared.walk.Task.TheVariants.{Message as Whole, Rest as Behind};
    ghost use Rattle.pst_export.specs.Held.{embedded_held, held_in_folder, nested_held};
    ghost use Rattle.pst_export.specs.Walk.{Begins, IsItemOver, IsWalkOver, StaysOver, TakesHeld, item_held, task_left, task_node, walk_left};

    /// A message of a store, in a folder of this name.
    #[tactic(auto, using(crate::proofs::WalkLemmas::one_over))]
    pub(crate) fn of(
        alloc: Global,
        name: &str,
        message: Message<'a>,
    ) -> Result<Walk<'a>, AllocError>
        requires { nid_of (node_of_message message) ≡ top_of (node_of_message message) }
        ensures left { let t = table_of_node (node_of_message message.entry) in
            IfOk result (λ w. walk_left w ≡ held_in_folder t name.now (message_roots message.entry)) }
        ensures over { IfOk result (IsWalkOver (table_of_node (node_of_message message.entry))) }
    {
        let folder = folder_in(alloc, name, message.nid())?;
        let tasks = vec![in alloc; Task::Message(folder, message, LEVELS)]?;
        Ok(Walk { alloc, tasks })
    }

    // The message that an attachment in this folder embeds is to be gone through, where it embeds one.
    fn put_embedded(
        &mut self,
        folder: &str,
        attachment: Attachment<'a>,
        levels: u32,
        index: &NodeIndexes,
    ) -> Result<(), AllocError>
        requires { AreNodeIndexes (table_of_node (node_of_attachment attachment)) index.now }
        ensures left { let node = node_of_attachment attachment.entry in
            let t = table_of_node node in let r = roots_of node in
            let named = option_map (object_shown t r) (embedded_of t r) in
            OnOk result (walk_left self.new
            ≡ embedded_held (nested_held t levels) folder.now named ++ walk_left self.old) }
        ensures over { (t : Table) → IsWalkOver t self.old →
            table_of_node (node_of_attachment attachment.entry) ≡ t →
            OnOk result (IsWalkOver t self.new) }
    {
        if levels == 0 {
            return Ok(());
        }
        if let Some(message) = attachment.embedded_by(index) {
            let inner = folder_in(self.alloc, folder, message.nid())?;
            self.tasks.push(Task::Message(inner, message, levels - 1))?;
        }
        Ok(())
    }

    // A message: its attachments are to be gone through behind it.
    fn enter(
        &mut self,
        folder: String,
        message: Message<'a>,
        levels: u32,
        index: &mut NodeIndexes,
    ) -> Result<Item<'a>, AllocError>
        requires { AreNodeIndexes (table_of_node (node_of_message message)) index.old }
        ensures index { AreNodeIndexes (table_of_node (node_of_message message.entry)) index.new }
        ensures left { let task = Whole folder message.entry levels in
            IfOk result (λ i. task_left task ++ walk_left self.old ≡ item_held i ∷ walk_left self.new) }
        ensures over { (t : Table) → IsWalkOver t self.old →
            table_of_node (node_of_message message.entry) ≡ t →
            IfOk result (λ i. IsWalkOver t self.new × IsItemOver t i) }
    {
        let again = folder.clone()?;
        turn_to_attachments(self.alloc, message, index)?;
        self.tasks
            .push(Task::Rest(again, message.attachments_by(index), levels))?;
        Ok(Item {
            folder,
            holder: Holder::Message(message),
        })
    }

    // The first of the attachments that are left of a message, if one is.
    fn go_on(
        &mut self,
        folder: String,
        rest: Attachments<'a>,
        levels: u32,
        index: &mut NodeIndexes,
    ) -> Result<Option<Item<'a>>, AllocError>
        requires { AreNodeIndexes (table_of_node (holder_left rest)) index.old }
        ensures index { AreNodeIndexes (table_of_node (holder_left rest.entry)) index.new }
        ensures left { let task = Behind folder rest.entry levels in
            IfOk result (λ i. Begins i task self.old self.new) }
        ensures over { (t : Table) → IsWalkOver t self.old →
            table_of_node (holder_left rest.entry) ≡ t → IfOk result (λ i. StaysOver i t self.new) }
    {
        let mut rest = rest;
        let Some(attachment) = rest.next_by(index) else {
            return Ok(None);
        };
        let inner = folder_in(self.alloc, &folder, attachment.nid())?;
        self.tasks.push(Task::Rest(folder, rest, levels))?;
        index.turn(self.alloc, attachment.node(), 1)?;
        self.put_embedded(&inner, attachment, levels, index)?;
        Ok(Some(Item {
            folder: inner,
            holder: Holder::Attachment(attachment),
        }))
    }

    // What a task begins with, if it has something; what is behind that is to be gone through.
    fn begin(
        &mut self,
        task: Task<'a>,
        index: &mut NodeIndexes,
    ) -> Result<Option<Item<'a>>, AllocError>
        requires { AreNodeIndexes (table_of_node (task_node task)) index.old }
        ensures index { AreNodeIndexes (table_of_node (task_node task.entry)) index.new }
        ensures left { IfOk result (λ i. Begins i task.entry self.old self.new) }
        ensures over { (t : Table) → IsWalkOver t self.old →
            table_of_node (task_node task.entry) ≡ t → IfOk result (λ i. StaysOver i t self.new) }
    {
        match task {
            Task::Message(folder, message, levels) => {
                Ok(Some(self.enter(folder, message, levels, index)?))
            }
            Task::Rest(folder, rest, levels) => self.go_on(folder, rest, levels, index),
        }
    }

    /// The next message or attachment, if one is left.
    #[tactic(auto, using(crate::proofs::WalkLemmas::nothing_left))]
    pub(crate) fn next(&mut self, index: &mut NodeIndexes) -> Result<Option<Item<'a>>, AllocError>
        requires { (t : Table) × IsWalkOver t self.old × AreNodeIndexes t index.old }
        ensures index { (t : Table) → IsWalkOver t self.old → AreNodeIndexes t index.old →
            AreNodeIndexes t index.new }
        ensures left { IfOk result (λ i. TakesHeld i (walk_left self.old) (walk_left self.new)) }
        ensures over { (t : Table) → IsWalkOver t self.old →
            IfOk result (λ i. StaysOver i t self.new) }
    {
        while let Some(task) = self.tasks.pop() {
            let item = self.begin(task, index)?;
            if item.is_some() {
                return Ok(item);
            }
        }
        Ok(None)
    }
}
