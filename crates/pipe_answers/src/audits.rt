//! The text of audits.

ghost use Rattle.std.specs.Prelude.{◌≡◌, ◌++◌, OnOk};
ghost use Rattle.std.specs.List.{flat_map};
ghost use Rattle.pipe_answers.specs.AuditTexts as texts;

use itoa::Buffer;
use par_laws::Memory;
use par_task::{Audit, Leaf};
use std::alloc::Global;

/// What a step of a pipeline tells of its job.
#[derive(Drop)]
pub struct StageAudit {
    /// The number of the step; the source is step 1.
    pub stage: u32,
    /// The first word of the step.
    pub name: &'static str,
    /// How many items its job had.
    pub items: u32,
    /// The leaves of the job.
    pub audit: Audit,
}

// A word, and a number in decimal.
#[tactic(auto, unfolding(crate::specs::AuditTexts::worded))]
fn add(text: &mut Vec<u8>, word: &str, number: u64) -> Result<(), Memory>
    ensures { OnOk result (text.new.items ≡ text.old.items ++ texts.worded word.now number) }
{
    let mut digits = Buffer::new();
    text.extend_from_slice(word.as_bytes())?;
    text.extend_from_slice(digits.format(number).as_bytes())?;
    Ok(())
}

// Which items a leaf had.
fn add_place(text: &mut Vec<u8>, leaf: &Leaf) -> Result<(), Memory>
    ensures { OnOk result (text.new.items ≡ text.old.items ++ texts.place_text leaf.now) }
{
    add(text, "leaf ", u64::from(leaf.node))?;
    add(text, " ", u64::from(leaf.lo))?;
    add(text, " ", u64::from(leaf.hi))?;
    Ok(())
}

// Who ran it, when, and what it saw and tested.
fn add_run(text: &mut Vec<u8>, leaf: &Leaf) -> Result<(), Memory>
    ensures { OnOk result (text.new.items ≡ text.old.items ++ texts.run_text leaf.now) }
{
    add(text, " seat ", u64::from(leaf.seat))?;
    add(text, " turn ", u64::from(leaf.turn))?;
    add(text, " flag ", u64::from(leaf.flag))?;
    add(text, " tested ", leaf.tested)?;
    Ok(())
}

// A leaf, in its line.
fn add_leaf(text: &mut Vec<u8>, leaf: &Leaf) -> Result<(), Memory>
    ensures { OnOk result (text.new.items ≡ text.old.items ++ texts.leaf_text leaf.now) }
{
    add_place(text, leaf)?;
    add_run(text, leaf)?;
    text.push(b'\n')?;
    Ok(())
}

// The line of a step.
fn add_stage(text: &mut Vec<u8>, audit: &StageAudit) -> Result<(), Memory>
    ensures { OnOk result (text.new.items ≡ text.old.items ++ texts.stage_text audit.now) }
{
    add(text, "stage ", u64::from(audit.stage))?;
    text.push(b' ')?;
    text.extend_from_slice(audit.name.as_bytes())?;
    add(text, " items ", u64::from(audit.items))?;
    add(text, " leaves ", audit.audit.leaves().len() as u64)?;
    text.push(b'\n')?;
    Ok(())
}

// The leaves, a line each.
fn add_leaves(text: &mut Vec<u8>, leaves: &[Leaf]) -> Result<(), Memory>
    ensures { OnOk result (text.new.items ≡ text.old.items ++ flat_map texts.leaf_text leaves.now) }
{
    for leaf in leaves {
        add_leaf(text, leaf)?;
    }
    Ok(())
}

// A step and its leaves.
fn add_audit(text: &mut Vec<u8>, audit: &StageAudit) -> Result<(), Memory>
    ensures { OnOk result (text.new.items ≡ text.old.items ++ texts.audit_text audit.now) }
{
    add_stage(text, audit)?;
    add_leaves(text, audit.audit.leaves())?;
    Ok(())
}

/// Adds the audits to a text, in order: for each a line `stage S NAME items N leaves L`, and then a line for each of the
/// `L` leaves, `leaf NODE LO HI seat S turn T flag F tested C`.
///
/// Linear in the leaves. For want of memory alone it stops, and the text may then have grown by a part of what is asked.
pub fn write_audits(text: &mut Vec<u8>, audits: &[StageAudit]) -> Result<(), Memory>
    ensures { OnOk result (text.new.items ≡ text.old.items ++ texts.audits_text audits.now) }
{
    for audit in audits {
        add_audit(text, audit)?;
    }
    Ok(())
}
