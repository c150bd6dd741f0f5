//! The comparison of two LDFs: their things with facts, and the differences between them.

ghost use Rattle.std.specs.Prelude.{◌≡◌, IfOk};
ghost use Rattle.lin_sections.specs.NewNames.{no_renames, renames_data};
ghost use Rattle.lin_sections.specs.Renames.{all_renames};
ghost use Rattle.lin_sections.specs.Things.{all_things, compared_data, IsReadOf};

mod chain;
mod compared;
mod difference;
mod difference_lines;
mod encoding_facts;
mod entry_pairs;
mod fact;
mod fact_pairs;
mod fact_text;
mod frame_facts;
mod header_facts;
mod index;
mod new_names;
mod node_facts;
mod numbering;
mod renames;
mod signal_facts;
mod sorted;
mod table_facts;
mod thing_pairs;
mod tokens;

use crate::diff::compared::LdfFacts;
use crate::diff::renames::Renames;
pub use compared::ComparedLdf;
pub use difference::Difference;
pub use difference_lines::{Classes, is_any_listed, write_differences};
pub use fact::{Bits, Class, EntryFact, Fact, Thing, ThingKind};
pub use fact_text::FactText;
use lin_text::Many;
use std::alloc::{AllocError, Global};
pub use thing_pairs::differences;

/// Returns the things of an LDF by kind. The things of a kind are in the order of the LDF. `renames` has
/// their new names.
fn things_of<'a>(
    alloc: Global,
    facts: &LdfFacts<'a>,
    renames: &Renames<'a>,
) -> Result<Vec<Many<Thing<'a>>>, AllocError>
    requires { IsReadOf facts.now }
    ensures { IfOk result (λ v. v.items
        ≡ all_things (compared_data facts.now.ldf) (renames_data renames.now)) }
{
    let mut headers = Vec::new(alloc);
    headers.push(header_facts::thing(alloc, facts)?)?;
    let mut kinds = Vec::new(alloc);
    kinds.push(Many::new(headers))?;
    kinds.push(Many::new(node_facts::things(alloc, facts, renames)?))?;
    kinds.push(Many::new(signal_facts::things(alloc, facts, renames)?))?;
    kinds.push(Many::new(frame_facts::things(alloc, facts, renames)?))?;
    kinds.push(Many::new(frame_facts::sporadic_things(alloc, facts, renames)?))?;
    kinds.push(Many::new(frame_facts::event_things(alloc, facts, renames)?))?;
    kinds.push(Many::new(table_facts::things(alloc, facts, renames)?))?;
    kinds.push(Many::new(encoding_facts::things(alloc, facts, renames)?))?;
    Ok(kinds)
}

/// Returns the things of two LDFs by kind. The things of a kind are in the order of their LDF. The new name
/// of a thing of the old LDF is its name in the new LDF.
///
/// An error means out of memory.
pub fn compared_things<'a>(
    alloc: Global,
    old: ComparedLdf<'a>,
    new: ComparedLdf<'a>,
) -> Result<(Vec<Many<Thing<'a>>>, Vec<Many<Thing<'a>>>), AllocError>
    ensures olds { IfOk result (λ r. r.0.items ≡ all_things (compared_data old.entry)
        (all_renames (compared_data old.entry) (compared_data new.entry))) }
    ensures news { IfOk result (λ r. r.1.items ≡ all_things (compared_data new.entry) no_renames) }
{
    let old = LdfFacts::new(alloc, old)?;
    let new = LdfFacts::new(alloc, new)?;
    let none = Renames::none(alloc)?;
    let renames = Renames::find(alloc, &old, &new, &none)?;
    let olds = things_of(alloc, &old, &renames)?;
    let news = things_of(alloc, &new, &none)?;
    Ok((olds, news))
}
