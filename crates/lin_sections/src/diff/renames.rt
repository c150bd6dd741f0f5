//! The things that have another name in the new LDF. They are found kind by kind, because the key of a
//! thing contains the new names of things of earlier kinds.

ghost use Rattle.std.specs.Prelude.{◌≡◌, IfOk, OnOk};
ghost use Rattle.lin_sections.specs.NewNames.{any_name, keyed_names, new_names, no_renames};
ghost use Rattle.lin_sections.specs.NewNames.{renames_data};
ghost use Rattle.lin_sections.specs.Renames.{name_texts, RenamesBy};
ghost use Rattle.lin_sections.specs.Renames.{all_renames, with_encoding_names, with_event_names, with_frame_names};
ghost use Rattle.lin_sections.specs.Renames.{with_node_names, with_signal_names, with_sporadic_names, with_table_names};
ghost use Rattle.lin_sections.specs.Things.{compared_data, IsReadOf};
ghost use Rattle.lin_sections.specs.NewNames.{AddsNames};

use crate::diff::compared::LdfFacts;
use crate::diff::new_names::{Keyed, NewNames};
use crate::diff::{encoding_facts, frame_facts, node_facts, signal_facts, table_facts};
use lin_cluster::Named;
use std::alloc::{AllocError, Global};

/// The new names of the old LDF's things by kind. Frames of all kinds share one collection.
pub(crate) struct Renames<'a> {
    pub(crate) nodes: NewNames<'a>,
    pub(crate) frames: NewNames<'a>,
    pub(crate) signals: NewNames<'a>,
    pub(crate) tables: NewNames<'a>,
    pub(crate) encodings: NewNames<'a>,
}

// Written by hand, so that its owners drop it in one step.
impl<'a> Drop for Renames<'a> {
    fn drop(self) {
        let Renames {
            nodes: _nodes,
            frames: _frames,
            signals: _signals,
            tables: _tables,
            encodings: _encodings,
        } = self;
    }
}

/// Two LDFs, and renames that change no name.
#[derive(Clone, Copy)]
struct Ldfs<'l, 'a> {
    old: &'l LdfFacts<'a>,
    new: &'l LdfFacts<'a>,
    none: &'l Renames<'a>,
}

/// Adds the new names of the things of a kind. Only the names of things with keys can change.
fn add_names<'a, T: Named>(
    alloc: Global,
    names: &mut NewNames<'a>,
    all: &'a [T],
    olds: &Vec<Keyed<'a>>,
    news: &Vec<Keyed<'a>>,
) -> Result<(), AllocError>
    ensures { OnOk result (AddsNames names.old names.new
        (new_names (name_texts T.name_of all.now) (keyed_names olds.now.items) (keyed_names news.now.items))) }
{
    names.add_renamed(alloc, olds.as_slice(), news.as_slice())?;
    names.add_all(all)
}

impl<'a> Renames<'a> {
    /// Makes renames that change no name.
    pub(crate) fn none(alloc: Global) -> Result<Renames<'a>, AllocError>
        ensures { IfOk result (λ r. renames_data r ≡ no_renames) }
    {
        Ok(Renames {
            nodes: NewNames::new(alloc)?,
            frames: NewNames::new(alloc)?,
            signals: NewNames::new(alloc)?,
            tables: NewNames::new(alloc)?,
            encodings: NewNames::new(alloc)?,
        })
    }

    /// Returns the new name of a node, a frame or a signal. The first kind that knows the word decides;
    /// otherwise the word doesn't change.
    pub(crate) fn any(&self, word: &'a [u8]) -> &'a [u8]
        ensures { result.now ≡ any_name (renames_data self.now) word.now }
    {
        if let Some(name) = self.nodes.get(word) {
            return name;
        }
        if let Some(name) = self.frames.get(word) {
            return name;
        }
        self.signals.of(word)
    }

    fn add_nodes(&mut self, alloc: Global, ldfs: Ldfs<'_, 'a>) -> Result<(), AllocError>
        ensures { OnOk result (RenamesBy with_node_names ldfs.entry self.old self.new) }
    {
        let Ldfs { old, new, .. } = ldfs;
        let olds = node_facts::keys(alloc, old, new)?;
        let news = node_facts::keys(alloc, new, old)?;
        self.nodes
            .add_renamed(alloc, olds.as_slice(), news.as_slice())?;
        let description = old.ldf.description;
        self.nodes.add(description.master().text.as_slice())?;
        self.nodes.add_all(description.slaves())
    }

    fn add_frames(&mut self, alloc: Global, ldfs: Ldfs<'_, 'a>) -> Result<(), AllocError>
        ensures { OnOk result (RenamesBy with_frame_names ldfs.entry self.old self.new) }
    {
        let Ldfs { old, new, .. } = ldfs;
        let olds = frame_facts::keys(alloc, old, new)?;
        let news = frame_facts::keys(alloc, new, old)?;
        add_names(
            alloc,
            &mut self.frames,
            old.ldf.description.frames(),
            &olds,
            &news,
        )
    }

    fn add_events(&mut self, alloc: Global, ldfs: Ldfs<'_, 'a>) -> Result<(), AllocError>
        ensures { OnOk result (RenamesBy with_event_names ldfs.entry self.old self.new) }
    {
        let Ldfs { old, new, .. } = ldfs;
        let olds = frame_facts::event_keys(alloc, old, new)?;
        let news = frame_facts::event_keys(alloc, new, old)?;
        add_names(
            alloc,
            &mut self.frames,
            old.ldf.description.events(),
            &olds,
            &news,
        )
    }

    fn add_signals(&mut self, alloc: Global, ldfs: Ldfs<'_, 'a>) -> Result<(), AllocError>
        requires { renames_data ldfs.none.now ≡ no_renames }
        ensures { OnOk result (RenamesBy with_signal_names ldfs.entry self.old self.new) }
    {
        let Ldfs { old, new, none } = ldfs;
        let olds = signal_facts::keys(alloc, old, new, self)?;
        let news = signal_facts::keys(alloc, new, old, none)?;
        add_names(
            alloc,
            &mut self.signals,
            old.ldf.description.signals(),
            &olds,
            &news,
        )
    }

    fn add_sporadics(&mut self, alloc: Global, ldfs: Ldfs<'_, 'a>) -> Result<(), AllocError>
        requires { renames_data ldfs.none.now ≡ no_renames }
        ensures { OnOk result (RenamesBy with_sporadic_names ldfs.entry self.old self.new) }
    {
        let Ldfs { old, new, none } = ldfs;
        let olds = frame_facts::sporadic_keys(alloc, old, new, self)?;
        let news = frame_facts::sporadic_keys(alloc, new, old, none)?;
        add_names(
            alloc,
            &mut self.frames,
            old.ldf.description.sporadic(),
            &olds,
            &news,
        )
    }

    fn add_tables(&mut self, alloc: Global, ldfs: Ldfs<'_, 'a>) -> Result<(), AllocError>
        requires { renames_data ldfs.none.now ≡ no_renames }
        ensures { OnOk result (RenamesBy with_table_names ldfs.entry self.old self.new) }
    {
        let Ldfs { old, new, none } = ldfs;
        let olds = table_facts::keys(alloc, old, new, self)?;
        let news = table_facts::keys(alloc, new, old, none)?;
        add_names(
            alloc,
            &mut self.tables,
            old.ldf.description.tables(),
            &olds,
            &news,
        )
    }

    fn add_encodings(&mut self, alloc: Global, ldfs: Ldfs<'_, 'a>) -> Result<(), AllocError>
        requires old { IsReadOf ldfs.old.now }
        requires new { IsReadOf ldfs.new.now }
        ensures { OnOk result (RenamesBy with_encoding_names ldfs.entry self.old self.new) }
    {
        let Ldfs { old, new, .. } = ldfs;
        let olds = encoding_facts::keys(alloc, old, new)?;
        let news = encoding_facts::keys(alloc, new, old)?;
        add_names(
            alloc,
            &mut self.encodings,
            old.ldf.codings.types.as_slice(),
            &olds,
            &news,
        )
    }

    /// Finds the new names of all things. `none` changes no name.
    pub(crate) fn find(
        alloc: Global,
        old: &LdfFacts<'a>,
        new: &LdfFacts<'a>,
        none: &Renames<'a>,
    ) -> Result<Renames<'a>, AllocError>
        requires old { IsReadOf old.now }
        requires new { IsReadOf new.now }
        requires none { renames_data none.now ≡ no_renames }
        ensures { IfOk result (λ r. renames_data r
            ≡ all_renames (compared_data old.now.ldf) (compared_data new.now.ldf)) }
    {
        let mut renames = Renames::none(alloc)?;
        let ldfs = Ldfs { old, new, none };
        renames.add_nodes(alloc, ldfs)?;
        renames.add_frames(alloc, ldfs)?;
        renames.add_events(alloc, ldfs)?;
        renames.add_signals(alloc, ldfs)?;
        renames.add_sporadics(alloc, ldfs)?;
        renames.add_tables(alloc, ldfs)?;
        renames.add_encodings(alloc, ldfs)?;
        Ok(renames)
    }
}
