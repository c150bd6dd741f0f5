//! The encodings of signals: which one each has, and what is wrong with what the sections say.

ghost use Rattle.std.specs.Prelude.{◌≡◌, ◌&&◌, ◌++◌, ◌<◌, [], ℕ, List, flat_map, length, map, IfOk};
ghost use Rattle.std.specs.Prelude.{MatchOption, OnOk, Some, None, is_some, not, option_map};
ghost use Rattle.std.specs.Prelude.{if◌then◌else◌, IsPermutation, IsSorted};
ghost use Rattle.std.specs.Option.{option_or};
ghost use Rattle.std.specs.Str.{bytes_eq};
ghost use Rattle.lin_cluster.specs.Findings.{finding_cmp};
ghost use Rattle.lin_cluster.specs.FindingsNames.{at_place};
ghost use Rattle.lin_cluster.specs.declared.finding.FindingKind.TheVariants.{BadEncoding};
ghost use Rattle.lin_cluster.specs.Names.{NumbersFirst, under};
ghost use Rattle.lin_parts.specs.Cluster.{signal_of};
ghost use Rattle.lin_parts.specs.declared.description.Name.{Name};
ghost use Rattle.lin_values.specs.Coded.{coded_signals, encoding_of, named_in, signal_at};
ghost use Rattle.lin_values.specs.Gathered.{signal_codings, encoding_in, gathered_warnings, is_other_kind, kind_told};
ghost use Rattle.lin_values.specs.Gathered.{lines_told, names_of, told_of_kind, told_of_name, type_at, type_number};
ghost use Rattle.lin_values.specs.Gathered.{signal_without_coding, AddsNamed, AreNamed, AreSignalsByName, AreSignalsIn};
ghost use Rattle.lin_values.specs.Gathered.{TellsLine};
ghost use Rattle.lin_values.specs.Kept.{kept_signal, HasValuesAs};
ghost use Rattle.lin_values.specs.Warnings.{item_warnings, greatest_number, greatest_raw, signal_by_name, told_by};
ghost use Rattle.lin_values.specs.Warnings.{type_warning, encoding_warnings};

use crate::codings::{CodedLine, CodingType, Codings};
use crate::encoding::{Encoding, Traits};
use indexmap::IndexMap;
use lin_cluster::{
    Finding, FindingKind, Named, Numbers, at_name, number_by, numbers_of, push_when,
};
use lin_frame::Value;
use lin_parts::description::Name;
use lin_parts::{Cluster, Location};
use lin_text::Many;
use std::alloc::{AllocError, Global};
use std::marker::Model;

impl Named for Encoding {
    ghost name_of = { λ e. e.name };

    fn name(&self) -> &Name {
        &self.coding().name
    }
}

/// A signal: how many bits it has, whether it is an array, whether that is a wide signal, whose values
/// are numbers, and the number of its encoding.
#[derive(Clone, Copy, Debug)]
pub struct CodedSignal {
    pub bits: u8,
    pub is_array: bool,
    pub is_wide: bool,
    encoding: Option<usize>,
}

impl CodedSignal {
    /// Whether the signal is an array whose values are numbers.
    pub(crate) fn is_wide_array(self) -> bool
        ensures { result ≡ (self.is_array && self.is_wide) }
    {
        self.is_array && self.is_wide
    }
}

/// What the signals of a cluster mean. Contracts see the encodings, and that of each signal.
pub struct Coded {
    encodings: Many<Encoding>,
    signals: Many<CodedSignal>,
}

impl Model for Coded {
    ghost use Rattle.lin_values.specs.Coded.{CodedData};
    ghost use Rattle.lin_values.specs.Kept.{coded_data};

    ghost Value = { CodedData };

    ghost view = { coded_data };
}

// (written out, so that an owner has one call)
impl Drop for Coded {
    fn drop(self) {
        let Coded {
            encodings: _encodings,
            signals: _signals,
        } = self;
    }
}

/// The number of the encoding of each name among lines, by the first line that has it.
pub struct NamedSignals<'a> {
    pub map: IndexMap<&'a [u8], Option<usize>>,
}

// (written out, so that an owner has one call)
impl<'a> Drop for NamedSignals<'a> {
    fn drop(self) {
        let NamedSignals { map: _map } = self;
    }
}

impl<'a> NamedSignals<'a> {
    /// Returns the number of the encoding of the signal with this name, or `None` if no line gives it a declared
    /// encoding.
    pub fn encoding_of(&self, name: &[u8]) -> Option<usize>
        ensures { result ≡ encoding_in self.now.map name.now }
    {
        match self.map.get(&name) {
            Some(encoding) => *encoding,
            None => None,
        }
    }
}

/// Gives a name what it names, and says so, where it names nothing yet.
pub fn put_first<'a, V: Copy>(
    map: &mut IndexMap<&'a [u8], V>,
    name: &'a [u8],
    value: V,
) -> Result<bool, AllocError>
    ensures first { IfOk result
        (λ is_first. is_first ≡ not (is_some (under map.old name.now))) }
    ensures put { OnOk result ((q : List ℕ) → under map.new q
        ≡ option_or (under map.old q) (if bytes_eq name.now q then Some value else None)) }
{
    if map.contains_key(&name) {
        return Ok(false);
    }
    map.insert(name, value)?;
    Ok(true)
}

/// A signal of a cluster, without an encoding. `wide` are the names of wide signals.
fn uncoded(cluster: &Cluster, signal: u16, wide: &Numbers<'_>) -> CodedSignal
    requires { signal < length cluster.now.signals }
    ensures { (names : List Name) → NumbersFirst (λ n. n) names wide.now.map
        → result ≡ signal_without_coding names (signal_of cluster.now signal) }
{
    let is_array = match cluster.initial(signal) {
        Value::Scalar(_) => false,
        Value::Bytes(_) => true,
    };
    CodedSignal {
        bits: cluster.signal_size(signal),
        is_array,
        is_wide: is_array && wide.map.contains_key(&cluster.signal_name(signal)),
        encoding: None,
    }
}

/// The signals of a cluster by their names. `wide` are the names of wide signals.
fn signals_by_name<'a>(
    alloc: Global,
    cluster: &'a Cluster,
    wide: &Numbers<'_>,
) -> Result<IndexMap<&'a [u8], CodedSignal>, AllocError>
    ensures { IfOk result (λ m. (names : List Name) → NumbersFirst (λ n. n) names wide.now.map
        → AreSignalsByName names cluster.now m) }
{
    let mut signals = IndexMap::with_capacity(alloc, cluster.signals())?;
    for signal in 0..cluster.signals() as u16 {
        put_first(
            &mut signals,
            cluster.signal_name(signal),
            uncoded(cluster, signal, wide),
        )?;
    }
    Ok(signals)
}

/// The signals of a cluster, each with the encoding that its name has. `wide` are the names of wide
/// signals.
fn all_signals(
    alloc: Global,
    cluster: &Cluster,
    wide: &Numbers<'_>,
    named: &NamedSignals<'_>,
) -> Result<Vec<CodedSignal>, AllocError>
    ensures { IfOk result (λ v. AreSignalsIn wide.now.map named.now.map cluster.now v.items) }
{
    let mut signals = Vec::with_capacity(alloc, cluster.signals())?;
    for signal in 0..cluster.signals() as u16 {
        let encoding = named.encoding_of(cluster.signal_name(signal));
        signals.push(CodedSignal {
            encoding,
            ..uncoded(cluster, signal, wide)
        })?;
    }
    Ok(signals)
}

/// The greatest number that so many bits hold, 16 at most.
pub(crate) fn most_of(bits: u8) -> u16
    ensures { result ≡ greatest_raw bits }
{
    if bits >= 16 {
        65_535
    } else {
        (1u16 << bits) - 1
    }
}

/// The greatest number of a scalar or a wide signal.
fn greatest_number(signal: CodedSignal) -> u64
    ensures { result ≡ greatest_number signal.bits signal.is_wide }
{
    if signal.is_wide {
        ((1u128 << signal.bits.min(64)) - 1) as u64
    } else {
        u64::from(most_of(signal.bits))
    }
}

/// Whether an encoding's items are of another kind than a signal: numbers for an array that isn't wide,
/// digits or characters for a number that isn't whole ones.
fn is_other_kind(traits: Traits, signal: CodedSignal) -> bool
    ensures { result ≡ is_other_kind traits signal }
{
    if signal.is_array && !signal.is_wide {
        return traits.is_numeric;
    }
    traits.breaks(signal.bits)
}

/// What is wrong between a signal and its encoding, at its name.
fn add_signal_warnings(
    warned: &mut Vec<Finding>,
    traits: Traits,
    signal: CodedSignal,
    name: &Name,
) -> Result<(), AllocError>
    ensures { OnOk result
        (warned.new.items ≡ warned.old.items ++ told_of_kind traits signal name.now) }
{
    let has_numbers = !signal.is_array || signal.is_wide;
    if has_numbers && traits.is_numeric && traits.greatest > greatest_number(signal) {
        warned.push(at_name(FindingKind::ValueOutside, name))?;
    }
    if is_other_kind(traits, signal) {
        warned.push(at_name(FindingKind::KindOfSignal, name))?;
    }
    Ok(())
}

/// The encodings and the signals of a cluster, found by their names. Contracts see the types, the cluster's
/// parts and the names of wide signals.
struct Declared<'a> {
    cluster: &'a Cluster,
    wide: &'a [Name],
    encodings: &'a [Encoding],
    numbers: Numbers<'a>,
    signals: IndexMap<&'a [u8], CodedSignal>,
}

impl<'a> Model for Declared<'a> {
    ghost use Rattle.lin_values.specs.Gathered.{DeclaredData, IsDeclared};

    ghost Value = { DeclaredData };

    ghost view = { λ d. record { types = d.encodings.now; parts = d.cluster.now; wide = d.wide.now } };

    ghost invariant = { λ d. IsDeclared d.cluster.now d.wide.now d.encodings.now d.numbers.map d.signals };
}

// (written out, so that an owner has one call)
impl<'a> Drop for Declared<'a> {
    fn drop(self) {
        let Declared {
            cluster: _,
            wide: _,
            encodings: _,
            numbers: _numbers,
            signals: _signals,
        } = self;
    }
}

impl<'a> Declared<'a> {
    fn new(
        alloc: Global,
        encodings: &'a [Encoding],
        cluster: &'a Cluster,
        wide: &'a [Name],
    ) -> Result<Declared<'a>, AllocError>
        ensures types { IfOk result (λ d. d.types ≡ encodings.now) }
        ensures parts { IfOk result (λ d. d.parts ≡ cluster.now) }
        ensures wide { IfOk result (λ d. d.wide ≡ wide.now) }
    {
        let numbers = numbers_of(alloc, encodings)?;
        let names = numbers_of(alloc, wide)?;
        let signals = signals_by_name(alloc, cluster, &names)?;
        Ok(Declared {
            cluster,
            wide,
            encodings,
            numbers,
            signals,
        })
    }

    /// The number of the encoding that has a name.
    fn encoding_named(&self, name: &Name) -> Option<usize>
        ensures { result ≡ type_number self.now.types name.now }
    {
        let number = number_by(&self.numbers, self.encodings, name);
        if number < self.encodings.len() {
            Some(number)
        } else {
            None
        }
    }

    /// The encoding with a number.
    fn encoding_at(&self, number: Option<usize>) -> Option<&Encoding>
        ensures { option_map (λ e. e.now) result ≡ type_at self.now.types number }
    {
        match number {
            Some(number) => self.encodings.get(number),
            None => None,
        }
    }

    /// The signal that has a name.
    fn signal_named(&self, name: &Name) -> Option<CodedSignal>
        ensures { result
            ≡ option_map (signal_without_coding self.now.wide) (signal_by_name self.now.parts name.now) }
    {
        self.signals.get(&name.text.as_slice()).copied()
    }

    /// What is wrong between a signal and the encoding with a number.
    fn add_kind(
        &self,
        encoding: Option<usize>,
        signal: CodedSignal,
        name: &Name,
        warned: &mut Vec<Finding>,
    ) -> Result<(), AllocError>
        ensures { OnOk result (warned.new.items ≡ warned.old.items
            ++ kind_told (type_at self.now.types encoding) signal name.now) }
    {
        if let Some(encoding) = self.encoding_at(encoding) {
            add_signal_warnings(warned, encoding.traits(), signal, name)?;
        }
        Ok(())
    }

    /// What is wrong with a name that a line has first, or not: of a signal or none.
    fn add_warnings(
        &self,
        is_first: bool,
        encoding: Option<usize>,
        name: &Name,
        warned: &mut Vec<Finding>,
    ) -> Result<(), AllocError>
        ensures { OnOk result
            (warned.new.items ≡ warned.old.items ++ told_of_name self.now is_first encoding name.now) }
    {
        match self.signal_named(name) {
            None => warned.push(at_name(FindingKind::UnknownSignal, name))?,
            Some(_) if !is_first => warned.push(at_name(FindingKind::RepresentedTwice, name))?,
            Some(signal) => self.add_kind(encoding, signal, name, warned)?,
        }
        Ok(())
    }

    /// The names of a line have its encoding, where no earlier line has them.
    fn add_line<'n>(
        &self,
        named: &mut NamedSignals<'n>,
        line: &'n CodedLine,
        warned: &mut Vec<Finding>,
    ) -> Result<(), AllocError>
        ensures named { OnOk result
            (AddsNamed self.now.types (names_of line.now) named.old.map named.new.map) }
        ensures warned { OnOk result
            (TellsLine self.now line.now named.old.map warned.old.items warned.new.items) }
    {
        let encoding = self.encoding_named(&line.encoding);
        push_when(
            warned,
            encoding.is_none(),
            at_name(FindingKind::UnknownEncoding, &line.encoding),
        )?;
        for name in line.signals.as_slice() {
            let is_first = put_first(&mut named.map, name.text.as_slice(), encoding)?;
            self.add_warnings(is_first, encoding, name, warned)?;
        }
        Ok(())
    }

    /// The encodings of the names of lines, and what is wrong with them.
    fn add_lines<'n>(
        &self,
        alloc: Global,
        lines: &'n [CodedLine],
        warned: &mut Vec<Finding>,
    ) -> Result<NamedSignals<'n>, AllocError>
        ensures named { IfOk result
            (λ n. AreNamed self.now.types (named_in lines.now) n.map) }
        ensures warned { OnOk result (warned.new.items ≡ warned.old.items
            ++ lines_told self.now.parts self.now.wide self.now.types [] lines.now) }
    {
        let mut named = NamedSignals {
            map: IndexMap::with_capacity(alloc, 0)?,
        };
        for line in lines {
            self.add_line(&mut named, line, warned)?;
        }
        Ok(named)
    }

    /// Encodings whose name an earlier one has.
    fn add_twice(&self, warned: &mut Vec<Finding>) -> Result<(), AllocError>
        ensures { OnOk result
            (warned.new.items ≡ warned.old.items ++ told_by type_warning [] self.now.types) }
    {
        for number in 0..self.encodings.len() {
            let name = self.encodings[number].name();
            let first = number_by(&self.numbers, self.encodings, name);
            push_when(
                warned,
                first < number,
                at_name(FindingKind::EncodingTwice, name),
            )?;
        }
        Ok(())
    }
}

/// The encoding of each signal, and what is wrong with the lines. `wide` are the names of wide signals.
fn coded_signals(
    alloc: Global,
    cluster: &Cluster,
    wide: &[Name],
    encodings: &[Encoding],
    lines: &[CodedLine],
    warned: &mut Vec<Finding>,
) -> Result<Vec<CodedSignal>, AllocError>
    ensures signals { IfOk result (λ v. map (kept_signal encodings.now) v.items
        ≡ signal_codings cluster.now wide.now encodings.now lines.now) }
    ensures warned { OnOk result (warned.new.items
        ≡ warned.old.items ++ gathered_warnings cluster.now wide.now encodings.now lines.now) }
{
    let declared = Declared::new(alloc, encodings, cluster, wide)?;
    declared.add_twice(warned)?;
    let named = declared.add_lines(alloc, lines, warned)?;
    let names = numbers_of(alloc, wide)?;
    let signals = all_signals(alloc, cluster, &names, &named)?;
    Ok(signals)
}

/// An encoding of each type, and what is wrong with their items.
fn all_encodings(
    alloc: Global,
    types: Many<CodingType>,
    warned: &mut Vec<Finding>,
) -> Result<Vec<Encoding>, AllocError>
    ensures same { IfOk result (λ v. v.items ≡ types) }
    ensures warned { OnOk result (warned.new.items
        ≡ warned.old.items ++ flat_map (λ t. item_warnings t.items) types) }
{
    let mut encodings = Vec::new(alloc);
    for one in types.into_vec() {
        encodings.push(Encoding::new(alloc, one, warned)?)?;
    }
    Ok(encodings)
}

/// Where items and lines stand that are in no form.
fn add_bad(warned: &mut Vec<Finding>, bad: &[Location]) -> Result<(), AllocError>
    ensures { OnOk result
        (warned.new.items ≡ warned.old.items ++ map (at_place BadEncoding) bad.now) }
{
    for place in bad {
        warned.push(Finding::new(FindingKind::BadEncoding, *place))?;
    }
    Ok(())
}

/// What the signals of a cluster mean, by what the two sections say; and what is wrong with these,
/// by place and then by number.
///
/// An error means out of memory.
pub fn coded_by(
    alloc: Global,
    cluster: &Cluster,
    codings: Codings,
) -> Result<(Coded, Many<Finding>), AllocError>
    ensures coded { IfOk result (λ r. r.0 ≡ coded_signals cluster.now codings) }
    ensures warnings { IfOk result (λ r. IsPermutation (encoding_warnings cluster.now codings) r.1) }
    ensures ordered { IfOk result (λ r. IsSorted finding_cmp r.1) }
{
    let Codings {
        types,
        lines,
        bad,
        wide,
    } = codings;
    let mut warned = Vec::new(alloc);
    add_bad(&mut warned, bad.as_slice())?;
    let encodings = all_encodings(alloc, types, &mut warned)?;
    let signals = coded_signals(
        alloc,
        cluster,
        wide.as_slice(),
        encodings.as_slice(),
        lines.as_slice(),
        &mut warned,
    )?;
    warned.sort()?;
    let coded = Coded {
        encodings: Many::new(encodings),
        signals: Many::new(signals),
    };
    Ok((coded, Many::new(warned)))
}

impl Coded {
    /// A signal by its number.
    pub(crate) fn signal(&self, signal: u16) -> Option<CodedSignal>
        ensures { MatchOption result (encoding_of self.now signal ≡ None)
            (HasValuesAs (signal_at self.now signal)) }
    {
        self.signals.as_slice().get(usize::from(signal)).copied()
    }

    /// Whether a signal is wide: an array whose values are numbers.
    pub fn is_wide(&self, signal: u16) -> bool
        ensures { result ≡ (signal_at self.now signal).is_wide }
    {
        match self.signals.as_slice().get(usize::from(signal)) {
            Some(known) => known.is_wide,
            None => false,
        }
    }

    /// The encoding of a signal.
    pub fn encoding_of(&self, signal: u16) -> Option<&Encoding>
        ensures { option_map (λ e. e.now) result ≡ encoding_of self.now signal }
    {
        let Some(signal) = self.signals.as_slice().get(usize::from(signal)) else {
            return None;
        };
        match signal.encoding {
            Some(number) => self.encodings.as_slice().get(number),
            None => None,
        }
    }
}
