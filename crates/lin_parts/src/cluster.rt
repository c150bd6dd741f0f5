//! A cluster and its reads.

ghost use Rattle.std.specs.Prelude.{ℕ, ◌≡◌, ◌==◌, ◌+◌, ◌<◌, ◌≤◌, length, position, All, IfOk};
ghost use Rattle.std.specs.Prelude.{IfSome};
ghost use Rattle.std.specs.List.{list_any};
ghost use Rattle.std.specs.Str.{bytes_eq};
ghost use Rattle.lin_parts.specs.Cluster.{has_signal, nodes, nad, node_of, signal_of};
ghost use Rattle.lin_parts.specs.Cluster.{frame_of, named_sporadic, frame_name, sporadic_name};
ghost use Rattle.lin_parts.specs.Cluster.{event_name, entry_name, response_of};
ghost use Rattle.lin_parts.specs.Configured.{with_configuration};
ghost use Rattle.lin_parts.specs.Cluster.{frames_with, sporadic_of, event_of, named_table};
ghost use Rattle.lin_parts.specs.Cluster.{table_of, line_of, first_table};
ghost use Rattle.lin_parts.specs.Rules.{AreIdentities, IsCluster, IsDelay, IsEntry};
ghost use Rattle.lin_parts.specs.Sound.{IsSound};

use crate::carriers::all_carriers;
use crate::configured::with_requests;
use crate::parts::{
    Entry, ErrorSignal, EventFrame, Identity, Line, Node, Parts, Signal, SignalFrame,
    SporadicFrame, Table,
};
use crate::service::service_name;
use lin_frame::{Layout, SumKind, Value};
use lin_text::Many;
use std::alloc::{AllocError, Global};
use std::marker::Model;

/// A LIN cluster. Contracts see its parts. Nodes, signals, frames of each kind and tables are read
/// by their numbers, which begin at 0; each read's condition is that the number is in range, but for
/// the names of frames: there a number that no frame has gives no bytes.
pub struct Cluster {
    parts: Parts,
    carriers: Vec<Many<u16>>,
}

impl Model for Cluster {
    ghost use Rattle.lin_parts.specs.declared.parts.Parts.{Parts};

    ghost Value = { Parts };

    ghost view = { λ c. c.parts };

    ghost use Rattle.lin_parts.specs.Rules.{IsCluster};
    ghost use Rattle.lin_parts.specs.Carriers.{all_carriers};
    ghost use Rattle.std.specs.Prelude.{◌≡◌};

    ghost invariant = { λ c. IsCluster c.parts × (c.carriers.items ≡ all_carriers c.parts) };
}

// Written out, so that what owns a cluster lets it go in one step of its proof.
impl Drop for Cluster {
    fn drop(self) {
        let Cluster {
            parts: _parts,
            carriers: _carriers,
        } = self;
    }
}

// The place of the first of the tables with this name.
fn first_named(tables: &[Table], name: &[u8]) -> Option<usize>
    ensures place { result ≡ position (λ table. bytes_eq table.name name.now) tables.now }
    ensures range { IfSome result (λ table. table < length tables.now) }
{
    tables
        .iter()
        .position(|table| table.name.as_slice() == name)
}

impl Cluster {
    /// The cluster of these parts. The condition is that they keep the rules of every cluster;
    /// `check` makes such parts of a description.
    ///
    /// # Errors
    /// Out of memory; the parts are dropped then.
    pub fn new(alloc: Global, parts: Parts) -> Result<Cluster, AllocError>
        requires { IsCluster parts }
        ensures { IfOk result (λ cluster. cluster ≡ parts) }
    {
        let carriers = all_carriers(alloc, &parts)?;
        Ok(Cluster { parts, carriers })
    }

    /// What every cluster has: this call does nothing, and its caller knows the rules of clusters
    /// of this one.
    pub fn sound(&self)
        ensures rules { IsCluster self.now }
        ensures sound { IsSound self.now }
        ensures identifiers { length self.now.frames + length self.now.events ≤ 60 }
    {
        let _parts = &self.parts;
    }

    fn node(&self, node: u8) -> &Node
        requires { node < nodes self.now }
        ensures { result.now ≡ node_of self.now node }
    {
        &self.parts.nodes.as_slice()[node as usize]
    }

    fn signal(&self, signal: u16) -> &Signal
        requires { signal < length self.now.signals }
        ensures { result.now ≡ signal_of self.now signal }
    {
        &self.parts.signals.as_slice()[signal as usize]
    }

    fn frame(&self, frame: u16) -> &SignalFrame
        requires { frame < length self.now.frames }
        ensures { result.now ≡ frame_of self.now frame }
    {
        &self.parts.frames.as_slice()[frame as usize]
    }

    fn sporadic_frame(&self, sporadic: u16) -> &SporadicFrame
        requires { sporadic < length self.now.sporadic }
        ensures { result.now ≡ named_sporadic self.now sporadic }
    {
        &self.parts.sporadic.as_slice()[sporadic as usize]
    }

    fn event(&self, event: u16) -> &EventFrame
        requires { event < length self.now.events }
        ensures { result.now ≡ event_of self.now event }
    {
        &self.parts.events.as_slice()[event as usize]
    }

    fn table(&self, table: u16) -> &Table
        requires { table < length self.now.tables }
        ensures { result.now ≡ named_table self.now table }
    {
        &self.parts.tables.as_slice()[table as usize]
    }

    fn lines(&self, table: u16) -> &[Line]
        requires { table < length self.now.tables }
        ensures lines { result.now ≡ table_of self.now table }
        ensures some { 1 ≤ length result.now }
        ensures few { length result.now ≤ 1024 }
    {
        self.parts.tables.as_slice()[table as usize]
            .lines
            .as_slice()
    }

    fn line(&self, table: u16, entry: u16) -> &Line
        requires table { table < length self.now.tables }
        requires entry { entry < length (table_of self.now table) }
        ensures line { result.now ≡ line_of self.now table entry }
        ensures delay { IsDelay result.now.delay_us }
    {
        let table = &self.parts.tables.as_slice()[table as usize];
        &table.lines.as_slice()[entry as usize]
    }

    /// How many nodes the cluster has: the commander, which is number 0, and the responders.
    pub fn nodes(&self) -> usize
        ensures number { result ≡ nodes self.now }
        ensures few { result ≤ 16 }
    {
        self.parts.nodes.as_slice().len()
    }

    /// The name of a node.
    pub fn node_name(&self, node: u8) -> &[u8]
        requires { node < nodes self.now }
        ensures { result.now ≡ (node_of self.now node).name }
    {
        self.node(node).name.as_slice()
    }

    /// The diagnostic address of a node, where it has one (ISO 17987-2, node address NAD).
    pub fn nad(&self, node: u8) -> Option<u8>
        requires { node < nodes self.now }
        ensures { result ≡ nad self.now node }
    {
        self.node(node).nad
    }

    /// How many signals the cluster has.
    pub fn signals(&self) -> usize
        ensures number { result ≡ length self.now.signals }
        ensures few { result ≤ 1024 }
    {
        self.parts.signals.as_slice().len()
    }

    /// The name of a signal.
    pub fn signal_name(&self, signal: u16) -> &[u8]
        requires { signal < length self.now.signals }
        ensures { result.now ≡ (signal_of self.now signal).name }
    {
        self.signal(signal).name.as_slice()
    }

    /// The node that publishes a signal.
    pub fn publisher(&self, signal: u16) -> u8
        requires { signal < length self.now.signals }
        ensures { result ≡ (signal_of self.now signal).publisher }
    {
        self.signal(signal).publisher
    }

    /// The nodes that subscribe to a signal, in the order of the description; a node may stand there
    /// twice.
    pub fn subscribers(&self, signal: u16) -> &[u8]
        requires { signal < length self.now.signals }
        ensures subscribers { result.now ≡ (signal_of self.now signal).subscribers }
        ensures there { All (λ n. n < nodes self.now) result.now }
    {
        self.sound();
        self.signal(signal).subscribers.as_slice()
    }

    /// The size of a signal in bits.
    pub fn signal_size(&self, signal: u16) -> u8
        requires { signal < length self.now.signals }
        ensures { result ≡ (signal_of self.now signal).size }
    {
        self.signal(signal).size
    }

    /// The initial value of a signal.
    pub fn initial(&self, signal: u16) -> &Value
        requires { signal < length self.now.signals }
        ensures { result.now ≡ (signal_of self.now signal).initial }
    {
        &self.signal(signal).initial
    }

    /// How many unconditional frames the cluster has.
    pub fn frames(&self) -> usize
        ensures { result ≡ length self.now.frames }
    {
        self.parts.frames.as_slice().len()
    }

    /// The name of an unconditional frame (LIN 2.2A, section 9.2.4.1); no bytes where none has this
    /// number.
    pub fn frame_name(&self, frame: u16) -> &[u8]
        ensures { result.now ≡ frame_name self.now frame }
    {
        if (frame as usize) < self.frames() {
            self.frame(frame).name.as_slice()
        } else {
            &[]
        }
    }

    /// The protected identifier of an unconditional frame (ISO 17987-3, frame header).
    pub fn frame_pid(&self, frame: u16) -> u8
        requires { frame < length self.now.frames }
        ensures { result ≡ (frame_of self.now frame).pid }
    {
        self.frame(frame).pid
    }

    /// The checksum model of an unconditional frame (ISO 17987-3, checksum).
    pub fn model(&self, frame: u16) -> SumKind
        requires { frame < length self.now.frames }
        ensures { result ≡ (frame_of self.now frame).model }
    {
        self.frame(frame).model
    }

    /// How the signals of an unconditional frame lie in its data bytes.
    pub fn layout(&self, frame: u16) -> &Layout
        requires { frame < length self.now.frames }
        ensures { result.now ≡ (frame_of self.now frame).layout }
    {
        &self.frame(frame).layout
    }

    /// The node that sends an unconditional frame.
    pub fn frame_publisher(&self, frame: u16) -> u8
        requires { frame < length self.now.frames }
        ensures { result ≡ (frame_of self.now frame).publisher }
    {
        self.frame(frame).publisher
    }

    /// The signals of an unconditional frame, in the order of the places of its layout.
    pub fn frame_signals(&self, frame: u16) -> &[u16]
        requires { frame < length self.now.frames }
        ensures { result.now ≡ (frame_of self.now frame).signals }
    {
        self.frame(frame).signals.as_slice()
    }

    /// The unconditional frames that have a signal, by rising numbers.
    pub fn frames_with(&self, signal: u16) -> &[u16]
        requires { signal < length self.now.signals }
        ensures frames { result.now ≡ frames_with self.now signal }
        ensures there { All (λ f. f < length self.now.frames) result.now }
        ensures each { (f : ℕ) → f < length self.now.frames
            → list_any (λ g. g == f) result.now ≡ has_signal self.now signal f }
    {
        self.carriers.as_slice()[signal as usize].as_slice()
    }

    /// How many sporadic frames the cluster has.
    pub fn sporadics(&self) -> usize
        ensures number { result ≡ length self.now.sporadic }
        ensures few { result ≤ 256 }
    {
        self.parts.sporadic.as_slice().len()
    }

    /// The name of a sporadic frame (LIN 2.2A, section 9.2.4.2); no bytes where none has this
    /// number.
    pub fn sporadic_name(&self, sporadic: u16) -> &[u8]
        ensures { result.now ≡ sporadic_name self.now sporadic }
    {
        if (sporadic as usize) < self.sporadics() {
            self.sporadic_frame(sporadic).name.as_slice()
        } else {
            &[]
        }
    }

    /// The frames of a sporadic frame, the highest in rank first (ISO 17987-3, sporadic frames).
    pub fn sporadic(&self, sporadic: u16) -> &[u16]
        requires { sporadic < length self.now.sporadic }
        ensures { result.now ≡ sporadic_of self.now sporadic }
    {
        self.sporadic_frame(sporadic).frames.as_slice()
    }

    /// How many event-triggered frames the cluster has.
    pub fn events(&self) -> usize
        ensures { result ≡ length self.now.events }
    {
        self.parts.events.as_slice().len()
    }

    /// The name of an event-triggered frame (LIN 2.2A, section 9.2.4.3); no bytes where none has
    /// this number.
    pub fn event_name(&self, event: u16) -> &[u8]
        ensures { result.now ≡ event_name self.now event }
    {
        if (event as usize) < self.events() {
            self.event(event).name.as_slice()
        } else {
            &[]
        }
    }

    /// The protected identifier of an event-triggered frame.
    pub fn event_pid(&self, event: u16) -> u8
        requires { event < length self.now.events }
        ensures { result ≡ (event_of self.now event).pid }
    {
        self.event(event).pid
    }

    /// The checksum model of the answers to an event-triggered frame's header (ISO 17987-3,
    /// checksum).
    pub fn event_model(&self, event: u16) -> SumKind
        requires { event < length self.now.events }
        ensures { result ≡ (event_of self.now event).model }
    {
        self.event(event).model
    }

    /// The table that resolves a collision of an event-triggered frame (ISO 17987-3,
    /// event-triggered frames).
    pub fn event_table(&self, event: u16) -> u16
        requires { event < length self.now.events }
        ensures { result ≡ (event_of self.now event).table }
    {
        self.event(event).table
    }

    /// The frames that are associated with an event-triggered frame.
    pub fn event_frames(&self, event: u16) -> &[u16]
        requires { event < length self.now.events }
        ensures { result.now ≡ (event_of self.now event).frames }
    {
        self.event(event).frames.as_slice()
    }

    /// How many schedule tables the cluster has.
    pub fn tables(&self) -> usize
        ensures number { result ≡ length self.now.tables }
        ensures few { result ≤ 256 }
    {
        self.parts.tables.as_slice().len()
    }

    /// The name of a schedule table.
    pub fn table_name(&self, table: u16) -> &[u8]
        requires { table < length self.now.tables }
        ensures { result.now ≡ (named_table self.now table).name }
    {
        self.table(table).name.as_slice()
    }

    /// The number of the first schedule table with this name, or `None` where no table has it.
    pub fn table_named(&self, name: &str) -> Option<u16>
        ensures { result ≡ first_table self.now name.now }
    {
        match first_named(self.parts.tables.as_slice(), name.as_bytes()) {
            Some(table) => Some(table as u16),
            None => None,
        }
    }

    /// How many entries a schedule table has.
    pub fn entries(&self, table: u16) -> usize
        requires { table < length self.now.tables }
        ensures number { result ≡ length (table_of self.now table) }
        ensures some { 1 ≤ result }
        ensures few { result ≤ 1024 }
    {
        self.lines(table).len()
    }

    /// The delay of an entry in microseconds (ISO 17987-3, schedule tables).
    pub fn delay_us(&self, table: u16, entry: u16) -> u32
        requires table { table < length self.now.tables }
        requires entry { entry < length (table_of self.now table) }
        ensures value { result ≡ (line_of self.now table entry).delay_us }
        ensures some { 1 ≤ result }
        ensures few { result ≤ 1000000000 }
    {
        self.line(table, entry).delay_us
    }

    /// What an entry of a schedule table is for.
    pub fn entry(&self, table: u16, entry: u16) -> Entry
        requires table { table < length self.now.tables }
        requires entry { entry < length (table_of self.now table) }
        ensures { result ≡ (line_of self.now table entry).entry }
    {
        self.line(table, entry).entry
    }

    /// What an entry of a schedule table is for, with its delay; a configuration entry of 1
    /// microsecond where the cluster has no such entry.
    pub fn line_at(&self, table: u16, entry: u16) -> Line
        ensures line { result ≡ line_of self.now table entry }
        ensures there { IsEntry self.now result.entry }
        ensures delay { result.delay_us ≤ 1000000000 }
    {
        self.sound();
        if (table as usize) < self.tables() && (entry as usize) < self.entries(table) {
            *self.line(table, entry)
        } else {
            Line {
                entry: Entry::Quiet,
                delay_us: 1,
            }
        }
    }

    /// The name of what an entry of a schedule table is for (LIN 2.2A, section 9.2.5): a frame's,
    /// `MasterReq` or `SlaveResp`, the service of a configuration entry, and `-` if that is silent.
    pub fn entry_name(&self, entry: Entry) -> &[u8]
        ensures { result.now ≡ entry_name self.now entry }
    {
        match entry {
            Entry::Frame(frame) => self.frame_name(frame),
            Entry::Sporadic(sporadic) => self.sporadic_name(sporadic),
            Entry::Event(event) => self.event_name(event),
            Entry::MasterReq => b"MasterReq",
            Entry::SlaveResp => b"SlaveResp",
            Entry::Fixed(bytes) => service_name(&bytes),
            Entry::Quiet => b"-",
        }
    }

    /// What node configuration needs to know of the responders that have an address, by rising number
    /// (LIN 2.2A, section 4.2).
    pub fn identities(&self) -> &[Identity]
        ensures identities { result.now ≡ self.now.identities }
        ensures there { All (λ i. i.node < nodes self.now) result.now }
        ensures few { length result.now ≤ 15 }
    {
        self.parts.identities.as_slice()
    }

    /// The response of a responder to a request of node configuration, or `None` (LIN 2.2A, section
    /// 4.2).
    pub fn response_of(&self, identity: &Identity, request: &[u8; 8]) -> Option<[u8; 8]>
        requires { identity.now.node < nodes self.now }
        ensures { result ≡ response_of self.now identity.now request.now }
    {
        match self.nad(identity.node) {
            Some(nad) => identity.response_by(nad, request),
            None => None,
        }
    }

    /// The same cluster, with what is known of its responders, and with requests for the silent entries
    /// of its tables: for each table, the requests of its entries. Requests for no entry, or for one that
    /// isn't silent, are ignored.
    pub fn configured(
        self,
        identities: Many<Identity>,
        requests: &[Many<Option<[u8; 8]>>],
    ) -> Cluster
        requires { AreIdentities self identities }
        ensures { result ≡ with_configuration self identities requests.now }
    {
        let Cluster { parts, carriers } = self;
        let tables = Many::new(with_requests(parts.tables.into_vec(), requests));
        let parts = Parts {
            tables,
            identities,
            ..parts
        };
        Cluster { parts, carriers }
    }

    /// The signals by which responders tell errors in responses (LIN 2.2A, section 9.2.2.2,
    /// response_error).
    pub fn error_signals(&self) -> &[ErrorSignal]
        ensures { result.now ≡ self.now.errors }
    {
        self.parts.errors.as_slice()
    }

    /// The speed in bits per second (LIN 2.2A, section 9.2.1).
    pub fn speed(&self) -> u32
        ensures value { result ≡ self.now.speed }
        ensures some { 1 ≤ result }
        ensures few { result ≤ 20000 }
    {
        self.parts.speed
    }

    /// The jitter in microseconds (LIN 2.2A, section 9.2.2).
    pub fn jitter_us(&self) -> u32
        ensures value { result ≡ self.now.jitter_us }
        ensures few { result ≤ 1000000000 }
    {
        self.parts.jitter_us
    }

    /// The time base in microseconds (LIN 2.2A, section 9.2.2).
    pub fn base_us(&self) -> u32
        ensures value { result ≡ self.now.base_us }
        ensures few { result ≤ 1000000000 }
    {
        self.parts.base_us
    }
}
