//! A pump with its ports, and what is done with them.

ghost use Rattle.std.specs.Prelude.{◌≡◌};
ghost use Rattle.lin_threads.specs.Pumps.{wirings};

use lin_core::{Core, Event, Payload, PortId, Step};
use lin_threads::{Full, HostPort, HostStep, NodePort, NodeStep, Note, Pump, wire};
use std::alloc::{AllocError, Global};
use std::process::Abort;
use std::test::Fail;

/// A pump and its ports, by number, and the name of the row that they are for.
#[derive(Drop)]
pub struct Bench {
    pub row: &'static str,
    pub pump: Pump,
    pub hosts: Vec<HostPort>,
    pub nodes: Vec<NodePort>,
}

/// What is done with a pump and its ports, and what they must show.
pub enum Act {
    /// A host's port puts a send to a host.
    Send(usize, u8, &'static [u8]),
    /// A host's port puts a send of the byte 1 to host 1, and its ring is full.
    SendToFull(usize),
    /// A node's port puts that it answers, or that it leaves its response out.
    Answer(usize),
    Leave(usize),
    /// A round, which makes so many steps.
    Round(u32),
    /// A slot in which this node is due, is told so, and answers.
    AnsweredSlot(usize),
    /// Steps of the bus; what damages a response has no bytes.
    Open,
    Hurt,
    Finish,
    AskSleep,
    /// The ports of all hosts are dropped.
    DropHosts,
    /// All notes that a host's or a node's port takes.
    HostTakes(usize, &'static [&'static str]),
    NodeTakes(usize, &'static [&'static str]),
    /// So many notes were given to a port.
    Given(PortId, u64),
    /// So many messages of a host wait.
    Waiting(u8, usize),
}

/// The text of a note: messages with their bytes, refusals with their reason.
fn line(alloc: Global, note: &Note) -> Result<String, AllocError> {
    match note {
        Note::Event(Event::Accepted { host, number }) => {
            format!(in alloc; "accepted {host} {number}")
        }
        Note::Event(Event::Sent { host, number }) => format!(in alloc; "sent {host} {number}"),
        Note::Event(
            Event::Lost {
                host,
                number,
                cause,
            },
        ) => format!(in alloc; "lost {host} {number} {cause:?}"),
        Note::Event(Event::Message { from, to, bytes }) => {
            format!(in alloc; "message {from} {to} {:?}", bytes.as_slice())
        }
        Note::Event(Event::Due { node }) => format!(in alloc; "due {node}"),
        Note::Event(_) => format!(in alloc; "of no port"),
        Note::Refused(refusal) => format!(in alloc; "refused {refusal:?}"),
    }
}

/// A send by a host's port.
pub fn send(alloc: Global, to: u8, bytes: &[u8]) -> Result<HostStep, Fail> {
    Ok(HostStep::Send {
        to,
        message: Payload::copied(alloc, bytes)?,
    })
}

/// A note that was taken is the one that is wanted; the case says whose it is.
pub fn is_taken(
    rt: &impl Abort,
    alloc: Global,
    taken: Option<Note>,
    wanted: &str,
    case: &str,
) -> Result<(), Fail> {
    let text = match taken {
        Some(note) => line(alloc, &note)?,
        None => "no note".to_string(alloc)?,
    };
    assert_eq!(rt; text.as_str(), wanted, "{case}");
    Ok(())
}

/// A host's port takes these notes and no more.
fn host_takes(
    rt: &impl Abort,
    alloc: Global,
    port: &mut HostPort,
    wanted: &[&str],
    case: &str,
) -> Result<(), Fail> {
    for note in wanted {
        is_taken(rt, alloc, port.take(), note, case)?;
    }
    assert!(rt; port.take().is_none(), "{case}");
    Ok(())
}

/// A node's port takes these notes and no more.
fn node_takes(
    rt: &impl Abort,
    alloc: Global,
    port: &mut NodePort,
    wanted: &[&str],
    case: &str,
) -> Result<(), Fail> {
    for note in wanted {
        is_taken(rt, alloc, port.take(), note, case)?;
    }
    assert!(rt; port.take().is_none(), "{case}");
    Ok(())
}

/// A round makes so many steps.
pub fn makes(rt: &impl Abort, pump: &mut Pump, wanted: u32, case: &str) -> Result<(), Fail>
    ensures { wirings pump.new ≡ wirings pump.old }
{
    match pump.round() {
        Ok(taken) => assert_eq!(rt; taken.steps, wanted, "{case}"),
        Err(_) => return Err(Fail::from("a round ended early")),
    }
    Ok(())
}

impl Bench {
    fn host(&mut self, number: usize) -> Result<&mut HostPort, &'static str> {
        self.hosts.get_mut(number).ok_or("no such host")
    }

    fn node(&mut self, number: usize) -> Result<&mut NodePort, &'static str> {
        self.nodes.get_mut(number).ok_or("no such node")
    }

    fn node_puts(&mut self, number: usize, step: NodeStep) -> Result<(), Fail> {
        match self.node(number)?.put(step) {
            Ok(()) => Ok(()),
            Err(_) => Err(Fail::from("a full ring")),
        }
    }

    fn own(&mut self, step: Step) -> Result<(), Fail> {
        match self.pump.own(step) {
            Ok(()) => Ok(()),
            Err(_) => Err(Fail::from("a step was held")),
        }
    }

    fn answered_slot(&mut self, rt: &impl Abort, number: usize) -> Result<(), Fail> {
        self.own(Step::Open)?;
        makes(rt, &mut self.pump, 0, self.row)?;
        match self.node(number)?.take() {
            Some(Note::Event(Event::Due { node })) => {
                assert_eq!(rt; usize::from(node), number, "{}", self.row)
            }
            _ => return Err(Fail::from("not due")),
        }
        self.node_puts(number, NodeStep::Answer)?;
        makes(rt, &mut self.pump, 1, self.row)?;
        self.own(Step::Finish)
    }

    fn waiting(&self, rt: &impl Abort, host: u8) -> usize {
        let core = self.pump.core();
        assert!(rt; usize::from(host) < core.cluster().nodes(), "{}", self.row);
        core.waiting(host)
    }

    fn act(&mut self, rt: &impl Abort, alloc: Global, act: &Act) -> Result<(), Fail> {
        let row = self.row;
        match act {
            Act::Send(host, to, bytes) => {
                let step = send(alloc, *to, bytes)?;
                assert!(rt; self.host(*host)?.put(step).is_ok(), "{row}");
            }
            Act::SendToFull(host) => {
                let step = send(alloc, 1, &[1])?;
                assert!(rt;
                    matches!(
                        self.host(*host)?.put(step),
                        Err(Full(HostStep::Send { to: 1, .. }))
                    ),
                    "{row}"
                );
            }
            Act::Answer(node) => self.node_puts(*node, NodeStep::Answer)?,
            Act::Leave(node) => self.node_puts(*node, NodeStep::Leave)?,
            Act::Round(steps) => makes(rt, &mut self.pump, *steps, row)?,
            Act::AnsweredSlot(node) => self.answered_slot(rt, *node)?,
            Act::Open => self.own(Step::Open)?,
            Act::Hurt => self.own(Step::Hurt {
                bytes: Payload::copied(alloc, &[])?,
            })?,
            Act::Finish => self.own(Step::Finish)?,
            Act::AskSleep => self.own(Step::AskSleep)?,
            Act::DropHosts => self.hosts.clear(),
            Act::HostTakes(host, notes) => host_takes(rt, alloc, self.host(*host)?, notes, row)?,
            Act::NodeTakes(node, notes) => node_takes(rt, alloc, self.node(*node)?, notes, row)?,
            Act::Given(port, count) => assert_eq!(rt; self.pump.given(*port), *count, "{row}"),
            Act::Waiting(host, count) => assert_eq!(rt; self.waiting(rt, *host), *count, "{row}"),
        }
        Ok(())
    }

    /// Does these acts in turn.
    pub fn acts(&mut self, rt: &impl Abort, alloc: Global, acts: &[Act]) -> Result<(), Fail> {
        for act in acts {
            self.act(rt, alloc, act)?;
        }
        Ok(())
    }
}

/// A pump with its ports, on rings of so many items.
pub fn set_up(
    rt: &impl Abort,
    alloc: Global,
    row: &'static str,
    core: Core,
    ring: usize,
) -> Result<Bench, Fail> {
    assert!(rt; ring >= 1);
    assert!(rt; ring <= 1024);
    let (pump, hosts, nodes) = wire(alloc, core, ring)?;
    Ok(Bench {
        row,
        pump,
        hosts,
        nodes,
    })
}
