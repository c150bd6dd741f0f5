//! Making a pump and its ports.

ghost use Rattle.std.specs.Prelude.{◌≡◌, ◌≤◌, ◌<◌, ◌+◌, ◌++◌, [], map, IfOk, length};
ghost use Rattle.lin_core.specs.declared.port.PortId.TheVariants.{Host, Node};
ghost use Rattle.lin_parts.specs.Cluster.{nodes};
ghost use Rattle.lin_threads.specs.Lanes.{lane_wiring};
ghost use Rattle.lin_threads.specs.Ports.{host_wiring, node_wiring};
ghost use Rattle.lin_threads.specs.Pumps.{core_of, since, wirings};
ghost use Rattle.lin_threads.specs.Wired.{AreHostPorts, AreNewLanes, AreNodePorts, IsNewHost, IsNewLane};
ghost use Rattle.lin_threads.specs.Wired.{IsNewNode};

use crate::ports::host_port::HostPort;
use crate::ports::incoming::Incoming;
use crate::ports::lane::Lane;
use crate::ports::node_port::NodePort;
use crate::ports::pump::Pump;
use lin_core::Core;
use rtrb::RingBuffer;
use std::alloc::{AllocError, Global};

fn open_host(
    alloc: Global,
    number: u8,
    seen: usize,
    ring: usize,
) -> Result<(Lane, HostPort), AllocError>
    ensures lane { IfOk result (λ r. IsNewLane seen (Host number) r.0) }
    ensures port { IfOk result (λ r. IsNewHost ring number r.1) }
    ensures wiring { IfOk result (λ r. lane_wiring r.0 ≡ host_wiring r.1) }
{
    let (put, pop) = RingBuffer::new(alloc, ring)?;
    let (tell, take) = RingBuffer::new(alloc, ring)?;
    Ok((
        Lane {
            number,
            steps: Incoming::Host(pop),
            notes: tell,
            seen,
            part: 0,
            given: 0,
            settled: false,
        },
        HostPort {
            number,
            steps: put,
            notes: take,
        },
    ))
}

fn open_node(
    alloc: Global,
    number: u8,
    seen: usize,
    ring: usize,
) -> Result<(Lane, NodePort), AllocError>
    ensures lane { IfOk result (λ r. IsNewLane seen (Node number) r.0) }
    ensures port { IfOk result (λ r. IsNewNode ring number r.1) }
    ensures wiring { IfOk result (λ r. lane_wiring r.0 ≡ node_wiring r.1) }
{
    let (put, pop) = RingBuffer::new(alloc, ring)?;
    let (tell, take) = RingBuffer::new(alloc, ring)?;
    Ok((
        Lane {
            number,
            steps: Incoming::Node(pop),
            notes: tell,
            seen,
            part: 0,
            given: 0,
            settled: false,
        },
        NodePort {
            number,
            steps: put,
            notes: take,
        },
    ))
}

fn open_hosts(
    alloc: Global,
    nodes: u8,
    seen: usize,
    ring: usize,
    lanes: &mut Vec<Lane>,
) -> Result<Vec<HostPort>, AllocError>
    requires { lanes.old.items ≡ [] }
    ensures lanes { IfOk result (λ ports. AreNewLanes nodes seen lanes.new.items) }
    ensures count { IfOk result (λ ports. length lanes.new.items ≡ nodes) }
    ensures ports { IfOk result (λ ports. AreHostPorts ring nodes ports.items) }
    ensures wirings { IfOk result
        (λ ports. map lane_wiring lanes.new.items ≡ map host_wiring ports.items) }
{
    let mut ports = Vec::new(alloc);
    for number in 0..nodes {
        let (lane, port) = open_host(alloc, number, seen, ring)?;
        lanes.push(lane)?;
        ports.push(port)?;
    }
    Ok(ports)
}

fn open_nodes(
    alloc: Global,
    nodes: u8,
    seen: usize,
    ring: usize,
    lanes: &mut Vec<Lane>,
) -> Result<Vec<NodePort>, AllocError>
    requires hosts { AreNewLanes nodes seen lanes.old.items }
    requires count { length lanes.old.items ≡ nodes }
    ensures lanes { IfOk result (λ ports. AreNewLanes nodes seen lanes.new.items) }
    ensures count { IfOk result (λ ports. length lanes.new.items ≡ nodes + nodes) }
    ensures ports { IfOk result (λ ports. AreNodePorts ring nodes ports.items) }
    ensures wirings { IfOk result
        (λ ports. map lane_wiring lanes.new.items
        ≡ map lane_wiring lanes.old.items ++ map node_wiring ports.items) }
{
    let mut ports = Vec::new(alloc);
    for number in 0..nodes {
        let (lane, port) = open_node(alloc, number, seen, ring)?;
        lanes.push(lane)?;
        ports.push(port)?;
    }
    Ok(ports)
}

/// The ports of a core's nodes, one for the host and one for the node of each, and the pump that
/// serves them; each ring takes `ring` items (1 to 1,024). The core may have a log already, and
/// notes begin after it. an error means out of memory, and the core is dropped.
pub fn wire(
    alloc: Global,
    core: Core,
    ring: usize,
) -> Result<(Pump, Vec<HostPort>, Vec<NodePort>), AllocError>
    requires some { 1 ≤ ring }
    requires few { ring ≤ 1024 }
    ensures core { IfOk result (λ r. core_of r.0 ≡ core) }
    ensures since { IfOk result (λ r. since r.0 ≡ []) }
    ensures ports { IfOk result
        (λ r. wirings r.0 ≡ map host_wiring r.1.items ++ map node_wiring r.2.items) }
    ensures hosts { IfOk result (λ r. AreHostPorts ring (nodes core.cluster) r.1.items) }
    ensures nodes { IfOk result (λ r. AreNodePorts ring (nodes core.cluster) r.2.items) }
{
    let nodes = core.cluster().nodes() as u8;
    let base = core.log().len();
    let mut lanes = Vec::new(alloc);
    let hosts = open_hosts(alloc, nodes, base, ring, &mut lanes)?;
    let others = open_nodes(alloc, nodes, base, ring, &mut lanes)?;
    Ok((
        Pump {
            alloc,
            core,
            base,
            lanes,
        },
        hosts,
        others,
    ))
}
