//! Spots, meetings of them, and choices of sets at the spots of a type.
ghost use Rattle.re_labels.specs.Lists.{count_from};
ghost use Rattle.re_labels.specs.Rows.{IsChoice};
ghost use Rattle.re_given_words.specs.Asking.{IsChoiceOf, IsSetAt, port_spots};
ghost use Rattle.std.specs.List.{AllByRecursion, AllZip, flat_map};
ghost use Rattle.std.specs.Prelude.{◌≡◌, ◌+◌, ◌*◌, ◌==◌, ◌≤◌, ◌<◌, ℕ, IfOk, List, length, map, slice_index_or};

use crate::stopping::TryFault;
use crate::tuples::{Tuple, push_with};
use re_labels::{Config, NoMemory};
use std::alloc::Global;

/// How many meetings are listed at most.
const MAX_MEETINGS: usize = 100;

/// How many choices of sets are listed at most, with those of fewer spots on the way.
const MAX_CHOICES: usize = 10_000;

/// The ports of all spots: those of the types, one type behind the other.
pub(crate) fn spot_ports(alloc: Global, types: &[Config]) -> Result<Vec<u8>, NoMemory>
    ensures { IfOk result (λ ports. ports.items ≡ flat_map (λ ports. ports) types.now) }
{
    let mut ports = Vec::new(alloc);
    for ports_of_type in types {
        ports.extend_from_slice(ports_of_type.labels())?;
    }
    Ok(ports)
}

// All lists of a spot of each of so many ports from this one on.
fn meetings_from(
    alloc: Global,
    ports: &[u8],
    port: u8,
    count: u8,
    room: &mut usize,
) -> Result<Vec<Tuple>, TryFault>
    requires six { port + count ≤ 6 }
    ensures { IfOk result (λ meetings. AllByRecursion (λ meeting. IsChoice meeting (map (port_spots ports.now) (count_from port count))) meetings.items) }
{
    let mut all = Vec::new(alloc);
    if count == 0 {
        all.push(Tuple::new())?;
        return Ok(all);
    }
    let others = meetings_from(alloc, ports, port + 1, count - 1, room)?;
    for (spot, other) in ports.iter().enumerate() {
        if *other == port {
            push_with(spot, others.as_slice(), &mut all, room)?;
        }
    }
    Ok(all)
}

/// All meetings: lists of a spot of each port.
pub(crate) fn meetings_of(alloc: Global, ports: &[u8], degree: u8) -> Result<Vec<Tuple>, TryFault>
    requires six { degree ≤ 6 }
    ensures few { IfOk result (λ meetings. length meetings.items ≤ MAX_MEETINGS) }
    ensures meetings { IfOk result (λ meetings. AllByRecursion (λ meeting. IsChoice meeting (map (port_spots ports.now) (count_from 0 degree))) meetings.items) }
{
    let mut room = 2 * MAX_MEETINGS;
    let meetings = meetings_from(alloc, ports, 0, degree, &mut room)?;
    if meetings.len() > MAX_MEETINGS {
        return Err(TryFault::TooMany);
    }
    Ok(meetings)
}

// Whether the meeting has this spot at this port.
fn meets(meeting: &Tuple, port: u8, spot: usize) -> bool
    ensures { result ≡ (slice_index_or meeting.now port 0 == spot) }
{
    let spots = meeting.numbers();
    let port = port as usize;
    spot == if port < spots.len() {
        spots[port] as usize
    } else {
        0
    }
}

// All lists of a set at each of so many spots from this one on, by their numbers.
fn choices_from(
    alloc: Global,
    ports: &[u8],
    meetings: &[Tuple],
    degree: u8,
    spot: usize,
    count: usize,
    room: &mut usize,
) -> Result<Vec<Tuple>, TryFault>
    requires few { length meetings.now ≤ MAX_MEETINGS }
    requires six { count ≤ 6 }
    requires inside { spot + count ≤ length ports.now }
    ensures { IfOk result (λ choices. AllByRecursion (λ choice. AllZip (IsSetAt ports.now meetings.now degree) (count_from spot count) choice) choices.items) }
{
    let mut all = Vec::new(alloc);
    if count == 0 {
        all.push(Tuple::new())?;
        return Ok(all);
    }
    let others = choices_from(alloc, ports, meetings, degree, spot + 1, count - 1, room)?;
    let port = ports[spot];
    for (at, meeting) in meetings.iter().enumerate() {
        if meets(meeting, port, spot) {
            let set = at * degree as usize + port as usize;
            push_with(set, others.as_slice(), &mut all, room)?;
        }
    }
    Ok(all)
}

/// All choices of a set at each spot of a type, by their numbers, where types of this size have these ports.
pub(crate) fn choices_of(
    alloc: Global,
    ports: &[u8],
    size: u8,
    types: usize,
    meetings: &[Tuple],
    degree: u8,
) -> Result<Vec<Tuple>, TryFault>
    requires few { length meetings.now ≤ MAX_MEETINGS }
    requires six { size ≤ 6 }
    requires inside { types * size ≤ length ports.now }
    ensures { IfOk result (λ choices. AllByRecursion (λ choice. (t : ℕ) × (t < types) × IsChoiceOf ports.now meetings.now degree size t choice) choices.items) }
{
    let mut room = MAX_CHOICES;
    let mut all = Vec::new(alloc);
    for at in 0..types {
        let size = size as usize;
        let mut chosen = choices_from(alloc, ports, meetings, degree, at * size, size, &mut room)?;
        all.append(&mut chosen)?;
    }
    Ok(all)
}
