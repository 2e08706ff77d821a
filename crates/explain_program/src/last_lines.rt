//! The text after the head, and the last lines of an explanation.

use audit_faults::Fault;
use audit_model::SightId;
use audit_sightings::Intake;
use explain_clients::{has_relayed, is_response};
use explain_story::{InEveryOrder, Printer, Story};
use explain_text::{Quoted, Utc};
use std::alloc::{AllocError, Global};

/// The column after the head in which the facts of the captures begin.
const COLUMN: usize = 50;

/// The number of interface numbers for each capture.
const INTERFACES: u32 = 64;

/// At most this number of frames is in a filter.
const MOST_FRAMES: usize = 24;

/// The number of interfaces with a datagram of the service.
pub fn interfaces(printer: &Printer<'_>) -> u32 {
    let mut count = 0u32;
    for iface in 0..printer.case.intake.interfaces() {
        if !printer.case.intake.interface(iface).is_empty() {
            count = count.saturating_add(1);
        }
    }
    count
}

/// The text after a head of this length in bytes: how many interfaces there are, and when the
/// captures begin.
pub fn behind_head(
    alloc: Global,
    printer: &Printer<'_>,
    length: usize,
) -> Result<String, AllocError> {
    let mut text = String::from_str(alloc, " ")?;
    for _ in length..COLUMN {
        text.push_str(" ")?;
    }
    let interfaces = interfaces(printer);
    let first = Utc {
        moment: printer.first(),
    };
    let noun = if interfaces == 1 {
        "interface"
    } else {
        "interfaces"
    };
    text.push_str(format!(in alloc; "{interfaces} {noun}, first frame {first}\n")?.as_str())?;
    Ok(text)
}

/// Whether a shell reads a name unchanged.
fn is_plain_name(name: &str) -> bool {
    name.as_bytes().iter().all(|byte| {
        byte.is_ascii_alphanumeric() || matches!(*byte, b'.' | b'/' | b'_' | b'-' | b'+' | b',')
    })
}

/// A name, quoted for a shell.
fn shell_name(alloc: Global, name: &str) -> Result<String, AllocError> {
    let quoted = Quoted {
        bytes: name.as_bytes(),
    };
    if is_plain_name(name) {
        return format!(in alloc; "{quoted}");
    }
    format!(in alloc; "'{quoted}'")
}

/// The numbers of frames, each once, separated by commas.
fn joined(alloc: Global, numbers: &[u64]) -> Result<String, AllocError> {
    let mut text = String::new(alloc);
    let mut last = 0u64;
    for number in numbers.get(..MOST_FRAMES).unwrap_or(numbers) {
        if *number != last {
            if last != 0 {
                text.push_str(",")?;
            }
            last = *number;
            text.push_str(format!(in alloc; "{last}")?.as_str())?;
        }
    }
    Ok(text)
}

/// The numbers of the frames in a capture that show datagrams, in rising order.
fn numbers_in(
    alloc: Global,
    printer: &Printer<'_>,
    sights: &[SightId],
    file: u32,
) -> Result<Vec<u64>, AllocError> {
    let mut numbers = Vec::new(alloc);
    for sight in sights {
        if sight.iface / INTERFACES == file {
            if let Some(frame) = printer.frames.frame(*sight) {
                numbers.push(frame.number)?;
            }
        }
    }
    numbers.sort()?;
    Ok(numbers)
}

/// How to look at the frames of a capture; nothing if none of its frames is printed.
fn look_line(
    alloc: Global,
    printer: &Printer<'_>,
    sights: &[SightId],
    file: u32,
    name: &str,
) -> Result<String, AllocError> {
    let numbers = numbers_in(alloc, printer, sights, file)?;
    if numbers.is_empty() {
        return Ok(String::new(alloc));
    }
    let name = shell_name(alloc, name)?;
    let frames = joined(alloc, numbers.as_slice())?;
    format!(in alloc; "look: tshark -r {name} -Y 'frame.number in {{{frames}}}'\n")
}

/// How to look at the frames of an explanation, capture by capture.
pub fn look_lines(
    alloc: Global,
    printer: &Printer<'_>,
    story: &Story,
) -> Result<String, AllocError> {
    let sights = story.sights()?;
    let mut text = String::new(alloc);
    let mut file = 0u32;
    for name in printer.case.captures {
        text.push_str(look_line(alloc, printer, &sights, file, name)?.as_str())?;
        file = file.saturating_add(1);
    }
    Ok(text)
}

/// The fault's name.
pub fn fault_name(fault: Fault) -> &'static str {
    match fault {
        Fault::Unasked => "Unasked",
        Fault::Unallocated => "Unallocated",
        Fault::Unpermitted => "Unpermitted",
        Fault::Unbound => "Unbound",
        Fault::Unfit => "Unfit",
        Fault::Unauthentic => "Unauthentic",
    }
}

/// The ending for a fault if the captures began too late.
const TOO_LATE: &str =
    " The capture began too late for its relayed address, so that it shows no fault of the server.";

/// The ending for a fault if no datagram is at a relayed address.
const NOTHING_RELAYED: &str =
    " No captured datagram is at a relayed address of the policy, so that it shows no fault of the server: check its relay lines, the captured interfaces, and whether turnprep translate was left out.";

/// The line about the breach's datagram.
fn line_of_this(
    alloc: Global,
    fault: Fault,
    count: usize,
    ending: &str,
) -> Result<String, AllocError> {
    let name = fault_name(fault);
    format!(in alloc;
        "Shown: no order of what was captured explains this datagram ({name}; {count} such in all).{ending}\n"
    )
}

/// The line if only other departures show a fault.
fn line_of_others(alloc: Global, count: usize) -> Result<String, AllocError> {
    if count == 1 {
        return String::from_str(
            alloc,
            "Shown: no order explains what was captured: another datagram shows a fault (turnexplain faults).\n",
        );
    }
    format!(in alloc;
        "Shown: no order explains what was captured: {count} other datagrams show a fault (turnexplain faults).\n"
    )
}

/// Whether a departure is no response, and the captures have no datagram at a relayed address.
fn lacks_relay_side(intake: &Intake, departure: Option<SightId>) -> bool {
    let Some(sight) = departure else {
        return false;
    };
    match intake.sighting(sight) {
        Some(sighting) => !is_response(sighting.payload.as_slice()) && !has_relayed(intake),
        None => false,
    }
}

/// Why the fault of a departure isn't the server's, if there is a reason.
fn excuse(intake: &Intake, departure: Option<SightId>, too_late: bool) -> &'static str {
    if lacks_relay_side(intake, departure) {
        return NOTHING_RELAYED;
    }
    if too_late { TOO_LATE } else { "" }
}

/// The line if no departure shows a fault, by the certificate of a file: no other order is tried.
const ONE_ORDER: &str =
    "Not shown is no proof of a fault: only the certificate's order was tried.\n";

/// The line if no departure shows a fault, by a certificate of the finder. Without such a fault the
/// search ends at the first order that conforms, or after all orders that it tries.
const SEARCHED_ORDERS: &str =
    "Not shown is no proof of a fault: a search found no order that conforms, but it doesn't try all.\n";

/// The line about other orders than the one that violates a rule: by the faults that are there in
/// every order, and by whether orders were searched.
pub fn last_line(
    alloc: Global,
    intake: &Intake,
    departure: Option<SightId>,
    shown: Option<InEveryOrder>,
    is_searched: bool,
) -> Result<String, AllocError> {
    match shown {
        Some(
            InEveryOrder::Here {
                fault,
                count,
                too_late,
            },
        ) => line_of_this(alloc, fault, count, excuse(intake, departure, too_late)),
        Some(InEveryOrder::Elsewhere { count }) => line_of_others(alloc, count),
        None => {
            let line = if is_searched {
                SEARCHED_ORDERS
            } else {
                ONE_ORDER
            };
            String::from_str(alloc, line)
        }
    }
}
