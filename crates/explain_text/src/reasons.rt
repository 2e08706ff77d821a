//! The meaning of refusal codes.

/// The meaning of a refusal's code. docs/REFUSALS.md lists all codes.
pub fn refusal_reason(code: &str) -> &'static str {
    match code {
        "P1" => "a line of another form, or a line too few",
        "P2" => "a number that is wrong",
        "P3" => "an endpoint that stands twice",
        "P4" => "no listen line up to the end",
        "P5" => "past a limit",
        "K1" => "not name, TAB, realm, TAB, password",
        "K2" => "a byte that isn't printable ASCII",
        "K3" => "a user of this realm for the second time",
        "K4" => "past a limit",
        "T1" => "no heading of a certificate",
        "T2" => "a line of another form",
        "T3" => "a number that is wrong",
        "T4" => "a client at this listen address for the second time",
        "T5" => "past a limit",
        "T6" => "it ends before its line end",
        "T8" => "skews that don't rise by their interfaces",
        _ => reason_of_capture(code),
    }
}

/// The same for a capture.
fn reason_of_capture(code: &str) -> &'static str {
    match code {
        "C1" => "the capture ends inside a block",
        "C2" => "damaged: a section has no byte-order magic",
        "C3" => "damaged: a length doesn't fit its block",
        "C4" => "a pcapng of a newer version",
        "C5" => "not a pcapng file",
        "C6" => "damaged: a block names an interface that isn't described",
        "C7" => "an interface that isn't Ethernet, as the device any",
        "C8" => "an interface with a resolution that isn't read",
        "C9" => "a packet's stamp is out of range",
        "C10" => "a packet without a stamp",
        "C11" => "packets were dropped while it was captured",
        "C12" => "a block is too long, or there are too many interfaces",
        "V1" => "a fragment of UDP with an address of the service",
        "V2" => "a datagram between two endpoints of the service",
        "V3" => "a datagram of the service that is cut (a snapshot length)",
        "V4" => "more than 16 files, or more than 16,777,216 datagrams",
        _ => "refused",
    }
}
