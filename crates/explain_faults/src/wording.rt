//! The texts for the faults.

ghost use Rattle.std.specs.Prelude.{◌≡◌};
ghost use Rattle.explain_faults.specs.Wording.{title_of, beginning_of, allocation_reason, permission_reason, channel_reason, reason_of, same_fault};

use audit_faults::{Fault, Granted};

/// The server's action.
pub fn title(fault: Fault) -> &'static str
    ensures { result.now ≡ title_of fault }
{
    match fault {
        Fault::Unasked => "sent unasked",
        Fault::Unallocated => "relayed without an allocation",
        Fault::Unpermitted => "relayed without a permission",
        Fault::Unbound => "relayed without a channel",
        Fault::Unfit => "responded wrongly",
        Fault::Unauthentic => "granted without a user's request",
    }
}

/// The line if the capture has the start of no client's allocation.
const NOT_CAPTURED: &str =
    "beginning not captured: the capture began too late for that relayed address; no captured Allocate success response granted it to a client for which this datagram may have been sent, and whose request came before this datagram\n";

/// Whether the captures have the start of the allocation of a client for which the departure may
/// have been sent, if that matters. It doesn't if the data was for another client.
pub fn beginning(fault: Fault, predates: bool, is_misdelivered: bool) -> &'static str
    ensures { result.now ≡ beginning_of fault predates is_misdelivered }
{
    if is_misdelivered {
        return "";
    }
    match (fault, predates) {
        (Fault::Unallocated | Fault::Unpermitted | Fault::Unbound, true) => NOT_CAPTURED,
        (Fault::Unallocated | Fault::Unpermitted | Fault::Unbound, false) => "beginning captured\n",
        (Fault::Unasked | Fault::Unfit | Fault::Unauthentic, _) => "",
    }
}

/// When the address was granted.
fn of_allocation(granted: Granted) -> &'static str
    ensures { result.now ≡ allocation_reason granted }
{
    match granted {
        Granted::Never =>
            "never granted: no captured Allocate success response granted that relayed address to a client for which this datagram may have been sent\n",
        Granted::Later =>
            "granted later: each captured Allocate success response that granted that relayed address to a client for which this datagram may have been sent is for a request that came after this datagram\n",
        Granted::Before =>
            "no client for which this datagram may have been sent was granted that relayed address by then\n",
    }
}

/// When the permission was granted.
fn of_permission(granted: Granted) -> &'static str
    ensures { result.now ≡ permission_reason granted }
{
    match granted {
        Granted::Never =>
            "never granted: no captured success response granted a permission for the peer's IP to a client for which this datagram may have been sent, and which was granted that relayed address\n",
        Granted::Later =>
            "granted later: each captured success response that granted a permission for the peer's IP to a client for which this datagram may have been sent, and which was granted that relayed address by then, is for a request that came after this datagram\n",
        Granted::Before =>
            "expired: each captured arrival for which this datagram may have been sent came later than 300 seconds and the grace after the last success response that granted a permission for the peer's IP\n",
    }
}

/// When the channel was granted.
fn of_channel(granted: Granted) -> &'static str
    ensures { result.now ≡ channel_reason granted }
{
    match granted {
        Granted::Never =>
            "never granted: no captured success response bound the channel to the peer for a client for which this datagram may have been sent, and which was granted that relayed address\n",
        Granted::Later =>
            "granted later: each captured success response that bound the channel to the peer for a client for which this datagram may have been sent, and which was granted that relayed address by then, is for a request that came after this datagram\n",
        Granted::Before =>
            "expired: each captured arrival for which this datagram may have been sent came later than 600 seconds and the grace after the last success response that bound the channel to the peer\n",
    }
}

/// The requirement that no captured arrival meets.
pub fn reason(fault: Fault, granted: Option<Granted>) -> &'static str
    ensures { result.now ≡ reason_of fault granted }
{
    match (fault, granted) {
        (Fault::Unasked, _) =>
            "for no arrival that was captured within hold before it may this datagram have been sent\n",
        (Fault::Unallocated, Some(granted)) => of_allocation(granted),
        (Fault::Unpermitted, Some(granted)) => of_permission(granted),
        (Fault::Unbound, Some(granted)) => of_channel(granted),
        (Fault::Unallocated | Fault::Unpermitted | Fault::Unbound, None) => "",
        (Fault::Unfit, _) => "what it says fits no captured request that it may answer\n",
        (Fault::Unauthentic, _) =>
            "no captured request that it may answer is signed by a user of the credentials\n",
    }
}

/// Whether two faults are the same.
pub fn is_same(one: Fault, other: Fault) -> bool
    ensures { result ≡ same_fault one other }
{
    match (one, other) {
        (Fault::Unasked, Fault::Unasked) => true,
        (Fault::Unallocated, Fault::Unallocated) => true,
        (Fault::Unpermitted, Fault::Unpermitted) => true,
        (Fault::Unbound, Fault::Unbound) => true,
        (Fault::Unfit, Fault::Unfit) => true,
        (Fault::Unauthentic, Fault::Unauthentic) => true,
        _ => false,
    }
}
