//! A capture for each way to compute the moments again: without it, the passes find no order that
//! explains the capture.

use super::building::{conforming, verdict};
use super::datagrams::Datagram::{Asks, Comes, Gives, Hands};
use super::datagrams::Request::{Allocate, Bind, Permit, Refresh};
use super::datagrams::Success::{Allocated, Bound, Permitted, Refreshed};
use super::datagrams::{CLIENT, PEER, RELAYED};
use std::test::Fail;

/// The clocks, computed again. By its stamp the data left before it came, so the clients' clock is
/// slow, and the lease began later than its stamp.
#[test]
fn a_lease_begins_later_where_the_clock_of_its_interface_is_behind(
    rt: HostRuntime,
) -> Result<(), Fail> {
    let of_clients = [
        (0, Asks(CLIENT, 1, Allocate)),
        (0, Gives(CLIENT, 1, Allocated(RELAYED, 2))),
        (1_000, Asks(CLIENT, 2, Permit(PEER))),
        (1_000, Gives(CLIENT, 2, Permitted)),
        (1_999_500, Hands(CLIENT, PEER, b"one")),
    ];
    let of_peers = [(2_000_500, Comes(PEER, RELAYED, b"one"))];
    assert_eq!(rt;
        verdict(rt.alloc(), 0, &[&of_clients, &of_peers])?,
        conforming(6, 1)
    );
    Ok(())
}

/// Acts at their requests. The first lease expires before the peer's other channel is bound, which
/// is in the second allocation. That one is deleted before the third one is made.
#[test]
fn all_allocations_are_made_at_their_requests(rt: HostRuntime) -> Result<(), Fail> {
    let seen = [
        (0, Asks(CLIENT, 1, Allocate)),
        (1_000, Asks(CLIENT, 2, Bind(0x4001, PEER))),
        (2_000, Gives(CLIENT, 2, Bound)),
        (3_000, Gives(CLIENT, 1, Allocated(RELAYED, 2))),
        (1_999_000, Asks(CLIENT, 3, Bind(0x4000, PEER))),
        (2_000_000, Asks(CLIENT, 4, Refresh(0))),
        (2_001_000, Asks(CLIENT, 5, Allocate)),
        (2_002_000, Gives(CLIENT, 3, Bound)),
        (2_003_000, Gives(CLIENT, 5, Allocated(RELAYED, 2))),
        (2_004_000, Gives(CLIENT, 4, Refreshed(0))),
        (2_009_000, Asks(CLIENT, 6, Allocate)),
        (2_014_000, Gives(CLIENT, 6, Allocated(RELAYED, 2))),
    ];
    assert_eq!(rt; verdict(rt.alloc(), 5, &[&seen])?, conforming(12, 1));
    Ok(())
}
