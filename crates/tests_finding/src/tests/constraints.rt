//! A capture for each constraint: without it, the passes find no order that explains the capture.

use super::building::{conforming, verdict};
use super::datagrams::Datagram::{Asks, Comes, Gives, Hands, Refuses, Relays, Sends};
use super::datagrams::Request::{Allocate, Bind, Permit, Refresh};
use super::datagrams::Success::{Allocated, Bound, Permitted, Refreshed};
use super::datagrams::{CLIENT, OTHER_CLIENT, OTHER_PEER, OTHER_RELAYED, PEER, RELAYED};
use audit_samples::method::{ALLOCATE, CHANNEL_BIND, CREATE_PERMISSION, REFRESH};
use std::test::Fail;

/// `Answers`. The first of two equal departures may answer either arrival. The first arrival is too
/// old for the second departure.
#[test]
fn data_answers_an_older_arrival_so_that_the_next_data_has_the_later_one(
    rt: HostRuntime,
) -> Result<(), Fail> {
    let of_clients = [
        (0, Asks(CLIENT, 1, Allocate)),
        (1_000, Gives(CLIENT, 1, Allocated(RELAYED, 600))),
        (2_000, Asks(CLIENT, 2, Permit(PEER))),
        (3_000, Gives(CLIENT, 2, Permitted)),
        (6_000, Hands(CLIENT, PEER, b"one")),
        (8_000, Hands(CLIENT, PEER, b"one")),
    ];
    let of_peers = [
        (4_000, Comes(PEER, RELAYED, b"one")),
        (7_000, Comes(PEER, RELAYED, b"one")),
    ];
    assert_eq!(rt;
        verdict(rt.alloc(), 2, &[&of_clients, &of_peers])?,
        conforming(8, 1)
    );
    Ok(())
}

/// `Before`. By its stamp the data came after the deletion's success response had left. The error
/// response shows that the deletion ended the allocation through which the data went.
#[test]
fn data_arrives_before_the_success_of_a_deletion_leaves(rt: HostRuntime) -> Result<(), Fail> {
    let of_clients = [
        (0, Asks(CLIENT, 1, Refresh(0))),
        (2_000, Asks(CLIENT, 2, Allocate)),
        (3_000, Gives(CLIENT, 2, Allocated(RELAYED, 600))),
        (4_000, Asks(CLIENT, 3, Permit(PEER))),
        (5_000, Gives(CLIENT, 3, Permitted)),
        (5_500, Gives(CLIENT, 1, Refreshed(0))),
        (7_000, Hands(CLIENT, PEER, b"one")),
        (8_000, Asks(CLIENT, 4, Bind(0x4000, PEER))),
        (9_000, Refuses(CLIENT, 4, CHANNEL_BIND)),
    ];
    let of_peers = [(6_000, Comes(PEER, RELAYED, b"one"))];
    assert_eq!(rt;
        verdict(rt.alloc(), 5, &[&of_clients, &of_peers])?,
        conforming(10, 1)
    );
    Ok(())
}

/// `AtRequest`. The error responses show that the allocation existed, and that the deletion ended
/// it, whose success response leaves before the allocation's.
#[test]
fn an_answer_is_acted_on_at_its_request_so_that_a_deletion_ends_its_lease(
    rt: HostRuntime,
) -> Result<(), Fail> {
    let seen = [
        (0, Asks(CLIENT, 1, Allocate)),
        (1_000, Asks(CLIENT, 2, Refresh(0))),
        (2_000, Asks(CLIENT, 3, Allocate)),
        (2_000, Gives(CLIENT, 2, Refreshed(0))),
        (2_000, Refuses(CLIENT, 1, ALLOCATE)),
        (3_000, Gives(CLIENT, 3, Allocated(RELAYED, 600))),
        (5_000, Asks(CLIENT, 4, Refresh(0))),
        (6_000, Refuses(CLIENT, 4, REFRESH)),
    ];
    assert_eq!(rt; verdict(rt.alloc(), 1, &[&seen])?, conforming(8, 1));
    Ok(())
}

/// `AtRequest`. The other client's lease expires before the first client is granted the address
/// again.
#[test]
fn a_lease_begins_at_its_request_so_that_its_address_is_given_to_another_client(
    rt: HostRuntime,
) -> Result<(), Fail> {
    let of_client = [
        (0, Asks(CLIENT, 1, Allocate)),
        (1_000, Gives(CLIENT, 1, Allocated(RELAYED, 30))),
        (2_000, Asks(CLIENT, 2, Refresh(0))),
        (3_000, Gives(CLIENT, 2, Refreshed(0))),
        (30_000_000, Asks(CLIENT, 3, Allocate)),
        (30_005_000, Gives(CLIENT, 3, Allocated(RELAYED, 30))),
    ];
    let of_other_client = [
        (4_000, Asks(OTHER_CLIENT, 1, Allocate)),
        (5_000, Gives(OTHER_CLIENT, 1, Allocated(RELAYED, 30))),
    ];
    assert_eq!(rt;
        verdict(rt.alloc(), 5, &[&of_client, &of_other_client])?,
        conforming(8, 2)
    );
    Ok(())
}

/// `AtRequest`. The error response shows that the lease expires before the success response of the
/// first permission leaves.
#[test]
fn a_permission_is_given_at_its_request_before_the_lease_is_over(
    rt: HostRuntime,
) -> Result<(), Fail> {
    let seen = [
        (0, Asks(CLIENT, 1, Allocate)),
        (2_000, Gives(CLIENT, 1, Allocated(RELAYED, 1))),
        (994_000, Asks(CLIENT, 2, Bind(0x4000, PEER))),
        (995_000, Asks(CLIENT, 3, Permit(PEER))),
        (997_000, Asks(CLIENT, 4, Permit(PEER))),
        (998_000, Gives(CLIENT, 4, Permitted)),
        (1_000_000, Refuses(CLIENT, 2, CHANNEL_BIND)),
        (1_001_000, Gives(CLIENT, 3, Permitted)),
    ];
    assert_eq!(rt; verdict(rt.alloc(), 10, &[&seen])?, conforming(8, 1));
    Ok(())
}

/// `OverBefore`. If the lease begins as its success response leaves, it expires too late for the
/// next one. If it begins at its request, it begins before the permission is requested, but the
/// error response shows that it began after that.
#[test]
fn a_lease_begins_as_late_as_it_may_so_that_it_is_over_before_a_departure(
    rt: HostRuntime,
) -> Result<(), Fail> {
    let seen = [
        (0, Asks(CLIENT, 1, Allocate)),
        (1_000, Asks(CLIENT, 2, Permit(PEER))),
        (3_000, Gives(CLIENT, 1, Allocated(RELAYED, 30))),
        (4_000, Refuses(CLIENT, 2, CREATE_PERMISSION)),
        (29_993_000, Asks(CLIENT, 3, Allocate)),
        (30_001_000, Gives(CLIENT, 3, Allocated(RELAYED, 30))),
    ];
    assert_eq!(rt; verdict(rt.alloc(), 10, &[&seen])?, conforming(6, 1));
    Ok(())
}

/// `Precedes`. The first client deleted its allocation before its success response left, and the
/// other client has the address between the two.
#[test]
fn an_allocation_is_over_before_that_of_another_client_whose_success_leaves_first(
    rt: HostRuntime,
) -> Result<(), Fail> {
    let seen = [
        (0, Asks(CLIENT, 1, Allocate)),
        (1_000, Asks(CLIENT, 2, Refresh(0))),
        (2_000, Gives(CLIENT, 2, Refreshed(0))),
        (3_000, Asks(OTHER_CLIENT, 1, Allocate)),
        (4_000, Gives(OTHER_CLIENT, 1, Allocated(RELAYED, 600))),
        (5_000, Gives(CLIENT, 1, Allocated(RELAYED, 600))),
    ];
    assert_eq!(rt; verdict(rt.alloc(), 5, &[&seen])?, conforming(6, 2));
    Ok(())
}

/// `Earlier`. The channel was bound in the allocation that was deleted. In the present one, it is
/// bound to another peer a second later.
#[test]
fn a_channel_is_bound_in_the_allocation_that_was_ended_before_its_success_left(
    rt: HostRuntime,
) -> Result<(), Fail> {
    let seen = [
        (0, Asks(CLIENT, 1, Allocate)),
        (1_000, Asks(CLIENT, 2, Bind(0x4000, PEER))),
        (2_000, Asks(CLIENT, 3, Allocate)),
        (3_000, Asks(CLIENT, 4, Refresh(0))),
        (4_000, Gives(CLIENT, 4, Refreshed(0))),
        (5_000, Gives(CLIENT, 3, Allocated(OTHER_RELAYED, 600))),
        (6_000, Gives(CLIENT, 1, Allocated(RELAYED, 600))),
        (7_000, Gives(CLIENT, 2, Bound)),
        (1_000_000, Asks(CLIENT, 5, Bind(0x4000, OTHER_PEER))),
        (1_001_000, Gives(CLIENT, 5, Bound)),
    ];
    assert_eq!(rt; verdict(rt.alloc(), 10, &[&seen])?, conforming(10, 1));
    Ok(())
}

/// `HandedOver`. The error response shows that the other client has an allocation already. The
/// success response for it leaves later, and so do those to the first client, which had the address
/// before.
#[test]
fn an_address_is_handed_over_before_a_departure_that_leaves_before_its_success(
    rt: HostRuntime,
) -> Result<(), Fail> {
    let seen = [
        (0, Asks(CLIENT, 1, Allocate)),
        (1_000, Asks(OTHER_CLIENT, 1, Allocate)),
        (2_000, Asks(CLIENT, 2, Permit(PEER))),
        (3_000, Asks(OTHER_CLIENT, 2, Allocate)),
        (4_000, Asks(CLIENT, 3, Refresh(0))),
        (4_500, Comes(PEER, RELAYED, b"one")),
        (5_000, Hands(CLIENT, PEER, b"one")),
        (6_000, Gives(CLIENT, 1, Allocated(RELAYED, 600))),
        (7_000, Refuses(OTHER_CLIENT, 1, ALLOCATE)),
        (8_000, Gives(CLIENT, 2, Permitted)),
        (9_000, Gives(OTHER_CLIENT, 2, Allocated(RELAYED, 600))),
        (10_000, Gives(CLIENT, 3, Refreshed(0))),
    ];
    assert_eq!(rt; verdict(rt.alloc(), 5, &[&seen])?, conforming(12, 2));
    Ok(())
}

/// `Within`. The permission lets data through while the first lease may not have expired, and data
/// that is sent later needs it in the second allocation.
#[test]
fn a_permission_is_given_within_the_allocation_that_is_there_for_later_data(
    rt: HostRuntime,
) -> Result<(), Fail> {
    let seen = [
        (0, Asks(CLIENT, 1, Allocate)),
        (4_000, Gives(CLIENT, 1, Allocated(RELAYED, 5))),
        (4_998_000, Asks(CLIENT, 2, Permit(PEER))),
        (4_999_000, Asks(CLIENT, 3, Allocate)),
        (5_000_000, Comes(PEER, RELAYED, b"one")),
        (5_002_000, Hands(CLIENT, PEER, b"one")),
        (5_003_000, Gives(CLIENT, 3, Allocated(RELAYED, 5))),
        (5_004_000, Gives(CLIENT, 2, Permitted)),
        (5_012_000, Sends(CLIENT, PEER, b"two")),
        (5_014_000, Relays(RELAYED, PEER, b"two")),
    ];
    assert_eq!(rt; verdict(rt.alloc(), 5, &[&seen])?, conforming(10, 1));
    Ok(())
}

/// `NotHere`. The data leaves after another client got the address, which sent none.
#[test]
fn data_from_an_address_is_of_the_client_that_had_it_before(rt: HostRuntime) -> Result<(), Fail> {
    let seen = [
        (0, Asks(CLIENT, 1, Allocate)),
        (1_000, Gives(CLIENT, 1, Allocated(RELAYED, 600))),
        (2_000, Asks(CLIENT, 2, Permit(PEER))),
        (3_000, Gives(CLIENT, 2, Permitted)),
        (4_000, Asks(OTHER_CLIENT, 1, Allocate)),
        (5_000, Asks(CLIENT, 3, Refresh(0))),
        (6_000, Sends(CLIENT, PEER, b"one")),
        (7_000, Gives(CLIENT, 3, Refreshed(0))),
        (8_000, Gives(OTHER_CLIENT, 1, Allocated(RELAYED, 600))),
        (12_000, Relays(RELAYED, PEER, b"one")),
    ];
    assert_eq!(rt; verdict(rt.alloc(), 5, &[&seen])?, conforming(10, 2));
    Ok(())
}

/// `NotHere`. Equal data arrived for two clients that had the address one after the other. Searched
/// alone, both act on one of the two.
#[test]
fn an_arrival_is_acted_on_by_one_of_two_clients(rt: HostRuntime) -> Result<(), Fail> {
    let of_clients = [
        (0, Asks(CLIENT, 1, Allocate)),
        (1_000, Gives(CLIENT, 1, Allocated(RELAYED, 600))),
        (2_000, Asks(CLIENT, 2, Permit(PEER))),
        (3_000, Gives(CLIENT, 2, Permitted)),
        (5_900, Hands(CLIENT, PEER, b"one")),
        (6_000, Asks(CLIENT, 3, Refresh(0))),
        (6_100, Gives(CLIENT, 3, Refreshed(0))),
        (6_200, Asks(OTHER_CLIENT, 1, Allocate)),
        (6_300, Gives(OTHER_CLIENT, 1, Allocated(RELAYED, 600))),
        (6_400, Asks(OTHER_CLIENT, 2, Permit(PEER))),
        (6_500, Gives(OTHER_CLIENT, 2, Permitted)),
        (6_600, Hands(OTHER_CLIENT, PEER, b"one")),
    ];
    let of_peers = [
        (6_200, Comes(PEER, RELAYED, b"one")),
        (6_400, Comes(PEER, RELAYED, b"one")),
    ];
    assert_eq!(rt;
        verdict(rt.alloc(), 5, &[&of_clients, &of_peers])?,
        conforming(14, 2)
    );
    Ok(())
}
