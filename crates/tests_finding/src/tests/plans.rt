//! A capture for each plan, and for the handover of an address to another client: without it, the
//! passes find no order that explains the capture.

use super::building::{conforming, verdict};
use super::datagrams::Datagram::{Asks, Comes, Gives, Hands, Refuses};
use super::datagrams::Request::{Allocate, Permit, Refresh};
use super::datagrams::Success::{Allocated, Permitted, Refreshed};
use super::datagrams::{CLIENT, OTHER_CLIENT, OTHER_RELAYED, PEER, RELAYED};
use audit_samples::method::ALLOCATE;
use std::test::Fail;

/// `AtArrival`. The lease has expired when the data leaves, but hadn't when it came.
#[test]
fn data_is_acted_on_at_its_arrival_before_a_lease_is_over(rt: HostRuntime) -> Result<(), Fail> {
    let seen = [
        (0, Asks(CLIENT, 1, Allocate)),
        (1_000, Gives(CLIENT, 1, Allocated(RELAYED, 2))),
        (2_000, Asks(CLIENT, 2, Permit(PEER))),
        (3_000, Gives(CLIENT, 2, Permitted)),
        (1_996_000, Comes(PEER, RELAYED, b"one")),
        (2_005_000, Hands(CLIENT, PEER, b"one")),
    ];
    assert_eq!(rt; verdict(rt.alloc(), 10, &[&seen])?, conforming(6, 1));
    Ok(())
}

/// `BehindAtArrivals`. The lease has expired when the data leaves, and the permission's success
/// response leaves later.
#[test]
fn data_is_acted_on_at_its_arrival_behind_a_permission_at_its_request(
    rt: HostRuntime,
) -> Result<(), Fail> {
    let seen = [
        (0, Asks(CLIENT, 1, Allocate)),
        (1_000, Gives(CLIENT, 1, Allocated(RELAYED, 2))),
        (1_995_000, Asks(CLIENT, 2, Permit(PEER))),
        (1_996_000, Comes(PEER, RELAYED, b"one")),
        (2_003_000, Hands(CLIENT, PEER, b"one")),
        (2_004_000, Gives(CLIENT, 2, Permitted)),
    ];
    assert_eq!(rt; verdict(rt.alloc(), 10, &[&seen])?, conforming(6, 1));
    Ok(())
}

/// `BeforeEnd`. The data came before the deletion, and leaves after its success response.
#[test]
fn data_is_acted_on_before_its_allocation_was_deleted(rt: HostRuntime) -> Result<(), Fail> {
    let seen = [
        (0, Asks(CLIENT, 1, Allocate)),
        (1_000, Gives(CLIENT, 1, Allocated(RELAYED, 600))),
        (2_000, Asks(CLIENT, 2, Permit(PEER))),
        (3_000, Gives(CLIENT, 2, Permitted)),
        (4_000, Comes(PEER, RELAYED, b"one")),
        (5_000, Asks(CLIENT, 3, Refresh(0))),
        (6_000, Gives(CLIENT, 3, Refreshed(0))),
        (7_000, Hands(CLIENT, PEER, b"one")),
    ];
    assert_eq!(rt; verdict(rt.alloc(), 5, &[&seen])?, conforming(8, 1));
    Ok(())
}

/// `AtArrivalBeforeEnd`. The lease has expired when another allocation is made, but hadn't when the
/// data came.
#[test]
fn data_is_acted_on_at_its_arrival_in_an_allocation_that_another_one_ended(
    rt: HostRuntime,
) -> Result<(), Fail> {
    let seen = [
        (0, Asks(CLIENT, 1, Allocate)),
        (1_000, Gives(CLIENT, 1, Allocated(RELAYED, 2))),
        (2_000, Asks(CLIENT, 2, Permit(PEER))),
        (3_000, Gives(CLIENT, 2, Permitted)),
        (1_996_000, Comes(PEER, RELAYED, b"one")),
        (2_003_000, Asks(CLIENT, 3, Allocate)),
        (2_004_000, Gives(CLIENT, 3, Allocated(OTHER_RELAYED, 2))),
        (2_005_000, Hands(CLIENT, PEER, b"one")),
    ];
    assert_eq!(rt; verdict(rt.alloc(), 10, &[&seen])?, conforming(8, 1));
    Ok(())
}

/// `BehindBeforeEnd`. The data leaves after the deletion's success response, and before that of its
/// permission.
#[test]
fn data_is_acted_on_behind_a_permission_before_the_allocation_was_deleted(
    rt: HostRuntime,
) -> Result<(), Fail> {
    let seen = [
        (0, Asks(CLIENT, 1, Allocate)),
        (1_000, Gives(CLIENT, 1, Allocated(RELAYED, 600))),
        (2_000, Asks(CLIENT, 2, Permit(PEER))),
        (3_000, Comes(PEER, RELAYED, b"one")),
        (4_000, Asks(CLIENT, 3, Refresh(0))),
        (5_000, Gives(CLIENT, 3, Refreshed(0))),
        (6_000, Hands(CLIENT, PEER, b"one")),
        (7_000, Gives(CLIENT, 2, Permitted)),
    ];
    assert_eq!(rt; verdict(rt.alloc(), 5, &[&seen])?, conforming(8, 1));
    Ok(())
}

/// `Behind`. The data leaves before the success response of its permission.
#[test]
fn data_is_acted_on_behind_a_permission_whose_success_leaves_later(
    rt: HostRuntime,
) -> Result<(), Fail> {
    let seen = [
        (0, Asks(CLIENT, 1, Allocate)),
        (1_000, Gives(CLIENT, 1, Allocated(RELAYED, 600))),
        (2_000, Asks(CLIENT, 2, Permit(PEER))),
        (3_000, Comes(PEER, RELAYED, b"one")),
        (4_000, Hands(CLIENT, PEER, b"one")),
        (5_000, Gives(CLIENT, 2, Permitted)),
    ];
    assert_eq!(rt; verdict(rt.alloc(), 5, &[&seen])?, conforming(6, 1));
    Ok(())
}

/// `Behind`. The data leaves before the success responses of its allocation and of its permission.
#[test]
fn data_is_acted_on_behind_two_answers_that_leave_later(rt: HostRuntime) -> Result<(), Fail> {
    let seen = [
        (0, Asks(CLIENT, 1, Allocate)),
        (1_000, Asks(CLIENT, 2, Permit(PEER))),
        (2_000, Comes(PEER, RELAYED, b"one")),
        (3_000, Hands(CLIENT, PEER, b"one")),
        (4_000, Gives(CLIENT, 1, Allocated(RELAYED, 600))),
        (5_000, Gives(CLIENT, 2, Permitted)),
    ];
    assert_eq!(rt; verdict(rt.alloc(), 5, &[&seen])?, conforming(6, 1));
    Ok(())
}

/// A deadline. The deletion's success response leaves after that of the other client.
#[test]
fn an_allocation_is_deleted_before_another_client_is_given_its_address(
    rt: HostRuntime,
) -> Result<(), Fail> {
    let seen = [
        (0, Asks(CLIENT, 1, Allocate)),
        (1_000, Gives(CLIENT, 1, Allocated(RELAYED, 600))),
        (2_000, Asks(CLIENT, 2, Refresh(0))),
        (3_000, Asks(OTHER_CLIENT, 1, Allocate)),
        (4_000, Gives(OTHER_CLIENT, 1, Allocated(RELAYED, 600))),
        (5_000, Gives(CLIENT, 2, Refreshed(0))),
    ];
    assert_eq!(rt; verdict(rt.alloc(), 5, &[&seen])?, conforming(6, 2));
    Ok(())
}

/// The least slot of an allocation. An error response shows that the other client has one, which it
/// may not have before the first client's ends.
#[test]
fn an_address_is_given_to_another_client_no_earlier_than_it_was_given_up(
    rt: HostRuntime,
) -> Result<(), Fail> {
    let seen = [
        (0, Asks(CLIENT, 1, Allocate)),
        (1_000, Gives(CLIENT, 1, Allocated(RELAYED, 600))),
        (2_000, Asks(CLIENT, 2, Refresh(0))),
        (3_000, Asks(OTHER_CLIENT, 1, Allocate)),
        (4_000, Asks(OTHER_CLIENT, 2, Allocate)),
        (5_000, Refuses(OTHER_CLIENT, 2, ALLOCATE)),
        (6_000, Gives(OTHER_CLIENT, 1, Allocated(RELAYED, 600))),
        (7_000, Gives(CLIENT, 2, Refreshed(0))),
    ];
    assert_eq!(rt; verdict(rt.alloc(), 5, &[&seen])?, conforming(8, 2));
    Ok(())
}
