//! A capture for each part of a choice between plans: without it, the passes find no order that
//! explains the capture.

use super::building::{conforming, verdict};
use super::datagrams::Datagram::{Asks, Comes, Gives, Hands, HandsByChannel, Refuses};
use super::datagrams::Request::{Allocate, Bind, Permit, Refresh};
use super::datagrams::Success::{Allocated, Bound, Permitted, Refreshed};
use super::datagrams::{CLIENT, PEER, RELAYED};
use audit_samples::method::ALLOCATE;
use std::test::Fail;

/// More than one plan is listed, and the search goes back to the second one. By the first one the
/// deletion ends the allocation, but the error response shows that it still exists.
#[test]
fn a_deletion_may_be_acted_on_before_an_allocation_whose_success_leaves_first(
    rt: HostRuntime,
) -> Result<(), Fail> {
    let seen = [
        (0, Asks(CLIENT, 1, Allocate)),
        (1_000, Asks(CLIENT, 2, Refresh(0))),
        (2_000, Gives(CLIENT, 1, Allocated(RELAYED, 600))),
        (3_000, Gives(CLIENT, 2, Refreshed(0))),
        (4_000, Asks(CLIENT, 3, Allocate)),
        (5_000, Refuses(CLIENT, 3, ALLOCATE)),
    ];
    assert_eq!(rt; verdict(rt.alloc(), 2, &[&seen])?, conforming(6, 1));
    Ok(())
}

/// An earlier request is preferably acted on first. Data a second later, when the choice is
/// forgotten, needs the allocation.
#[test]
fn a_deletion_is_rather_acted_on_before_an_allocation_asked_for_later(
    rt: HostRuntime,
) -> Result<(), Fail> {
    let seen = [
        (0, Asks(CLIENT, 1, Refresh(0))),
        (1_000, Asks(CLIENT, 2, Allocate)),
        (2_000, Asks(CLIENT, 3, Permit(PEER))),
        (3_000, Gives(CLIENT, 2, Allocated(RELAYED, 600))),
        (4_000, Gives(CLIENT, 1, Refreshed(0))),
        (5_000, Gives(CLIENT, 3, Permitted)),
        (1_000_000, Comes(PEER, RELAYED, b"one")),
        (1_001_000, Hands(CLIENT, PEER, b"one")),
    ];
    assert_eq!(rt; verdict(rt.alloc(), 10, &[&seen])?, conforming(8, 1));
    Ok(())
}

/// The channel is bound after the second allocation, which waits for the deletion of the first one.
#[test]
fn an_answer_that_is_given_first_waits_for_another_one(rt: HostRuntime) -> Result<(), Fail> {
    let seen = [
        (0, Asks(CLIENT, 1, Allocate)),
        (1_000, Gives(CLIENT, 1, Allocated(RELAYED, 600))),
        (2_000, Asks(CLIENT, 2, Bind(0x4000, PEER))),
        (3_000, Asks(CLIENT, 3, Allocate)),
        (4_000, Asks(CLIENT, 4, Refresh(0))),
        (5_000, Asks(CLIENT, 5, Permit(PEER))),
        (5_000, Gives(CLIENT, 2, Bound)),
        (6_000, Gives(CLIENT, 4, Refreshed(0))),
        (6_000, Gives(CLIENT, 3, Allocated(RELAYED, 600))),
        (7_000, Gives(CLIENT, 5, Permitted)),
        (12_000, Comes(PEER, RELAYED, b"one")),
        (13_000, HandsByChannel(CLIENT, 0x4000, b"one")),
    ];
    assert_eq!(rt; verdict(rt.alloc(), 2, &[&seen])?, conforming(12, 1));
    Ok(())
}
