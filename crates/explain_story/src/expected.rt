//! What was expected instead of the act, with particulars. It is printed after `expected:`.

use crate::scene::Scene;
use audit_model::Rule;
use audit_stun::error_code;
use audit_stun::numbers::attribute::{ERROR_CODE, USERNAME};
use audit_stun::numbers::method::ALLOCATE;
use explain_text::{CodeWord, Ip, MethodWord, Quoted, code_says, expected};
use std::alloc::{AllocError, Global};

/// What was expected if the rule requires an allocation.
fn by_allocation(alloc: Global, scene: &Scene<'_>, what: &str) -> Result<String, AllocError> {
    let due = if scene.is_request() {
        "437 Allocation Mismatch"
    } else {
        "dropped"
    };
    format!(in alloc; "{due}. The client {what}.")
}

/// What was expected if the rule requires a permission.
fn by_permission(alloc: Global, scene: &Scene<'_>, what: &str) -> Result<String, AllocError> {
    match scene.peer() {
        Some(peer) => {
            let ip = Ip { ip: peer.ip };
            format!(in alloc; "dropped. The client had no {what} for {ip}.")
        }
        None => format!(in alloc; "dropped. The client had no {what} for the peer."),
    }
}

/// What was expected if the rule requires a channel.
fn by_channel(alloc: Global, scene: &Scene<'_>, what: &str) -> Result<String, AllocError> {
    match scene.channel() {
        Some(number) => { format!(in alloc; "dropped. Channel 0x{number:04X} {what}.") }
        None => format!(in alloc; "dropped. The channel {what}."),
    }
}

/// What was expected if another user's request was granted.
fn by_user(alloc: Global, scene: &Scene<'_>) -> Result<String, AllocError> {
    let name = match scene.message_in() {
        Some(asked) => asked.first(USERNAME).unwrap_or(&[]),
        None => &[],
    };
    let name = Quoted { bytes: name };
    match scene.lane.table().allocation() {
        Some(allocation) => {
            let owner = Quoted {
                bytes: allocation.user.as_slice(),
            };
            format!(in alloc;
                "441 Wrong Credentials. User \"{owner}\" made the allocation, the request is of user \"{name}\"."
            )
        }
        None => format!(in alloc; "an error. The request is of user \"{name}\"."),
    }
}

/// What was expected if the condition of an error response doesn't hold.
fn by_error(alloc: Global, scene: &Scene<'_>) -> Result<String, AllocError> {
    let Some(told) = scene.message_out() else {
        return String::from_str(alloc, "a success, or another error.");
    };
    let value = told.first(ERROR_CODE).unwrap_or(&[]);
    let code = error_code(value).unwrap_or(0);
    let says = code_says(code, told.method() == ALLOCATE);
    let method = MethodWord {
        method: told.method(),
    };
    let word = CodeWord { code };
    let was = match scene.lane.allocation() {
        Some(row) => {
            let last = row.until.saturating_add(scene.case.intake.policy().grace);
            if scene.moment <= last {
                "there was one"
            } else {
                "there was one, which was over"
            }
        }
        None => "there was none",
    };
    format!(in alloc;
        "a success, or another error. {word} to {method} says: {says}. Of allocations {was}."
    )
}

/// What was expected if an allocation was made while another existed.
fn by_present(alloc: Global, scene: &Scene<'_>) -> Result<String, AllocError> {
    match scene.lane.table().allocation() {
        Some(allocation) => {
            let relayed = allocation.relayed;
            format!(in alloc; "437 Allocation Mismatch. {relayed} lasts.")
        }
        None => String::from_str(alloc, "437 Allocation Mismatch."),
    }
}

/// What was expected instead of an act that violates a rule.
pub fn expected_of_act(alloc: Global, scene: &Scene<'_>, rule: Rule) -> Result<String, AllocError> {
    match rule {
        Rule::NoAllocation => by_allocation(alloc, scene, "had no allocation"),
        Rule::AllocationOver => by_allocation(alloc, scene, "had an allocation that was over"),
        Rule::NoPermission => by_permission(alloc, scene, "permission"),
        Rule::PermissionOver => by_permission(alloc, scene, "usable permission"),
        Rule::NoChannel => by_channel(alloc, scene, "wasn't bound"),
        Rule::ChannelOver => by_channel(alloc, scene, "was over"),
        Rule::OtherUser => by_user(alloc, scene),
        Rule::ErrorCondition => by_error(alloc, scene),
        Rule::AllocationPresent => by_present(alloc, scene),
        _ => expected_of_rule(alloc, rule),
    }
}

/// What a rule expects, without particulars.
pub fn expected_of_rule(alloc: Global, rule: Rule) -> Result<String, AllocError> {
    String::from_str(alloc, expected(rule))
}
