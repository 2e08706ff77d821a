//! The files that were read, as JSON.

use crate::digesting::Digesting;
use crate::named::filed_digests;
use audit_files::Source;
use explain_json::{List, Object};
use explain_page::Role;
use std::alloc::{AllocError, Global};

/// Adds a file that was read, with the digest of the bytes that were judged.
fn add_input<S: Source>(
    alloc: Global,
    source: &Digesting<S>,
    role: Role,
    name: &str,
    inputs: &mut List,
) -> Result<(), AllocError> {
    let mut object = Object::new(alloc);
    object.text("is", role.text())?;
    object.bytes("name", name.as_bytes())?;
    match filed_digests(source, role, name) {
        Some(digests) => {
            object.number("bytes", digests.size)?;
            object.string("sha256", format!(in alloc; "{digests}")?)?;
        }
        None => {
            object.nothing("bytes")?;
            object.nothing("sha256")?;
        }
    }
    inputs.object(object)
}

/// Adds the files that were read, in order.
pub fn add_inputs<S: Source>(
    alloc: Global,
    source: &Digesting<S>,
    policy: &str,
    users: Option<&str>,
    certificate: Option<&str>,
    captures: &[&str],
    answer: &mut Object,
) -> Result<(), AllocError> {
    let mut inputs = List::new(alloc);
    add_input(alloc, source, Role::Policy, policy, &mut inputs)?;
    if let Some(name) = users {
        add_input(alloc, source, Role::Users, name, &mut inputs)?;
    }
    if let Some(name) = certificate {
        add_input(alloc, source, Role::Certificate, name, &mut inputs)?;
    }
    for name in captures {
        add_input(alloc, source, Role::Capture, *name, &mut inputs)?;
    }
    answer.list("inputs", inputs)
}
