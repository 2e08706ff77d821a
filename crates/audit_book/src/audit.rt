//! The ledger of a book.

ghost use Rattle.std.specs.Prelude.{List, []};
ghost use Rattle.audit_lane.specs.Content.{Content};

use std::marker::Brand;
use std::sync::ledger::Ledger;

/// The ledger of a book's entries, which names the book's job.
pub trait Audit: Ledger {
    ghost inputs: { List Content };
}

impl Audit for Brand {
    ghost inputs = { [] };
}
