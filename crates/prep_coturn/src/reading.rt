//! Makes a policy's text from a configuration's text.

use crate::conf::{Conf, first_unjudged};
use crate::fault::ConfFault;
use crate::notes::notes_of;
use crate::plan::{Options, plan_of};
use crate::rows::{Row, rows_of};
use crate::writing::policy_text;
use std::alloc::Global;

/// The result for a configuration.
#[derive(Drop)]
pub struct Prepared {
    /// The text of the policy.
    pub policy: String,
    /// The notes, a line each.
    pub notes: String,
}

/// The settings of all lines.
fn conf_of(alloc: Global, rows: &[Row<'_>]) -> Result<Conf, ConfFault> {
    let mut conf = Conf::new(alloc);
    for row in rows {
        conf.take(row)?;
    }
    Ok(conf)
}

/// The policy's text for a configuration's text and the operator's options, or why there is none.
pub fn prepare(alloc: Global, text: &[u8], options: &Options<'_>) -> Result<Prepared, ConfFault> {
    let rows = rows_of(alloc, text)?;
    if let Some((line, setting)) = first_unjudged(&rows) {
        return Err(ConfFault::Unjudged { line, setting });
    }
    let conf = conf_of(alloc, &rows)?;
    let plan = plan_of(alloc, &conf, options)?;
    Ok(Prepared {
        policy: policy_text(alloc, &plan)?,
        notes: notes_of(alloc, &rows, &conf)?,
    })
}
