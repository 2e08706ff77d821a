//! Which tenancies are checked for clashes in a turn.

ghost use Rattle.std.specs.Prelude.{◌≡◌, ◌<◌, ◌++◌, All, IfOk, OnOk, vec_len};
ghost use Rattle.std.specs.List.{flat_map};
ghost use Rattle.audit_live.specs.CheckedTenancies.{checked_of, fresh_at, held_by, is_past_last as comes_past};

use crate::lanes::LiveLanes;
use audit_model::Tenancy;
use std::alloc::AllocError;

/// Whether the moment is past the last horizon, if there was one.
pub fn is_past_last(last: Option<u64>, moment: u64) -> bool
    ensures { result ≡ comes_past last moment }
{
    match last {
        None => true,
        Some(last) => last < moment,
    }
}

impl LiveLanes {
    /// The tenancies of those lanes that ended after they were last checked, and the current ones.
    fn fresh(&self, touched: &[u32]) -> Result<Vec<Tenancy>, AllocError>
        requires { All (λ number. number < vec_len self.now.lanes) touched.now }
        ensures { IfOk result (λ fresh. fresh.items ≡ flat_map (fresh_at self.now.lanes.items) touched.now) }
    {
        let mut fresh = Vec::new(self.alloc);
        'touched: for number in touched {
            self.add_fresh(*number, &mut fresh)?;
        }
        Ok(fresh)
    }

    fn add_fresh(&self, number: u32, fresh: &mut Vec<Tenancy>) -> Result<(), AllocError>
        requires { number < vec_len self.now.lanes }
        ensures { OnOk result (fresh.new.items ≡ fresh.old.items ++ fresh_at self.now.lanes.items number) }
    {
        let lane = &self.lanes[number as usize];
        fresh.extend_from_slice(lane.ended())?;
        if let Some(running) = lane.running() {
            fresh.push(running)?;
        }
        Ok(())
    }

    /// Adds the current tenancy of the lane that is noted for the address of a tenancy which was
    /// born past the last horizon.
    fn add_held(
        &self,
        last: Option<u64>,
        tenancy: &Tenancy,
        checked: &mut Vec<Tenancy>,
    ) -> Result<(), AllocError>
        ensures { OnOk result (checked.new.items ≡ checked.old.items ++ held_by self.now.lanes.items self.now.holders last tenancy.now) }
    {
        if is_past_last(last, tenancy.born.key.moment) {
            if let Some(held) = self.holders.running(&self.lanes, tenancy.relayed) {
                checked.push(held)?;
            }
        }
        Ok(())
    }

    /// The tenancies that are checked for clashes: of the lanes with these numbers those that ended
    /// after they were last checked and the current one, and of other lanes the current one if its
    /// address was granted to one of these past the last horizon.
    pub fn checked(&self, last: Option<u64>, touched: &[u32]) -> Result<Vec<Tenancy>, AllocError>
        requires { All (λ number. number < vec_len self.now.lanes) touched.now }
        ensures { IfOk result (λ checked. checked.items ≡ checked_of self.now.lanes.items self.now.holders last touched.now) }
    {
        let fresh = self.fresh(touched)?;
        let rows = fresh.as_slice();
        let mut checked = Vec::from_slice(self.alloc, rows)?;
        'rows: for tenancy in rows {
            self.add_held(last, tenancy, &mut checked)?;
        }
        Ok(checked)
    }
}
