//! Lengths, and padding.

ghost use Rattle.std.specs.Prelude.{◌≡◌, ◌<◌, MatchResult};
ghost use Rattle.audit_samples.specs.declared.build_fault.BuildFault.TheVariants.{TooLong};
ghost use Rattle.audit_samples.specs.Layout.{filling};

use crate::build_fault::BuildFault;

const ZEROS: [u8; 3] = [0; 3];

/// A length in two bytes, up to 65,535.
pub(crate) fn two_bytes(length: usize) -> Result<u16, BuildFault>
    ensures { MatchResult result (λ said. said ≡ length) (λ fault. (fault ≡ TooLong) × (65535 < length)) }
{
    if length > u16::MAX as usize {
        return Err(BuildFault::TooLong);
    }
    Ok(length as u16)
}

/// The zeros that pad to a multiple of four.
pub(crate) fn zeros_after(length: usize) -> &'static [u8]
    ensures { result.now ≡ filling length }
{
    &ZEROS[..(4 - length % 4) % 4]
}
