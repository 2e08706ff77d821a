//! The texts of the rules.

ghost use Rattle.std.specs.Prelude.{◌≡◌};
ghost use Rattle.audit_report.specs.RuleText.{text_of_rule};

use audit_model::Rule;

/// The code under which users know a rule, and its text.
pub fn rule_text(rule: Rule) -> &'static str
    ensures { result.now ≡ text_of_rule rule }
{
    match rule {
        Rule::Unplaced => "S1 unplaced",
        Rule::PlacedTwice => "S2 placed twice",
        Rule::Stranger => "S3 stranger",
        Rule::OutOfWindow => "S4 window",
        Rule::InterfaceOrder => "S5 interface order",
        Rule::LaneOrder => "S6 lane order",
        Rule::WrongSide => "S7 side",
        Rule::OtherEndpoint => "S8 endpoint",
        Rule::ActBeforeArrival => "S9 act before arrival",
        Rule::ActedTwice => "S10 acted twice",
        Rule::LeftWithoutAct => "S11 left without act",
        Rule::HeldTooLong => "S12 held too long",
        Rule::ActWithoutDeparture => "S13 act without departure",
        Rule::NotAnAnswer => "R1 not an answer",
        Rule::NotAuthentic => "R2 credentials",
        Rule::OtherUser => "R3 other user",
        Rule::NoAllocation => "R4 no allocation",
        Rule::AllocationOver => "R5 allocation over",
        Rule::NoPermission => "R6 no permission",
        Rule::PermissionOver => "R7 permission over",
        Rule::NoChannel => "R8 channel not bound",
        Rule::ChannelOver => "R9 channel over",
        Rule::ChannelNumber => "R10 channel number",
        Rule::ChannelConflict => "R11 channel conflict",
        Rule::PeerDiffers => "R12 peer differs",
        Rule::DataDiffers => "R13 data differs",
        Rule::RelayedAddress => "R14 relayed address",
        Rule::Lifetime => "R15 lifetime",
        Rule::TransportOrFamily => "R16 transport or family",
        Rule::MappedAddress => "R17 mapped address",
        Rule::ResponseIntegrity => "R18 response integrity",
        Rule::ErrorCondition => "R19 error condition",
        Rule::AllocationPresent => "R20 allocation present",
        Rule::Malformed => "R21 leaving datagram malformed",
        Rule::AddressHeld => "R22 address held",
    }
}
