//! The body of bind_transceiver (SMPP 3.4, 4.1.5). The room of each text is the least and the greatest size of what stands behind it.

ghost use Rattle.std.specs.Prelude.{◌≡◌, ◌++◌, IfErr, OnOk, OnErr};
ghost use Rattle.exact_octets.specs.Growth.{Keeps};
ghost use Rattle.exact_octets.specs.Reading.{Gives, IsOfOctets};
ghost use Rattle.smpp_wire.specs.declared.row.Row.TheVariants as row;
ghost use Rattle.smpp_wire.specs.Command.{fields_of};
ghost use Rattle.smpp_wire.specs.Grammar.{IsOf, body as body_octets};
ghost use Rattle.smpp_wire.specs.Parts.{system_tuple, system_octets};
ghost use Rattle.smpp_wire.specs.Reading.{version_at as version_front, system_at as system_front, bind_at as bind_front};

use crate::Body;
use crate::limits::INTERFACE_VERSION;
use crate::party::two_at;
use crate::room::Room;
use crate::text::{Sizes, put_text, text_at};
use exact_octets::{ReadFault, octet_at};
use kn_base::{Memory, Octets};

/// The fields from the system_type on.
#[derive(Clone, Copy)]
struct System<'a> {
    system_type: &'a [u8],
    interface_version: u8,
    addr_ton: u8,
    addr_npi: u8,
    address_range: &'a [u8],
}

/// The version, and the type and the plan of the addresses.
#[tactic(auto, unfolding(crate::specs::Reading::version_at))]
fn version_at(octets: &[u8]) -> Result<((u8, (u8, u8)), &[u8]), ReadFault>
    ensures gives { Gives (λ x. (x.0, x.1.now)) result (version_front octets.now) }
    ensures no_memory { IfErr result IsOfOctets }
{
    let (version, rest) = octet_at(octets, INTERFACE_VERSION, INTERFACE_VERSION)?;
    let (others, rest) = two_at(rest)?;
    Ok(((version, others), rest))
}

/// The fields from the system_type on, which fill `left` octets.
#[tactic(auto, unfolding(crate::specs::Reading::system_at))]
fn system_at(octets: &[u8], left: usize) -> Result<(System, &[u8]), ReadFault>
    ensures gives { Gives (λ x. (system_tuple x.0, x.1.now)) result (system_front left octets.now) }
    ensures no_memory { IfErr result IsOfOctets }
{
    let (system_type, rest) = text_at(octets, Sizes::up_to(13), Room::Between(4, 44), left)?;
    let left = left.saturating_sub(system_type.len() + 1);
    let ((interface_version, (addr_ton, addr_npi)), rest) = version_at(rest)?;
    let left = left.saturating_sub(3);
    let (address_range, rest) = text_at(rest, Sizes::up_to(41), Room::Between(0, 0), left)?;
    Ok((
        System {
            system_type,
            interface_version,
            addr_ton,
            addr_npi,
            address_range,
        },
        rest,
    ))
}

/// A bind whose body fills `left` octets.
#[tactic(auto, unfolding(crate::specs::Reading::bind_at))]
pub(crate) fn bind_at(octets: &[u8], left: usize) -> Result<(Body, &[u8]), ReadFault>
    ensures gives { Gives (λ x. (fields_of x.0, x.1.now)) result (bind_front left octets.now) }
    ensures no_memory { IfErr result IsOfOctets }
{
    let (system_id, rest) = text_at(octets, Sizes::up_to(16), Room::Between(6, 66), left)?;
    let left = left.saturating_sub(system_id.len() + 1);
    let (password, rest) = text_at(rest, Sizes::up_to(9), Room::Between(5, 57), left)?;
    let left = left.saturating_sub(password.len() + 1);
    let (system, rest) = system_at(rest, left)?;
    Ok((
        Body::Bind {
            system_id,
            password,
            system_type: system.system_type,
            interface_version: system.interface_version,
            addr_ton: system.addr_ton,
            addr_npi: system.addr_npi,
            address_range: system.address_range,
        },
        rest,
    ))
}

/// Puts the fields from the system_type on last.
fn put_system(into: &mut Octets, system: &System) -> Result<(), Memory>
    ensures ok { OnOk result (into.new ≡ into.old ++ system_octets system.now) }
    ensures err { OnErr result (Keeps into.old into.new) }
{
    put_text(into, system.system_type)?;
    into.extend_from_slice(&[system.interface_version, system.addr_ton, system.addr_npi])?;
    put_text(into, system.address_range)
}

/// Puts the body of a bind last. After `Memory` the old octets still stand first.
pub(crate) fn put_bind(into: &mut Octets, body: &Body) -> Result<(), Memory>
    requires { IsOf row.Bind (fields_of body.now) }
    ensures ok { OnOk result (into.new ≡ into.old ++ body_octets (fields_of body.now)) }
    ensures err { OnErr result (Keeps into.old into.new) }
{
    let Body::Bind {
        system_id,
        password,
        system_type,
        interface_version,
        addr_ton,
        addr_npi,
        address_range,
    } = *body
    else {
        unreachable!()
    };
    let system = System {
        system_type,
        interface_version,
        addr_ton,
        addr_npi,
        address_range,
    };
    put_text(into, system_id)?;
    put_text(into, password)?;
    put_system(into, &system)
}
