//! What escapes stand for.

ghost use Rattle.std.specs.Prelude.{◌≡◌, ◌++◌, ◌<◌, ◌^◌, OnOk};
ghost use Rattle.url_escapes.specs.Value.{value, with_plus, above_0, if_any};

use crate::Facts;
use crate::date::write_date;
use crate::escape::Escape;
use crate::words::{first_word, write_joined, write_tilded};
use kn_base::{Memory, Octets, write_decimal};

/// Puts a number of an address last, with a leading `00` as `+`.
fn write_with_plus(out: &mut Octets, address: &[u8]) -> Result<(), Memory>
    ensures { OnOk result (out.new ≡ out.old ++ with_plus address.now) }
{
    if address.len() >= 2 && address[0] == b'0' && address[1] == b'0' {
        out.push(b'+')?;
        out.extend_from_slice(&address[2..])
    } else {
        out.extend_from_slice(address)
    }
}

/// Puts a number last in decimal, and nothing for 0.
fn write_above_0(out: &mut Octets, number: u8) -> Result<(), Memory>
    ensures { OnOk result (out.new ≡ out.old ++ above_0 number) }
{
    if number == 0 {
        Ok(())
    } else {
        write_decimal(out, u64::from(number))
    }
}

/// Puts a number last in decimal, where there is one.
fn write_if_any(out: &mut Octets, number: Option<u8>) -> Result<(), Memory>
    ensures { OnOk result (out.new ≡ out.old ++ if_any number) }
{
    match number {
        None => Ok(()),
        Some(number) => write_decimal(out, u64::from(number)),
    }
}

/// Puts last what an escape stands for, as it is. `unused` are the words behind the first that no escape used so far.
pub(crate) fn write_value(
    out: &mut Octets,
    facts: &Facts,
    unused: &[Octets],
    escape: Escape,
) -> Result<(), Memory>
    requires { facts.now.time < 2 ^ 37 }
    ensures { OnOk result (out.new ≡ out.old ++ value facts.now unused.now escape) }
{
    match escape {
        Escape::Keyword => out.extend_from_slice(facts.keyword.as_slice()),
        Escape::NextWord => out.extend_from_slice(first_word(unused)),
        Escape::NextWordTilde => write_tilded(out, first_word(unused)),
        Escape::OtherWords => write_joined(out, unused),
        Escape::AllWords => write_joined(out, facts.words.as_slice()),
        Escape::Message => out.extend_from_slice(facts.message.as_slice()),
        Escape::Date => write_date(out, facts.time),
        Escape::Seconds => write_decimal(out, facts.time),
        Escape::Sender => out.extend_from_slice(facts.sender.as_slice()),
        Escape::Receiver => out.extend_from_slice(facts.receiver.as_slice()),
        Escape::SenderPlus => write_with_plus(out, facts.sender.as_slice()),
        Escape::ReceiverPlus => write_with_plus(out, facts.receiver.as_slice()),
        Escape::Smsc => out.extend_from_slice(facts.smsc.as_slice()),
        Escape::InternalId => out.extend_from_slice(facts.internal.as_slice()),
        Escape::ReportValue => write_above_0(out, facts.value),
        Escape::Answer => out.extend_from_slice(facts.answer.as_slice()),
        Escape::ForeignId => out.extend_from_slice(facts.foreign.as_slice()),
        Escape::Name => out.extend_from_slice(facts.name.as_slice()),
        Escape::Coding => write_decimal(out, u64::from(facts.coding)),
        Escape::Class => write_if_any(out, facts.class),
        Escape::Charset => out.extend_from_slice(facts.charset.as_slice()),
        Escape::Udh => out.extend_from_slice(facts.udh.as_slice()),
        Escape::Account => out.extend_from_slice(facts.account.as_slice()),
    }
}
