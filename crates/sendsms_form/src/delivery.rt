//! How a message is delivered: by which link, until when, and from when on.

ghost use Rattle.std.specs.Prelude.{◌≡◌, ◌⊎◌, Ok, Err, OnOk, IfOk, IfErr};
ghost use Rattle.sendsms_form.specs.Form as spec;
ghost use Rattle.sendsms_form.specs.Variables.{RefusesAs};

use crate::Pair;
use crate::variable::{number, octets};
use config_groups::User;
use http_text::{Answer, Spot};
use kn_base::Octets;
use sms_record::Sms;
use sms_record::limits::{MOST_MINUTES, MOST_NAME};
use std::alloc::Global;

/// Reads `smsc`, `validity` and `deferred` into a message.
#[tactic(auto, unfolding(crate::specs::Form::delivery_of))]
pub(crate) fn set_delivery(
    alloc: Global,
    user: &User,
    pairs: &[Pair],
    sms: &mut Sms,
) -> Result<(), Answer>
    ensures ok { OnOk result (spec.delivery_of user.now pairs.now sms.old ≡ Ok sms.new) }
    ensures err { RefusesAs (spec.delivery_of user.now pairs.now sms.old) result }
{
    let smsc = smsc_of(user, pairs)?;
    sms.validity = number(pairs, Spot::Validity, 1, MOST_MINUTES)?;
    sms.deferred = number(pairs, Spot::Deferred, 0, MOST_MINUTES)?;
    sms.smsc = Octets::from_slice(alloc, smsc)?;
    Ok(())
}

// The SMSC id: the user's forced one, or else what is given, or else the user's own.
fn smsc_of<'a>(user: &'a User, pairs: &'a [Pair]) -> Result<&'a [u8], Answer>
    ensures ok { IfOk result (λ smsc. spec.smsc_of user.now pairs.now ≡ Ok smsc.now) }
    ensures err { IfErr result (λ answer. spec.smsc_of user.now pairs.now ≡ Err answer) }
{
    let forced = user.forced_smsc.as_slice();
    if !forced.is_empty() {
        return Ok(forced);
    }
    let given = octets(pairs, Spot::Smsc, u64::from(MOST_NAME))?;
    if given.is_empty() {
        Ok(user.default_smsc.as_slice())
    } else {
        Ok(given)
    }
}
