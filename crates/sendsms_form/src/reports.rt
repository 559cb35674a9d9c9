//! What a requester wants to hear of a message, and on whose account it goes.

ghost use Rattle.std.specs.Prelude.{◌≡◌, ◌⊎◌, Ok, Err, OnOk, IfErr};
ghost use Rattle.sendsms_form.specs.Form as spec;
ghost use Rattle.sendsms_form.specs.Variables.{RefusesAs};

use crate::Pair;
use crate::variable::{number, octets};
use http_text::{Answer, Spot};
use kn_base::Octets;
use sms_record::Sms;
use sms_record::limits::{MOST_MASK, MOST_NAME, MOST_URL};
use std::alloc::Global;

/// Reads `dlr-mask`, `dlr-url` and `account` into a message.
#[tactic(auto, unfolding(crate::specs::Form::reports_of))]
pub(crate) fn set_reports(alloc: Global, pairs: &[Pair], sms: &mut Sms) -> Result<(), Answer>
    ensures ok { OnOk result (spec.reports_of pairs.now sms.old ≡ Ok sms.new) }
    ensures err { RefusesAs (spec.reports_of pairs.now sms.old) result }
{
    let mask = number(pairs, Spot::DlrMask, 0, u64::from(MOST_MASK))?;
    let url = octets(pairs, Spot::DlrUrl, MOST_URL)?;
    let account = octets(pairs, Spot::Account, u64::from(MOST_NAME))?;
    sms.mask = if url.is_empty() { 0 } else { mask as u8 };
    sms.url = Octets::from_slice(alloc, url)?;
    sms.account = Octets::from_slice(alloc, account)?;
    Ok(())
}
