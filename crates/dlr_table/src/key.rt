//! What a report is matched by.

ghost use Rattle.std.specs.Prelude.{◌≡◌, IfOk};
ghost use Rattle.dlr_table.specs.Key as spec;

use kn_base::{Memory, Octets};
use std::alloc::Global;
use std::marker::Model;

/// The SMSC id of a link, and the id that its centre gave a message.
#[derive(Drop)]
pub(crate) struct Key {
    smsc: Octets,
    foreign: Octets,
    /// The mark of the centre's id: most other keys are told apart by it, without a look at theirs.
    mark: u64,
}

impl Model for Key {
    ghost use Rattle.std.specs.Prelude.{◌≡◌};
    ghost use Rattle.dlr_table.specs.Key.{Ids, mark_of};

    ghost Value = { Ids };

    ghost view = { λ k. record { smsc = k.smsc; foreign = k.foreign } };

    ghost invariant = { λ k. k.mark ≡ mark_of k.foreign };
}

/// The mark of an id, in which each octet counts.
pub(crate) fn mark_of(id: &[u8]) -> u64
    ensures { result ≡ spec.mark_of id.now }
{
    id.iter().fold(0, |mark: u64, octet| {
        mark.wrapping_mul(31).wrapping_add(u64::from(*octet))
    })
}

impl Key {
    /// The key of these two ids.
    pub(crate) fn copied(alloc: Global, smsc: &[u8], foreign: &[u8]) -> Result<Key, Memory>
        ensures { IfOk result (λ key. key ≡ record { smsc = smsc.now; foreign = foreign.now }) }
    {
        let smsc = Octets::from_slice(alloc, smsc)?;
        let mark = mark_of(foreign);
        let foreign = Octets::from_slice(alloc, foreign)?;
        Ok(Key {
            smsc,
            foreign,
            mark,
        })
    }

    /// Whether it is the key of these two ids, of which the second has this mark.
    pub(crate) fn is(&self, smsc: &[u8], foreign: &[u8], mark: u64) -> bool
        requires { mark ≡ spec.mark_of foreign.now }
        ensures { result ≡ spec.is_key smsc.now foreign.now self.now }
    {
        self.mark == mark && self.foreign.as_slice() == foreign && self.smsc.as_slice() == smsc
    }
}
