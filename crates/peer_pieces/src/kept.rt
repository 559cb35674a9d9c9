//! What was heard and isn't dealt with.

ghost use Rattle.std.specs.Prelude.{◌≡◌, ◌≤◌, drop, length};

use kn_base::Octets;
use std::alloc::Global;
use std::mem::replace;

/// Drops the first octets. It takes no memory.
pub fn drop_front(alloc: Global, octets: &mut Octets, len: usize)
    requires { len ≤ length octets.old }
    ensures { octets.new ≡ drop len octets.old }
{
    let mut items = replace(octets, Octets::new(alloc)).into_vec();
    items.drain(..len);
    *octets = Octets::from_vec(items);
}
