//! The protocol of a link.

ghost use Rattle.std.specs.Prelude.{◌≡◌, ℕ, List, Option, IfOk};
ghost use Rattle.route_rules.specs.declared.link_kind.LinkKind.{LinkKind as Kinds};
ghost use Rattle.link_core.specs.declared.heard.Heard.{Heard as Hearings};
ghost use Rattle.link_core.specs.declared.out.Out.{Out as Sayings};
ghost use Rattle.link_core.specs.Grammar.{IsGrammar, IsReadAs};
ghost use Rattle.link_core.specs.Saying.{out_tag, MaySay, IsFrameWith};
ghost use Rattle.link_core.specs.Tags.{AreTags};

use crate::{Framed, Out};
use kn_base::{Memory, Octets};
use route_rules::LinkKind;
use std::alloc::Global;

/// A protocol, as its client speaks it. It keeps nothing but what it logs in with.
pub trait LinkCore {
    /// Which protocol it is.
    ghost kind: { Kinds };

    /// Which octets are one whole frame, and what that says.
    ghost hears: { List ℕ → Hearings → Type 0 };

    /// At which place, and with which code, octets are refused with which no frame begins.
    ghost refuses: { List ℕ → ℕ → ℕ → Type 0 };

    /// The tags that a frame has room for.
    ghost holds: { ℕ → Type 0 };

    /// The most octets of a frame.
    ghost most: { ℕ };

    /// The octets of what is said.
    ghost said: { Self → Sayings → List ℕ };

    /// The tag behind a tag, or the first one.
    ghost next_tag: { Option ℕ → ℕ };

    /// How many tags there are for what is said unasked.
    ghost tags: { ℕ };

    /// Reads the frame at the front of octets. Octets may follow it.
    ///
    /// # Errors
    /// `Memory`.
    fn read(&self, alloc: Global, octets: &[u8]) -> Result<Framed, Memory>
        ensures read { IfOk result (IsReadAs hears refuses octets.now) }

        // What the frames of the protocol keep to.
        ensures grammar { IsGrammar hears holds most };

    /// The frame that says something. A message has to be one that the protocol carries, and asked for at `now` or earlier; an answer to
    /// a question, an end or a strange frame one to what the protocol can hear.
    ///
    /// # Errors
    /// `Memory`.
    fn write(&self, alloc: Global, out: &Out) -> Result<Octets, Memory>
        requires may { MaySay kind hears out.now }
        requires tag { holds (out_tag out.now) }
        ensures said { IfOk result (λ octets. octets ≡ said self.now out.now) }

        // It is one whole frame, whatever follows it, and has the tag.
        ensures frame { IfOk result (IsFrameWith hears (out_tag out.now)) };

    /// The tag for the next thing that is said unasked, behind the last one, if there was one.
    fn next_tag(&self, last: Option<u32>) -> u32
        ensures value { result ≡ next_tag last }

        // What its tags keep to.
        ensures turns { AreTags next_tag tags holds };

    /// How many tags there are for what is said unasked.
    fn tags(&self) -> u32
        ensures { result ≡ tags };

    /// Which protocol it is.
    fn kind(&self) -> LinkKind
        ensures { result ≡ kind };
}
