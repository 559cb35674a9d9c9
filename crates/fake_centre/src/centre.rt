//! A centre by itself: octets in, octets out.

ghost use Rattle.std.specs.Prelude.{◌≡◌, IfOk, OnErr};
ghost use Rattle.route_rules.specs.declared.link_kind.LinkKind.TheVariants.{Smpp};
ghost use Rattle.fake_centre.specs.Saying.{AreFrames};

use crate::Script;
use crate::answering::answer_all;
use crate::place::{Phase, Place};
use kn_base::{Memory, Octets};
use route_rules::LinkKind;
use std::alloc::Global;

/// A centre that follows a script.
///
/// It answers a login by the status of its script, and behind a good one says its messages. It answers each message by the next answer of the
/// script, and behind those takes each under `A` and its number. A message before the login and a second login are refused, an enquiry and the end of the
/// session are answered, other commands aren't known, and answers are heard and forgotten. Behind a login that it refused, the end of the
/// session, and octets that are no frame it says nothing more.
#[derive(Drop)]
pub struct Centre {
    alloc: Global,
    script: Script,
    place: Place,
    /// What was heard and is no whole frame yet.
    kept: Octets,
}

/// What octets that are heard come to.
#[derive(Drop)]
pub(crate) struct Turn {
    pub(crate) said: Octets,
    place: Place,
    kept: Octets,
}

impl Centre {
    /// A centre that has heard nothing. It takes no memory. SMPP is the one kind that is spoken yet.
    pub fn new(alloc: Global, kind: LinkKind, script: Script) -> Centre
        requires { kind ≡ Smpp }
    {
        Centre {
            alloc,
            script,
            place: Place::new(),
            kept: Octets::new(alloc),
        }
    }

    /// What comes of hearing octets.
    pub(crate) fn consider(&self, octets: &[u8]) -> Result<Turn, Memory>
        ensures { IfOk result (λ turn. AreFrames turn.said) }
    {
        let mut heard = Octets::from_slice(self.alloc, self.kept.as_slice())?;
        heard.extend_from_slice(octets)?;
        let mut said = Octets::new(self.alloc);
        let heard = heard.as_slice();
        let (place, done) = answer_all(self.alloc, &self.script, self.place, heard, &mut said)?;
        let kept = Octets::from_slice(self.alloc, &heard[done..])?;
        Ok(Turn { said, place, kept })
    }

    /// Does what came of hearing octets, and gives what is said.
    pub(crate) fn follow(&mut self, turn: Turn) -> Octets
        ensures { result ≡ turn.said }
    {
        self.place = turn.place;
        self.kept = turn.kept;
        turn.said
    }

    /// Hears octets, and gives what it says to them: whole frames. After `Memory` it has heard nothing of these.
    pub fn hear(&mut self, octets: &[u8]) -> Result<Octets, Memory>
        ensures frames { IfOk result AreFrames }
        ensures err { OnErr result (self.new ≡ self.old) }
    {
        match self.consider(octets) {
            Ok(turn) => Ok(self.follow(turn)),
            Err(Memory) => Err(Memory),
        }
    }

    /// Whether nothing more is said, whatever is heard.
    pub fn is_over(&self) -> bool {
        self.place.phase == Phase::Over
    }

    /// Whether all of the script was said, or the session is over.
    pub fn is_done(&self) -> bool {
        let heard = self.place.submits;
        let due = self
            .script
            .reports
            .iter()
            .all(|report| report.0 as usize <= heard);
        let begun = self.place.phase == Phase::Open
            || self.script.messages.is_empty() && self.script.reports.is_empty();
        self.is_over() || begun && due && self.script.replies.len() <= heard
    }
}
