// The hybrid logical clock, passed by value: a step takes the clock and hands back the next one.
#![tactic(auto)]

ghost use Rattle.std.specs.Prelude.{◌≡◌, ◌^◌, ◌<◌};
ghost use Rattle.clock.specs.Clock.{fresh_clock, stamp_of, raise, with_skew, send_step, receive_in_range, receive_step};
ghost use Rattle.clock.specs.Answer.{step_meaning, Sends, Receives};

use entry::{Refusal, Stamp, TIME_LIMIT};
use std::cmp::Ordering;

// A received time further ahead of the local reading than this counts as a skew event.
const WINDOW: u64 = 2000;

// (P, L), the own node id, and the count of skew events.
#[derive(Clone, Copy, PartialEq, Eq, Debug)]
pub struct Clock {
    pub phys: u64,
    pub logical: u16,
    pub node: u8,
    pub skew: u32,
}

// What a send hands back: the next clock, and the stamp of the local write. A refused step hands
// back the clock that came in. The rules name this form: the clock beside the stamp or the refusal.
#[derive(Clone, Copy, PartialEq, Eq, Debug)]
pub struct Sent {
    pub clock: Clock,
    pub answer: Result<Stamp, Refusal>,
}

// What a receive hands back: likewise, and it gives no stamp.
#[derive(Clone, Copy, PartialEq, Eq, Debug)]
pub struct Receipt {
    pub clock: Clock,
    pub answer: Result<(), Refusal>,
}

impl Clock {
    // A new clock of a node.
    pub fn fresh(node: u8) -> Clock
        ensures { result ≡ fresh_clock node }
    {
        Clock {
            phys: 0,
            logical: 0,
            node,
            skew: 0,
        }
    }

    fn stamp(self) -> Stamp
        ensures { result ≡ stamp_of self }
    {
        Stamp {
            phys: self.phys,
            logical: self.logical,
            node: self.node,
        }
    }

    // This clock at `phys`, with a logical count one above `logical`.
    #[tactic(auto, using(std::proofs::lemmas::Bool::Decides::nat_tests), unfolding(crate::specs::Clock::raise))]
    fn raised(self, phys: u64, logical: u16) -> Result<Clock, Refusal>
        ensures { step_meaning result ≡ raise self phys logical }
    {
        let logical = logical.checked_add(1).ok_or(Refusal::ClockSpent)?;
        Ok(Clock {
            phys,
            logical,
            ..self
        })
    }

    // This clock with one more skew event, or as many as can be counted.
    #[tactic(auto, using(std::proofs::lemmas::Bool::Decides::nat_tests), unfolding(crate::specs::Clock::with_skew))]
    fn skewed(self) -> Clock
        ensures { result ≡ with_skew self }
    {
        Clock {
            skew: self.skew.saturating_add(1),
            ..self
        }
    }

    #[tactic(auto, using(std::proofs::lemmas::Bool::Decides::nat_tests), unfolding(crate::specs::Clock::send_step))]
    fn send_step(self, now: u64) -> Result<Clock, Refusal>
        ensures { step_meaning result ≡ send_step self now }
    {
        if TIME_LIMIT <= now || TIME_LIMIT <= self.phys {
            return Err(Refusal::BadTime);
        }
        if self.phys < now {
            return Ok(Clock {
                phys: now,
                logical: 0,
                ..self
            });
        }
        self.raised(self.phys, self.logical)
    }

    // Stamps a local write at the reading `now`.
    pub fn send(self, now: u64) -> Sent
        ensures { Sends self now result }
    {
        match self.send_step(now) {
            Ok(clock) => Sent {
                clock,
                answer: Ok(clock.stamp()),
            },
            Err(refusal) => Sent {
                clock: self,
                answer: Err(refusal),
            },
        }
    }

    // A step of a receive whose times are in range.
    #[tactic(auto, using(std::proofs::lemmas::Bool::Decides::nat_tests), unfolding(crate::specs::Clock::receive_in_range))]
    fn receive_in_range(self, phys: u64, logical: u16, now: u64) -> Result<Clock, Refusal>
        requires { now < 2 ^ 48 }
        ensures { step_meaning result ≡ receive_in_range self phys logical now }
    {
        if now + WINDOW < phys {
            return self.skewed().raised(self.phys.max(now), self.logical);
        }
        match phys.cmp(&self.phys) {
            Ordering::Greater => self.raised(phys, logical),
            Ordering::Equal => self.raised(self.phys, self.logical.max(logical)),
            Ordering::Less => self.raised(self.phys, self.logical),
        }
    }

    #[tactic(auto, using(std::proofs::lemmas::Bool::Decides::nat_tests), unfolding(crate::specs::Clock::receive_step))]
    fn receive_step(self, phys: u64, logical: u16, now: u64) -> Result<Clock, Refusal>
        ensures { step_meaning result ≡ receive_step self phys logical now }
    {
        if TIME_LIMIT <= now || TIME_LIMIT <= self.phys || TIME_LIMIT <= phys {
            return Err(Refusal::BadTime);
        }
        self.receive_in_range(phys, logical, now)
    }

    // Takes note of a received stamp (phys, logical) at the reading `now`. The theorems take the
    // two without a node (`OtherReceivesStay`), so they are no `Stamp`.
    pub fn receive(self, phys: u64, logical: u16, now: u64) -> Receipt
        ensures { Receives self phys logical now result }
    {
        match self.receive_step(phys, logical, now) {
            Ok(clock) => Receipt {
                clock,
                answer: Ok(()),
            },
            Err(refusal) => Receipt {
                clock: self,
                answer: Err(refusal),
            },
        }
    }
}
