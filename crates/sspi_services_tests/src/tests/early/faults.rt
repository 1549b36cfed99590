//! Policies and links that fail.

use crate::tests::early::words::{answered, identity, unmade};
use sspi_delegate::{Carried, Carrier, End, KeptLink, LinkError, MemoryLink};
use sspi_early::{FailingPolicy, ListPolicy, Policy, PolicyError, authorize};
use sspi_names::AuthIdentity;
use std::alloc::Global;
use std::process::Abort;

/// A carrier that gives one zero at a time, and fails from call number `from` of `receive` on,
/// counted from 0.
#[derive(Drop)]
struct Failing {
    from: u64,
    received: u64,
    faults: u64,
}

impl Carrier for Failing {
    ghost use Rattle.std.specs.Prelude.{◌≡◌};

    ghost faults = { λ carrier. carrier.faults };

    ghost sends = { λ before _ _ now. now ≡ before };

    ghost receives = { λ before _ _ now. (now.from ≡ before.from) × (now.faults ≡ before.faults) };

    ghost refuses = { λ before _ now. now.from ≡ before.from };

    fn send(&mut self, _from: End, _sent: &[u8]) -> Result<(), LinkError> {
        Ok(())
    }

    fn receive(&mut self, into: &mut [u8]) -> Result<usize, LinkError> {
        if self.received >= self.from {
            self.faults = self.faults.saturating_add(1);
            return Err(LinkError::Failed);
        }
        self.received = self.received.saturating_add(1);
        match into.first_mut() {
            Some(first) => {
                *first = 0;
                Ok(1)
            }
            None => Ok(0),
        }
    }
}

/// Over a link whose delivery fails from byte `from` on, counted from 0.
fn over_failing(rt: &impl Abort, alloc: Global, identity: &AuthIdentity, from: u64, words: &str) {
    let carrier = Failing {
        from,
        received: 0,
        faults: 0,
    };
    let mut link = KeptLink::new(alloc, carrier);
    let mut policy = ListPolicy::new(alloc, Vec::new(alloc));
    let found = authorize(&mut link, &mut policy, identity);
    answered(rt, &found, words);
    is_carried(rt, link.log(), from);
}

/// The only entry is a refusal, of which `from` bytes were delivered, at most four.
fn is_carried(rt: &impl Abort, log: &[Carried], from: u64) {
    match log {
        [entry] => {
            assert_eq!(rt; entry.sent.as_slice(), [5, 0, 0, 0].as_slice());
            assert_eq!(rt; entry.delivered.len() as u64, from.min(4));
            assert!(rt; !entry.ended);
        }
        _ => unmade(rt),
    }
}

#[test]
fn a_delivery_that_fails_is_a_fault_of_the_link(rt: HostRuntime) {
    let alloc = rt.alloc();
    let identity = identity(&rt, alloc, "DOM\\ann");
    for from in [0, 1, 2, 3] {
        over_failing(&rt, alloc, &identity, from, "link");
    }
    over_failing(&rt, alloc, &identity, 4, "denied success");
}

/// A policy's failure is answered, and nothing goes over the link.
fn is_unheard(rt: &impl Abort, alloc: Global, identity: &AuthIdentity) {
    let mut policy = FailingPolicy::new();
    let mut link = MemoryLink::new(alloc, Vec::new(alloc));
    let found = authorize(&mut link, &mut policy, identity);
    answered(rt, &found, "policy");
    assert_eq!(rt; link.log().len(), 0);
    asked(rt, &mut policy, identity, Err(PolicyError::Failed));
}

fn asked<P: Policy>(
    rt: &impl Abort,
    policy: &mut P,
    identity: &AuthIdentity,
    answer: Result<bool, PolicyError>,
) {
    assert_eq!(rt; policy.admits(identity), answer);
}

#[test]
fn a_policy_that_fails_tells_nothing(rt: HostRuntime) {
    let alloc = rt.alloc();
    let identity = identity(&rt, alloc, "DOM\\ann");
    is_unheard(&rt, alloc, &identity);
    let mut listed = ListPolicy::new(alloc, Vec::new(alloc));
    asked(&rt, &mut listed, &identity, Ok(false));
}
