//! The code of docs/GUIDE.md: a module for each of its parts, and a program that runs them.
#![tactic(auto)]

mod carrier;
mod delegation;
mod hello;
mod host;
mod messages;
mod negotiated;
mod outside;
mod part;
mod suspended;

use crate::hello::Hello;
use crate::part::say;
use sspi_mech::Ntlm;
use std::io;

fn main(rt: HostRuntime) -> io::Result<()> {
    let alloc = rt.alloc();
    say(&rt, alloc, "by hand", delegation::both::<Ntlm>(alloc))?;
    say(&rt, alloc, "messages", messages::both(alloc))?;
    say(&rt, alloc, "hello", delegation::both::<Hello>(alloc))?;
    say(&rt, alloc, "outside", outside::both(alloc))?;
    say(&rt, alloc, "carrier", carrier::both::<Ntlm>(alloc))?;
    say(&rt, alloc, "suspended", suspended::both(alloc))?;
    say(&rt, alloc, "host", host::both(alloc))?;
    say(&rt, alloc, "negotiated", negotiated::both(alloc))?;
    say(&rt, alloc, "picked", negotiated::picked(alloc))?;
    say(&rt, alloc, "preferred", negotiated::preferred(alloc))?;
    say(&rt, alloc, "a MIC was changed", negotiated::changed(alloc))
}
