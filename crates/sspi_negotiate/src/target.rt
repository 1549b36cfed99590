//! Which targets are named by an IP address.

ghost use Rattle.std.specs.Prelude.{◌≡◌, ◌↔◌, ◌+◌, ◌<◌, false, IsTrue, MatchOption, length, drop};
ghost use Rattle.std.specs.Prelude.{slice_index, option_copied};
ghost use Rattle.std.specs.List.{list_any};
ghost use Rattle.sspi_names.specs.Places.{IsLast};
ghost use Rattle.sspi_negotiate.specs.Target.{IsNamedByIp, host_of, is_slash};

use crate::ip_text::is_ip_text;

/// Whether the host of a target, what follows its last `/` or all of it, is an IP address.
pub(crate) fn is_named_by_ip(target: Option<&str>) -> bool
    ensures { IsTrue result ↔ IsNamedByIp (option_copied target.entry) }
{
    match target {
        None => false,
        Some(target) => is_ip_text(host_of(target)),
    }
}

#[tactic(auto, using(crate::proofs::Slash::last_slash_found))]
fn last_slash(target: &str) -> Option<usize>
    ensures { MatchOption result (list_any is_slash target.now ≡ false)
        (λ at. IsLast 47 target.now at) }
{
    target.rfind('/')
}

/// What follows the ASCII character at `at`.
fn after(text: &str, at: usize) -> &str
    requires within { at < length text.now }
    requires ascii { slice_index text.now at < 128 }
    ensures { result.now ≡ drop (at + 1) text.now }
{
    &text[at + 1..]
}

fn host_of(target: &str) -> &str
    ensures { result.now ≡ host_of target.now }
{
    match last_slash(target) {
        None => target,
        Some(at) => after(target, at),
    }
}
