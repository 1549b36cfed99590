//! Where the separator of a user name is.

ghost use Rattle.std.specs.Prelude.{◌≡◌, ◌<◌, false, None, Some, MatchOption};

use crate::separators::{after, contains_backslash, first_backslash, last_at_sign};

/// Where the separator is in the text that shows a name.
#[derive(Clone, Copy)]
pub(crate) enum Shape {
    /// `account@domain`, with the `@` at this place.
    Principal(usize),
    /// `domain\account`, with the `\` at this place.
    Qualified(usize),
    /// A down-level name without a domain.
    Bare,
}

impl Shape {
    ghost use Rattle.sspi_names.specs.Name.{parse_name, has_at_sign, backslash};
    ghost use Rattle.sspi_names.specs.Splits.{IsSplit};
    ghost use Rattle.sspi_names.specs.Places.{IsFirst};

    /// The text that shows the name in `value`, and its shape; `None` if the forms are mixed.
    pub(crate) fn split(value: &str) -> Option<(&str, Shape)>
        ensures { MatchOption result (parse_name value.now ≡ None)
            (λ kept. IsSplit value.now kept.0.now kept.1) }
    {
        match (last_at_sign(value), first_backslash(value)) {
            (Some(_), Some(_)) => None,
            (Some(at), None) => Some((value, Shape::Principal(at))),
            (None, Some(at)) => Shape::split_domain(value, at),
            (None, None) => Some((value, Shape::Bare)),
        }
    }

    /// The same for a text without `@` whose first `\` is at `at`.
    fn split_domain(value: &str, at: usize) -> Option<(&str, Shape)>
        requires first { IsFirst backslash value.now at }
        requires unmixed { has_at_sign value.now ≡ false }
        ensures { MatchOption result (parse_name value.now ≡ None)
            (λ kept. IsSplit value.now kept.0.now kept.1) }
    {
        let account = after(value, at);
        if contains_backslash(account) {
            return None;
        }
        if at == 0 {
            Some((account, Shape::Bare))
        } else {
            Some((value, Shape::Qualified(at)))
        }
    }
}
