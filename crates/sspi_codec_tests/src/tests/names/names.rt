//! User names, read, made and refused.

use crate::tests::checks::{answered, compares, gives, holds, refusal};
use sspi_names::{UserNameFormat, Username, UsernameError};
use std::alloc::Global;
use std::process::Abort;

/// `parsed` names with their form, account and domain; texts that mix the forms; `made` names of an
/// account and a domain with how they are displayed; and such parts that mix the forms.
const NAMES: &str = "\
parsed|user@dept@tbt.com|principal|user@dept|tbt.com
parsed|@|principal||
parsed|DOM\\ann|down|ann|DOM
parsed|DOM\\|down||DOM
parsed|\\ann|down|ann|.
parsed|ann|down|ann|.
parsed||down||.
parsed|D\u{f6}m\\\u{1f600}|down|\u{1f600}|D\u{f6}m
mixed|a\\b@c|||
mixed|a@b\\c|||
mixed|a\\b\\c|||
mixed|\\\\|||
made|a|D|D\\a|
made|a||a|
made|a|.|a|
made||D|D\\|
made|a@b@c|.|a@b@c|
made|a@b||a@b|
made|\\a|.|a|
made|D\\a|.|D\\a|
unmade|a@b|D||
unmade|a\\b|D||
unmade|a|D@||
unmade|a|\\D||
unmade|a@b\\c|||";

#[test]
fn names_are_read_made_and_shown(rt: HostRuntime) {
    for line in NAMES.lines() {
        try_line(&rt, rt.alloc(), line);
    }
}

/// Up to the next `|`, and what follows it; everything if there is none.
pub fn field(line: &str) -> (&str, &str) {
    match line.split_once('|') {
        Some((first, rest)) => (first, rest),
        None => (line, ""),
    }
}

/// A dot means no text.
pub fn text_of(field: &str) -> Option<&str> {
    if field == "." { None } else { Some(field) }
}

fn try_line(rt: &impl Abort, alloc: Global, line: &str) {
    let (verb, rest) = field(line);
    let (first, rest) = field(rest);
    let (second, rest) = field(rest);
    let (third, fourth) = field(rest);
    match verb {
        "parsed" => {
            let name = Username::parse(alloc, first);
            parses(rt, answered(rt, name, line), second, third, text_of(fourth));
        }
        "mixed" => is_mixed(rt, Username::parse(alloc, first), line),
        "made" => {
            let name = Username::new(alloc, first, text_of(second));
            shows(rt, alloc, answered(rt, name, line), third);
        }
        "unmade" => is_mixed(rt, Username::new(alloc, first, text_of(second)), line),
        _ => holds(rt, false, line),
    }
}

fn parses(rt: &impl Abort, name: Username, form: &str, account: &str, domain: Option<&str>) {
    let is_principal = name.format() == UserNameFormat::UserPrincipalName;
    holds(rt, is_principal == (form == "principal"), account);
    holds(rt, name.account_name() == account, account);
    holds(rt, name.domain_name() == domain, account);
}

fn is_mixed(rt: &impl Abort, name: Result<Username, UsernameError>, line: &str) {
    let error = refusal(rt, name, line);
    holds(rt, error == UsernameError::MixedFormat, line);
}

fn shows(rt: &impl Abort, alloc: Global, name: Username, shown: &str) {
    holds(rt, name.inner() == shown, shown);
    gives(rt, name.clone(alloc), &name, shown);
}

/// Two names, whether they are equal except for the case of ASCII letters, and whether they are
/// equal. Only ASCII letters have a case here: the Kelvin sign is not a `k`. Equality considers
/// case, the form and the two parts, and nothing else.
const PAIRS: &str = "\
DOM\\ann|dom\\ANN|y|n
ann@Example.com|ANN@example.COM|y|n
ann@DOM|DOM\\ann|n|n
ann|ANN|y|n
\\ann|ann|y|y
DOM\\ann|ann|n|n
k|\u{212a}|n|n
\u{f6}|\u{d6}|n|n
[|{|n|n
DOM\\ann|DOM\\ann|y|y
DOM\\ann|dom\\ann|y|n
DOM\\ann|DOM\\Ann|y|n";

#[test]
fn names_are_compared(rt: HostRuntime) {
    for line in PAIRS.lines() {
        try_pair(&rt, rt.alloc(), line);
    }
}

fn try_pair(rt: &impl Abort, alloc: Global, line: &str) {
    let (first, rest) = field(line);
    let (second, rest) = field(rest);
    let (same, equal) = field(rest);
    let a = answered(rt, Username::parse(alloc, first), line);
    let b = answered(rt, Username::parse(alloc, second), line);
    holds(rt, a.eq_ignore_ascii_case(&b) == (same == "y"), line);
    holds(rt, b.eq_ignore_ascii_case(&a) == (same == "y"), line);
    holds(rt, a.eq_ignore_ascii_case(&a), line);
    compares(rt, a, b, equal == "y", line);
}
