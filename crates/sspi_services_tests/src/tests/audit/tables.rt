//! Tables of changes: a row is one change, a column a turn or an entry of an exchange that was
//! recorded whole, in which that change alone is made.
//!
//! A row is a field and its change: what begins with `;`, `,`, `+` or `~` is added to what the
//! field has, as in `records`, and what follows `=` replaces it. `both` changes what a turn was
//! given and its message, and `bare` makes the turn a refusal without one. A cell is the number of
//! the turn at fault, or `y` with the number of the turn that sealed, if there is one. A dot means
//! that the change changes nothing or cannot be made.
//!
//! Turns have two groups of cells. For the first, all is recorded. For the second, nothing later
//! is, nor what the turn was given and sent, so that it is judged by its own fields. If these are
//! right, the number is that of the next turn, since an entry is missing.

use crate::tests::audit::records::{Record, Test, found, given, halves, told, unchanged};
use sspi_audit::Verdict;

/// An exchange, and the names of its turns and of its entries.
#[derive(Clone, Copy)]
pub struct Whole<'a> {
    pub exchange: &'a str,
    pub turns: &'a str,
    pub entries: &'a str,
}

/// A field of a line with what is added to it or replaces it.
fn change(rt: &impl Test, exchange: &str, name: char, field: &str, how: &str) -> String {
    match how.strip_prefix("=") {
        Some(value) => given(rt, format!(in rt.alloc(); "{name}.{field}={value}")),
        None => {
            let old = told(rt, unchanged(exchange, name, field));
            given(rt, format!(in rt.alloc(); "{name}.{field}={old}{how}"))
        }
    }
}

fn changes(rt: &impl Test, exchange: &str, name: char, row: &str) -> String {
    let (field, how) = halves(rt, row, " ");
    match field {
        "both" => {
            let request = change(rt, exchange, name, "given", how);
            let message = change(rt, exchange, name, "message", how);
            given(rt, format!(in rt.alloc(); "{request} {message}"))
        }
        "bare" => {
            let refusal = change(rt, exchange, name, "outcome", how);
            given(rt, format!(in rt.alloc(); "{refusal} {name}.message=-"))
        }
        field => change(rt, exchange, name, field, how),
    }
}

fn verdict(rt: &impl Test, cell: &str) -> Verdict {
    match cell.strip_prefix("y") {
        Some("") => Verdict::Yes(None),
        Some(sealing) => Verdict::Yes(Some(given(rt, sealing.parse()))),
        None => Verdict::No(given(rt, cell.parse())),
    }
}

/// The first `count` names.
fn first_names(rt: &impl Test, names: &str, count: usize) -> String {
    let mut first = String::new(rt.alloc());
    for (place, name) in names.chars().enumerate() {
        if place < count {
            given(rt, first.push(name));
        }
    }
    first
}

fn is_judged(
    rt: &impl Test,
    exchange: &str,
    turns: &str,
    entries: &str,
    name: char,
    row: &str,
    cell: &str,
) {
    let changes = changes(rt, exchange, name, row);
    let record = Record {
        exchange,
        changes: &changes,
    };
    let found = found(rt, record, turns, entries);
    assert!(rt;
        found == verdict(rt, cell),
        "{changes} of {turns} {entries}"
    );
}

/// Judges the cells of a row with all that was recorded; counts those that are not dots.
fn row_of_all(rt: &impl Test, whole: Whole<'_>, names: &str, row: &str, cells: &str) -> u32 {
    let mut seen = 0u32;
    for (name, cell) in names.chars().zip(cells.split_whitespace()) {
        if cell != "." {
            is_judged(
                rt,
                whole.exchange,
                whole.turns,
                whole.entries,
                name,
                row,
                cell,
            );
            seen = seen.wrapping_add(1);
        }
    }
    seen
}

/// The same with the turns up to each, and the entries of the turns before the one before it.
fn row_of_each(rt: &impl Test, whole: Whole<'_>, row: &str, cells: &str) -> u32 {
    let mut seen = 0u32;
    let named = whole.turns.chars().zip(cells.split_whitespace());
    for (place, (name, cell)) in named.enumerate() {
        if cell != "." {
            let turns = first_names(rt, whole.turns, place.saturating_add(1));
            let entries = first_names(rt, whole.entries, place.saturating_sub(1));
            is_judged(rt, whole.exchange, &turns, &entries, name, row, cell);
            seen = seen.wrapping_add(1);
        }
    }
    seen
}

/// Each row of a table of turns, which has `count` cells that are not dots.
pub fn turns_are_judged(rt: &impl Test, whole: Whole<'_>, rows: &str, count: u32) {
    let mut seen = 0u32;
    for line in rows.lines() {
        let (row, cells) = halves(rt, line, " | ");
        let (of_all, of_each) = halves(rt, cells, " | ");
        let row = row.trim_end();
        seen = seen.wrapping_add(row_of_all(rt, whole, whole.turns, row, of_all));
        seen = seen.wrapping_add(row_of_each(rt, whole, row, of_each));
    }
    assert_eq!(rt; seen, count);
}

/// Each row of a table of entries.
pub fn entries_are_judged(rt: &impl Test, whole: Whole<'_>, rows: &str, count: u32) {
    let mut seen = 0u32;
    for line in rows.lines() {
        let (row, cells) = halves(rt, line, " | ");
        seen = seen.wrapping_add(row_of_all(rt, whole, whole.entries, row.trim_end(), cells));
    }
    assert_eq!(rt; seen, count);
}

/// The names without the one at this place, with it twice, or with it after the next.
fn reordered(rt: &impl Test, names: &str, place: usize, how: &str) -> String {
    let mut ordered = String::new(rt.alloc());
    let mut kept = None;
    for (at, name) in names.chars().enumerate() {
        if at == place && how == "swapped" {
            kept = Some(name);
            continue;
        }
        let times = match how {
            _ if at != place => 1,
            "missing" => 0,
            "doubled" => 2,
            _ => rt.abort(),
        };
        for _ in 0..times {
            given(rt, ordered.push(name));
        }
        if let Some(name) = kept.take() {
            given(rt, ordered.push(name));
        }
    }
    ordered
}

fn order_is_judged(rt: &impl Test, whole: Whole<'_>, row: &str, place: usize, cell: &str) {
    let (what, how) = halves(rt, row, " ");
    let record = Record {
        exchange: whole.exchange,
        changes: "",
    };
    let found = match what {
        "turns" => {
            let turns = reordered(rt, whole.turns, place, how);
            found(rt, record, &turns, whole.entries)
        }
        "entries" => {
            let entries = reordered(rt, whole.entries, place, how);
            found(rt, record, whole.turns, &entries)
        }
        _ => rt.abort(),
    };
    assert!(rt; found == verdict(rt, cell), "{row} {place}");
}

/// Each row of a table whose columns are places: `turns` or `entries`, and `missing`, `doubled` or
/// `swapped` for what is done at each of them.
pub fn orders_are_judged(rt: &impl Test, whole: Whole<'_>, rows: &str, count: u32) {
    let mut seen = 0u32;
    for line in rows.lines() {
        let (row, cells) = halves(rt, line, " | ");
        for (place, cell) in cells.split_whitespace().enumerate() {
            if cell != "." {
                order_is_judged(rt, whole, row.trim_end(), place, cell);
                seen = seen.wrapping_add(1);
            }
        }
    }
    assert_eq!(rt; seen, count);
}
