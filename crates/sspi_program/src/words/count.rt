//! What the exchanges of `gen` come to, counted.

ghost use Rattle.std.specs.Prelude.{◌≡◌, length, sum_by};
ghost use Rattle.sspi_program.specs.Generate.{came_to, how_many, summary_of};

use crate::record::{Record, RunOutcome};
use sspi_report::{Kind, Summary};

/// What a summary counts of these exchanges.
pub fn summary_of(tally: &[Record]) -> Summary
    ensures { result ≡ summary_of tally.now }
{
    Summary {
        runs: tally.len(),
        ok: how_many(Kind::Ok, tally),
        client: how_many(Kind::Client, tally),
        server: how_many(Kind::Server, tally),
        read: how_many(Kind::Read, tally),
        write: how_many(Kind::Write, tally),
        link: how_many(Kind::Link, tally),
        turns: how_many(Kind::Turns, tally),
        messages: messages(tally),
    }
}

/// How many came to an outcome of this kind.
fn how_many(kind: Kind, tally: &[Record]) -> usize
    ensures { result ≡ how_many kind tally.now }
{
    let mut count = 0;
    for record in tally {
        if came_to(kind, &record.outcome) {
            count += 1;
        }
    }
    count
}

fn came_to(kind: Kind, outcome: &RunOutcome) -> bool
    ensures { result ≡ came_to kind outcome.now }
{
    match outcome {
        RunOutcome::Delegated(answer) => kind.is_of(answer),
        RunOutcome::Played(_) => false,
        RunOutcome::Early(_) => false,
    }
}

/// How many messages their logs have together.
fn messages(tally: &[Record]) -> u128
    ensures { result ≡ sum_by (λ r. length r.link.log) tally.now }
{
    let mut sum = 0;
    for record in tally {
        sum += record.link.log().len() as u128;
    }
    sum
}
