//! What the words of the program ask for.
ghost use Rattle.std.specs.Prelude.{◌≡◌};
ghost use Rattle.sspi_program.specs.Commands;
ghost use Rattle.sspi_program.specs.Commands.{command_named, command_of, counted};
ghost use Rattle.sspi_program.specs.Commands.{numbered_command, task_named};
ghost use Rattle.sspi_program.specs.declared.command.TheConstants.{MOST_SCENARIOS, MOST_SESSIONS};

use sspi_scenario::Purpose;
use sspi_scenario::number::number;

/// The most scenarios that are made.
pub const MOST_SCENARIOS: u32 = 10_000;

/// The most sessions that a desk has.
pub const MOST_SESSIONS: u32 = 64;

/// What the words of the program ask for.
#[derive(Clone, Copy)]
pub enum Command {
    /// This task, for the scenario in the text of the source.
    Told(Task),
    /// The exchanges of this many scenarios, made from their numbers. The source is not read.
    Gen(u32),
    /// What the messages in the text of the source say.
    Explain,
}

/// What is done with a scenario.
#[derive(Clone, Copy)]
pub enum Task {
    /// Its ends carry their messages to each other over its link.
    Delegate,
    /// Its ends take the deliveries of its schedule.
    Play,
    /// What `Delegate` does, and then a relay passes on what the link delivered.
    Gate,
    /// What `Delegate` does, and then its turns and its log are judged.
    Audit,
    /// What `Delegate` does, and then its server tells whether the user may log on.
    Early,
    /// This many of its clients have a session each at one desk.
    Desk(u32),
}

impl Task {
    /// What the scenario of this task is for.
    pub fn purpose(self) -> Purpose
        ensures { result ≡ Commands.purpose_of self }
    {
        match self {
            Task::Delegate | Task::Gate | Task::Audit => Purpose::Exchange,
            Task::Play => Purpose::Play,
            Task::Early => Purpose::Early,
            Task::Desk(_) => Purpose::Sessions,
        }
    }
}

/// The command of these words, which are its name and, if it has one, its number.
pub fn command_of(words: &[String]) -> Option<Command>
    ensures { result ≡ command_of words.now }
{
    match words {
        [word] => command_named(word.as_str()),
        [word, digits] => numbered_command(word.as_str(), digits.as_str()),
        _ => None,
    }
}

#[tactic(auto, unfolding(crate::specs::Commands::command_named))]
fn command_named(word: &str) -> Option<Command>
    ensures { result ≡ command_named word.now }
{
    if word == "explain" {
        return Some(Command::Explain);
    }
    let task = task_named(word)?;
    Some(Command::Told(task))
}

fn numbered_command(word: &str, digits: &str) -> Option<Command>
    ensures { result ≡ numbered_command word.now digits.now }
{
    match word {
        "gen" => match counted(MOST_SCENARIOS, digits) {
            Some(count) => Some(Command::Gen(count)),
            None => None,
        },
        "desk" => match counted(MOST_SESSIONS, digits) {
            Some(count) => Some(Command::Told(Task::Desk(count))),
            None => None,
        },
        _ => None,
    }
}

/// The number from 1 to `most` that these decimal digits denote, without a sign or a leading zero.
fn counted(most: u32, digits: &str) -> Option<u32>
    ensures { result ≡ counted most digits.now }
{
    match number(digits) {
        Some(count) if count >= 1 && count <= most => Some(count),
        _ => None,
    }
}

fn task_named(word: &str) -> Option<Task>
    ensures { result ≡ task_named word.now }
{
    match word {
        "delegate" => Some(Task::Delegate),
        "play" => Some(Task::Play),
        "gate" => Some(Task::Gate),
        "audit" => Some(Task::Audit),
        "early" => Some(Task::Early),
        _ => None,
    }
}
