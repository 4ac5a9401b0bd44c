ghost use Rattle.std.specs.Prelude.{◌≡◌, ℕ, ◌≤◌, [], ◌∷◌, IfNone, IfSome, MatchOption, decimal};
ghost use Rattle.kres_tool.specs.declared.commands.Command.{Command};
ghost use Rattle.kres_tool.specs.Words.{Asks, AsksNoThread, IsAllowed, command_by, most_workers, threaded_by, words_of};

/// What is done with a script that is read from the source.
#[derive(Clone, Copy)]
pub enum Task {
    /// It is run, and its events are reported.
    Sim,
    /// It is run by so many workers, and its history is reported.
    Threads(u32),
    /// It is printed in its canonical form.
    Print,
}

/// What the words after the program's name ask for.
#[derive(Clone, Copy)]
pub enum Command {
    /// Reads a script.
    OnScript(Task),
    /// Prints the price list.
    Table,
    /// Prints the generated script of so many rounds.
    Gen(u32),
    /// Runs the generated script of so many rounds, and sums its run up.
    Load(u32),
    /// Reads a text of groups, and runs them by so many workers.
    Groups(u32),
}

/// The most rounds of a generated script.
const MOST_ROUNDS: u32 = 1000;

/// The most workers that run a script.
const MOST_WORKERS: u32 = 64;

/// What the words want done in threads.
#[derive(Clone, Copy)]
pub enum Threaded {
    /// A script is run by so many workers.
    Script(u32),
    /// Groups are run by so many workers.
    Groups(u32),
}

/// What the words want done in threads; None where they are another command, or none.
pub fn threaded_of(words: &[String]) -> Option<Threaded>
    ensures { MatchOption result (AsksNoThread words.now) (λ threaded. Asks words.now (command_by threaded)) }
{
    match command_of(words) {
        Some(command) => threaded_by(command),
        None => None,
    }
}

/// What a command does in threads; None where it starts none.
fn threaded_by(command: Command) -> Option<Threaded>
    ensures { result ≡ threaded_by command }
{
    match command {
        Command::OnScript(Task::Threads(workers)) => Some(Threaded::Script(workers)),
        Command::Groups(workers) => Some(Threaded::Groups(workers)),
        Command::OnScript(Task::Sim | Task::Print)
        | Command::Table
        | Command::Gen(_)
        | Command::Load(_) => None,
    }
}

/// The command that the words are; None where they are none.
pub fn command_of(words: &[String]) -> Option<Command>
    ensures { MatchOption result ((command : Command) → Asks words.now command → ⊥) (Asks words.now) }
{
    match words {
        [word] => alone(word.as_str()),
        [word, number] => with_number(word.as_str(), number.as_str()),
        _ => None,
    }
}

/// The command that is one word.
fn alone(word: &str) -> Option<Command>
    ensures { MatchOption result ((command : Command) → word.now ∷ [] ≡ words_of command → ⊥)
        (λ command. (word.now ∷ [] ≡ words_of command) × IsAllowed command) }
{
    if word == "sim" {
        return Some(Command::OnScript(Task::Sim));
    }
    if word == "print" {
        return Some(Command::OnScript(Task::Print));
    }
    if word == "table" {
        return Some(Command::Table);
    }
    None
}

/// The command that is a word and a number.
fn with_number(word: &str, number: &str) -> Option<Command>
    ensures { MatchOption result ((command : Command) → word.now ∷ number.now ∷ [] ≡ words_of command → IsAllowed command → ⊥)
        (λ command. (word.now ∷ number.now ∷ [] ≡ words_of command) × IsAllowed command) }
{
    if word == "gen" {
        return Some(Command::Gen(number_within(number, MOST_ROUNDS)?));
    }
    if word == "load" {
        return Some(Command::Load(number_within(number, MOST_ROUNDS)?));
    }
    if word == "threads" {
        return Some(Command::OnScript(Task::Threads(workers_of(number)?)));
    }
    if word == "groups" {
        return Some(Command::Groups(workers_of(number)?));
    }
    None
}

/// A number of workers: one at least.
fn workers_of(number: &str) -> Option<u32>
    ensures some { IfSome result (λ n. (number.now ≡ decimal n) × (1 ≤ n) × (n ≤ most_workers)) }
    ensures none { IfNone result ((n : ℕ) → 1 ≤ n → n ≤ most_workers → number.now ≡ decimal n → ⊥) }
{
    match number_within(number, MOST_WORKERS)? {
        0 => None,
        workers => Some(workers),
    }
}

/// A number of at most so much: decimal digits without a sign, and no zero before others.
fn number_within(number: &str, most: u32) -> Option<u32>
    ensures some { IfSome result (λ n. (number.now ≡ decimal n) × (n ≤ most)) }
    ensures none { IfNone result ((n : ℕ) → n ≤ most → number.now ≡ decimal n → ⊥) }
{
    if number == "0" {
        return Some(0);
    }
    let digits = number.as_bytes();
    if digits.is_empty() {
        return None;
    }
    // A sign or a zero stands first.
    if digits[0] < b'1' {
        return None;
    }
    let Ok(read) = number.parse::<u32>() else {
        return None;
    };
    if read <= most { Some(read) } else { None }
}
