// What the words after the program's name command.
ghost use Rattle.std.specs.Prelude.{◌≡◌, ◌&&◌, leb};
ghost use Rattle.box_tool.specs.Commands.{command_of, least, most};

// What is printed of an input; of a thread, by its number.
#[derive(Clone, Copy)]
pub enum Job {
    Run,
    Save,
    Strip,
    Draw,
    Reached(usize),
}

#[derive(Clone, Copy)]
pub enum Command {
    Print(Job),
    Check,
    Reach,
    Explain,
    Version,
    Help,
    Unknown,
}

#[tactic(auto, unfolding(crate::specs::Commands::command_of, crate::specs::Commands::input_command_of))]
pub fn command_of(word: &[u8]) -> Command
    ensures { result ≡ command_of word.now }
{
    let is = |name: &[u8]| word == name;
    if is(b"explain") {
        return Command::Explain;
    }
    if is(b"--version") {
        return Command::Version;
    }
    if is(b"--help") {
        return Command::Help;
    }
    if is(b"help") {
        return Command::Help;
    }
    if is(b"check") {
        return Command::Check;
    }
    if is(b"run") {
        return Command::Print(Job::Run);
    }
    if is(b"save") {
        return Command::Print(Job::Save);
    }
    if is(b"strip") {
        return Command::Print(Job::Strip);
    }
    if is(b"draw") {
        return Command::Print(Job::Draw);
    }
    if is(b"reach") {
        return Command::Reach;
    }
    Command::Unknown
}

// Whether so many words may follow the command.
pub fn takes(command: Command, words: usize) -> bool
    ensures { result ≡ (leb (least command) words && leb words (most command)) }
{
    match command {
        Command::Print(_) | Command::Check | Command::Explain => (0..=1).contains(&words),
        Command::Reach => (2..=2).contains(&words),
        Command::Version | Command::Help | Command::Unknown => (0..=0).contains(&words),
    }
}
