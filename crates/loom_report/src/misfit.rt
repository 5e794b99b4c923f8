//! Why the words of a call are no command.
ghost use Rattle.std.specs.Prelude.{◌≤◌};

/// How many bytes a filter's text has at most.
const TEXT_LIMIT: usize = 65_536;

/// How many entries of threads may be asked for at most.
const ENTRY_LIMIT: u32 = 1_000_000;

/// Where words leave the forms of commands.
#[derive(Clone, Copy)]
pub enum Misfit<'a> {
    /// They end before this.
    Missing(&'static str),
    /// This word isn't what has to stand there. Words are counted from 1.
    Word {
        number: usize,
        word: &'a str,
        why: &'static str,
    },
}

// The word of that number, where it isn't what has to stand there.
fn word_misfit<'a>(number: usize, word: &'a str, why: &'static str) -> Misfit<'a> {
    Misfit::Word { number, word, why }
}

// Whether it names a file.
fn is_file_name(word: &str) -> bool {
    match word.as_bytes() {
        [] => false,
        [first, ..] => *first != b'-',
    }
}

// Whether it is a number of entries: in decimal, without leading zeros.
fn is_limit(word: &str) -> bool {
    match word.as_bytes() {
        [] => false,
        [first, ..] => {
            *first != b'0' && *first != b'+' && word.parse::<u32>().is_ok_and(|n| n <= ENTRY_LIMIT)
        }
    }
}

// Where words behind `run` and its files leave the form, the first of them having this number.
fn steps_misfit<'a>(words: &[&'a str], number: usize, why: &'static str) -> Misfit<'a>
    requires { number ≤ 4 }
{
    match words {
        [option, ..] if *option != "--steps" => word_misfit(number, option, why),
        [_, limit, ..] if !is_limit(limit) => word_misfit(
            number + 1,
            limit,
            "--steps wants a number from 1 to 1000000, without leading zeros",
        ),
        [_, _, word, ..] => word_misfit(number + 2, word, "nothing may follow the number"),
        _ => Misfit::Missing("the number behind --steps"),
    }
}

// Where words behind `run` and the program's file leave the form.
fn run_misfit<'a>(words: &[&'a str]) -> Misfit<'a> {
    match words {
        [script, rest @ ..] if is_file_name(script) => {
            steps_misfit(rest, 4, "only --steps may follow the script")
        }
        _ => steps_misfit(
            words,
            3,
            "only the file of a script and --steps may follow the program's file",
        ),
    }
}

// Where words behind `show` and a file leave the form.
fn show_misfit<'a>(words: &[&'a str]) -> Misfit<'a> {
    match words {
        [text, ..] if text.len() > TEXT_LIMIT => {
            word_misfit(3, text, "a filter has at most 65536 bytes")
        }
        [_, word, ..] => word_misfit(
            4,
            word,
            "nothing may follow the filter, which is one word, in quotes",
        ),
        _ => Misfit::Missing("the file of a program"),
    }
}

/// Where words that are no command first leave the forms of commands.
pub fn misfit_of<'a>(words: &[&'a str]) -> Misfit<'a> {
    match words {
        [] => Misfit::Missing("a command, run or show,"),
        [command, ..] if *command != "run" && *command != "show" => {
            word_misfit(1, command, "the commands are run and show")
        }
        [_] => Misfit::Missing("the file of a program"),
        [_, name, ..] if !is_file_name(name) => word_misfit(
            2,
            name,
            "a file's name isn't empty and doesn't begin with -",
        ),
        [command, _, rest @ ..] if *command == "run" => run_misfit(rest),
        [_, _, rest @ ..] => show_misfit(rest),
    }
}
