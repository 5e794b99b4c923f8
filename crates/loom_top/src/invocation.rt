//! The invocation: what the words of a call ask for.
ghost use Rattle.std.specs.Prelude.{◌≡◌, ◌↔◌, ◌≤◌, List, ℕ, codes, map, IfSome, IfNone, IsTrue};
ghost use Rattle.loom_tree.specs.Decimal.{decimal};
ghost use Rattle.loom_trace.specs.Limits.{entry_limit};
ghost use Rattle.loom_top.specs.Invocation.{Invocation as Asked, Task as Wanted, IsInvocation, IsFileName, HasBounds, AreLimitWords, AreTaskWords};
ghost use Rattle.loom_top.specs.Task.{task_of};

use loom_trace::limits::ENTRY_LIMIT;
use loom_trace::line::Line;
use loom_trace::text::put_printed;

/// How many entries threads make at most, where the words don't say it.
const DEFAULT_LIMIT: u32 = 100_000;

/// How many bytes a filter's text has at most.
const TEXT_LIMIT: usize = 65_536;

/// What is done with a program's file.
#[derive(Clone, Copy, Debug, Drop)]
pub enum Task<'a> {
    /// It is run.
    Run {
        /// The name of the script's file, if there is one.
        script: Option<&'a str>,
        /// How many entries threads make at most: 1 to 1,000,000.
        limit: u32,
    },
    /// Its canonical text is written.
    Show,
    /// What a filter is for it is written.
    ShowFilter {
        /// The filter's text: 65,536 bytes at most.
        text: &'a str,
    },
}

/// A program's file, and what is done with it.
#[derive(Clone, Copy, Debug, Drop)]
pub struct Invocation<'a> {
    /// The name of the program's file.
    pub name: &'a str,
    pub task: Task<'a>,
}

fn is_file_name(name: &[u8]) -> bool
    ensures { IsTrue result ↔ IsFileName name.now }
{
    match name {
        [] => false,
        [first, ..] => *first != b'-',
    }
}

// Whether the text is this number in decimal.
fn is_decimal(text: &str, number: u32) -> bool
    ensures { IsTrue result ↔ (text.now ≡ decimal number) }
{
    let mut line = Line::new();
    put_printed(i64::from(number), &mut line);
    line.bytes() == text.as_bytes()
}

// The limit that the text gives.
fn limit_of(text: &str) -> Option<u32>
    ensures written { IfSome result (λ limit. text.now ≡ decimal limit) }
    ensures least { IfSome result (λ limit. 1 ≤ limit) }
    ensures most { IfSome result (λ limit. limit ≤ entry_limit) }
    ensures none { IfNone result ((limit : ℕ) → 1 ≤ limit → limit ≤ entry_limit → text.now ≡ decimal limit → ⊥) }
{
    match text.parse::<u32>() {
        Ok(limit) => {
            if 1 <= limit && limit <= ENTRY_LIMIT && is_decimal(text, limit) {
                Some(limit)
            } else {
                None
            }
        }
        Err(_) => None,
    }
}

// The limit that these words give, with none behind it.
fn limit_by(words: &[&str]) -> Option<u32>
    ensures found { IfSome result (λ limit. AreLimitWords (map (λ w. w.now) words.now) limit) }
    ensures least { IfSome result (λ limit. 1 ≤ limit) }
    ensures most { IfSome result (λ limit. limit ≤ entry_limit) }
    ensures none { IfNone result ((limit : ℕ) → AreLimitWords (map (λ w. w.now) words.now) limit → ⊥) }
{
    match words {
        [] => Some(DEFAULT_LIMIT),
        [option, digits] if *option == "--steps" => limit_of(digits),
        _ => None,
    }
}

// What the words ask for behind `run` and the program's file.
fn run_by<'a>(words: &[&'a str]) -> Option<Task<'a>>
    ensures found { IfSome result (λ t. AreTaskWords (codes "run") (map (λ w. w.now) words.now) (task_of t)) }
    ensures bounds { IfSome result (λ t. HasBounds (task_of t)) }
    ensures none { IfNone result ((t : Wanted) → AreTaskWords (codes "run") (map (λ w. w.now) words.now) t → ⊥) }
{
    match words {
        [] => Some(Task::Run {
            script: None,
            limit: DEFAULT_LIMIT,
        }),
        [script, behind @ ..] if is_file_name(script.as_bytes()) => Some(Task::Run {
            script: Some(*script),
            limit: limit_by(behind)?,
        }),
        _ => Some(Task::Run {
            script: None,
            limit: limit_by(words)?,
        }),
    }
}

// What they ask for behind `show` and the program's file.
fn show_by<'a>(words: &[&'a str]) -> Option<Task<'a>>
    ensures found { IfSome result (λ t. AreTaskWords (codes "show") (map (λ w. w.now) words.now) (task_of t)) }
    ensures bounds { IfSome result (λ t. HasBounds (task_of t)) }
    ensures none { IfNone result ((t : Wanted) → AreTaskWords (codes "show") (map (λ w. w.now) words.now) t → ⊥) }
{
    match words {
        [] => Some(Task::Show),
        [text] if text.len() <= TEXT_LIMIT => Some(Task::ShowFilter { text: *text }),
        _ => None,
    }
}

// What they ask for behind the first word and the program's file.
fn task_by<'a>(first: &str, words: &[&'a str]) -> Option<Task<'a>>
    ensures found { IfSome result (λ t. AreTaskWords first.now (map (λ w. w.now) words.now) (task_of t)) }
    ensures bounds { IfSome result (λ t. HasBounds (task_of t)) }
    ensures none { IfNone result ((t : Wanted) → AreTaskWords first.now (map (λ w. w.now) words.now) t → ⊥) }
{
    if first == "run" {
        run_by(words)
    } else if first == "show" {
        show_by(words)
    } else {
        None
    }
}

/// What the words ask for.
pub fn invocation_of<'a>(words: &[&'a str]) -> Option<Invocation<'a>>
    ensures found { IfSome result (λ c. IsInvocation (map (λ w. w.now) words.now) (record { name = c.name.now; task = task_of c.task })) }
    ensures bounds { IfSome result (λ c. HasBounds (task_of c.task)) }
    ensures none { IfNone result ((c : Asked) → IsInvocation (map (λ w. w.now) words.now) c → ⊥) }
{
    let [first, name, behind @ ..] = words else {
        return None;
    };
    if !is_file_name(name.as_bytes()) {
        return None;
    }
    Some(Invocation {
        name: *name,
        task: task_by(first, behind)?,
    })
}
