//! Reads the files that the words name.
ghost use Rattle.std.specs.Prelude.{◌≡◌, ◌≤◌, ℕ, List, []};
ghost use Rattle.loom_script.specs.View.{script_of};
ghost use Rattle.loom_top.specs.Read.{TellsRead, TellsScriptRead};

use loom_io::shelf::{Shelf, ShelfError};
use loom_lang::limits::FILE_LIMIT;
use loom_script::parse::{ScriptError, ScriptRefusal, parse_script};
use loom_script::script::{Commands, Script};
use loom_tree::name::Name;
use std::alloc::Global;

/// Why the bytes of a file aren't had.
#[derive(Clone, Copy, Debug, Drop, PartialEq, Eq)]
pub enum FileFault {
    /// The shelf had a fault, as a missing file.
    Failed,
    /// There are more than a program or a script may have.
    TooLong,
    /// Memory ran out.
    NoMemory,
}

/// Why there is no script.
#[derive(Clone, Copy, Debug, Drop, PartialEq, Eq)]
pub enum ScriptFault {
    /// The bytes of its file aren't had, or memory ran out behind the read.
    File(FileFault),
    /// They are no script.
    NoScript(ScriptRefusal),
}

/// The bytes of the file of that name: at most 65,536.
pub(crate) fn read_file<F: Shelf>(
    alloc: Global,
    name: &str,
    shelf: &mut F,
) -> Result<Name, FileFault>
    ensures kept { (n : List ℕ) → F.told shelf.new n ≡ F.told shelf.old n }
    ensures later { (n : List ℕ) → F.faults shelf.old n ≤ F.faults shelf.new n }
    ensures read { TellsRead (F.told shelf.old name.now) (F.faults shelf.old name.now) (F.faults shelf.new name.now) result }
{
    match shelf.read(alloc, name, FILE_LIMIT) {
        Ok(file) => {
            if file.bytes().len() > FILE_LIMIT {
                Err(FileFault::TooLong)
            } else {
                Ok(file)
            }
        }
        Err(ShelfError::Failed) => Err(FileFault::Failed),
        Err(ShelfError::NoMemory) => Err(FileFault::NoMemory),
    }
}

/// The script in the file of that name.
pub(crate) fn read_script<F: Shelf>(
    alloc: Global,
    name: &str,
    shelf: &mut F,
) -> Result<Script, ScriptFault>
    ensures { TellsScriptRead (F.told shelf.old name.now) (F.faults shelf.old name.now) (F.faults shelf.new name.now) result }
{
    match read_file(alloc, name, shelf) {
        Ok(file) => match parse_script(alloc, file.bytes()) {
            Ok(script) => Ok(script),
            Err(ScriptError::Refused(refusal)) => Err(ScriptFault::NoScript(refusal)),
            Err(ScriptError::NoMemory) => Err(ScriptFault::File(FileFault::NoMemory)),
        },
        Err(fault) => Err(ScriptFault::File(fault)),
    }
}

/// The script of no command.
pub(crate) fn empty_script(alloc: Global) -> Script
    ensures { script_of result ≡ [] }
{
    Script {
        commands: Commands(Vec::new(alloc)),
    }
}
