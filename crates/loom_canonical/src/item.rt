//! The texts of items. An `Err` is want of memory throughout.
ghost use Rattle.std.specs.Prelude.{◌≡◌, ◌++◌, [], ◌∷◌, map, OnOk};
ghost use Rattle.std.specs.List.{AllByRecursion};
ghost use Rattle.loom_tree.specs.Tree.{body_of, function_of, functions_of};
ghost use Rattle.loom_tree.specs.Lines.{ended};
ghost use Rattle.loom_lang.specs.WellFormed.{IsWellFormedBlock};
ghost use Rattle.loom_lang.specs.Canonical.{word_line, mutex_line, sema_line, function_lines, functions_lines};

use crate::expression::put_name_list;
use crate::statement::put_block;
use crate::text::{put_bytes, put_number, put_signed};
use loom_tree::item::{Funcs, Mutexes, Sema, Semas, Word, Words};
use loom_tree::name::{Name, NoMemory};
use loom_tree::statement::Func;

fn put_word_line(out: &mut Name, w: &Word) -> Result<(), NoMemory>
    ensures { OnOk result (out.new ≡ out.old ++ ended (word_line w.now ∷ [])) }
{
    put_bytes(out, b"shared ")?;
    put_bytes(out, w.name.bytes())?;
    match w.cells {
        None => {
            put_bytes(out, b" = ")?;
            put_signed(out, w.first)?;
            put_bytes(out, b";\n")
        }
        Some(count) => {
            put_bytes(out, b"[")?;
            put_number(out, count)?;
            put_bytes(out, b"];\n")
        }
    }
}

/// The words and arrays, a line for each.
pub(crate) fn put_words(out: &mut Name, words: &Words) -> Result<(), NoMemory>
    ensures { OnOk result (out.new ≡ out.old ++ ended (map word_line words.now)) }
{
    'each: for w in &words.0 {
        put_word_line(out, w)?;
    }
    Ok(())
}

fn put_mutex_line(out: &mut Name, x: &Name) -> Result<(), NoMemory>
    ensures { OnOk result (out.new ≡ out.old ++ ended (mutex_line x.now ∷ [])) }
{
    put_bytes(out, b"mutex ")?;
    put_bytes(out, x.bytes())?;
    put_bytes(out, b";\n")
}

/// The mutexes, a line for each.
pub(crate) fn put_mutexes(out: &mut Name, mutexes: &Mutexes) -> Result<(), NoMemory>
    ensures { OnOk result (out.new ≡ out.old ++ ended (map mutex_line mutexes.now)) }
{
    'each: for x in &mutexes.0 {
        put_mutex_line(out, x)?;
    }
    Ok(())
}

fn put_sema_line(out: &mut Name, s: &Sema) -> Result<(), NoMemory>
    ensures { OnOk result (out.new ≡ out.old ++ ended (sema_line s.now ∷ [])) }
{
    put_bytes(out, b"sema ")?;
    put_bytes(out, s.name.bytes())?;
    put_bytes(out, b" = ")?;
    put_number(out, s.first)?;
    put_bytes(out, b";\n")
}

/// The semaphores, a line for each.
pub(crate) fn put_semas(out: &mut Name, semas: &Semas) -> Result<(), NoMemory>
    ensures { OnOk result (out.new ≡ out.old ++ ended (map sema_line semas.now)) }
{
    'each: for s in &semas.0 {
        put_sema_line(out, s)?;
    }
    Ok(())
}

#[tactic(auto, using(crate::proofs::BlockText::ended_append, std::proofs::Common::append_assoc))]
fn put_function_lines(out: &mut Name, f: &Func) -> Result<(), NoMemory>
    requires { IsWellFormedBlock 1 (body_of f.now.body) }
    ensures { OnOk result (out.new ≡ out.old ++ ended (function_lines (function_of f.now))) }
{
    put_bytes(out, b"fn ")?;
    put_bytes(out, f.name.bytes())?;
    put_bytes(out, b"(")?;
    put_name_list(out, &f.params)?;
    put_bytes(out, b") {\n")?;
    put_block(out, 1, &f.body)?;
    put_bytes(out, b"}\n")
}

/// The functions, with their bodies.
pub(crate) fn put_functions(out: &mut Name, funcs: &Funcs) -> Result<(), NoMemory>
    requires { AllByRecursion (λ f. IsWellFormedBlock 1 f.body) (functions_of funcs.now) }
    ensures { OnOk result (out.new ≡ out.old ++ ended (functions_lines (functions_of funcs.now))) }
{
    'each: for f in &funcs.0 {
        put_function_lines(out, f)?;
    }
    Ok(())
}
