//! The texts of statements, each on a line of its own. An `Err` is want of memory throughout.
ghost use Rattle.std.specs.Prelude.{◌≡◌, ◌≤◌, ◌<◌, ◌+◌, ◌++◌, [], ◌∷◌, suc, codes, OnOk};
ghost use Rattle.loom_tree.specs.Tree.{expression_of, expressions_of, right_of, returned_of, body_of, behind, end, Simple, let_, set, set_cell, return, if_, while_};
ghost use Rattle.loom_tree.specs.Lines.{ended};
ghost use Rattle.loom_syntax.specs.File.{block_limit};
ghost use Rattle.loom_lang.specs.WellFormed.{IsWellFormedBlock};
ghost use Rattle.loom_lang.specs.Canonical.{expression_text, right_text, simple_text, indented, else_lines, body_text_lines};

use crate::expression::{put_call, put_expression, put_right};
use crate::text::put_bytes;
use loom_tree::expression::{Expr, Exprs};
use loom_tree::name::{Name, NoMemory};
use loom_tree::statement::{Kind, Right, Stmts};

/// Two spaces for each block.
#[tactic(auto, using(crate::proofs::StatementText::margin_more, std::proofs::Common::append_assoc))]
fn put_margin(out: &mut Name, depth: usize) -> Result<(), NoMemory>
    ensures { OnOk result (out.new ≡ out.old ++ indented depth []) }
{
    'each: for _block in 0..depth {
        put_bytes(out, b"  ")?;
    }
    Ok(())
}

/// The beginning of a line.
#[tactic(auto, using(crate::proofs::StatementText::indented_is, std::proofs::Common::append_assoc))]
fn put_start(out: &mut Name, depth: usize, word: &[u8]) -> Result<(), NoMemory>
    ensures { OnOk result (out.new ≡ out.old ++ indented depth word.now) }
{
    put_margin(out, depth)?;
    put_bytes(out, word)
}

/// A whole line.
fn put_line(out: &mut Name, depth: usize, text: &[u8]) -> Result<(), NoMemory>
    ensures { OnOk result (out.new ≡ out.old ++ ended (indented depth text.now ∷ [])) }
{
    put_start(out, depth, text)?;
    put_bytes(out, b"\n")
}

/// A line of a word and a name.
#[tactic(auto, using(crate::proofs::StatementText::indented_more, std::proofs::Common::append_assoc))]
fn put_name_line(out: &mut Name, depth: usize, word: &[u8], x: &Name) -> Result<(), NoMemory>
    ensures { OnOk result (out.new ≡ out.old ++ ended (indented depth (word.now ++ x.now ++ codes ";") ∷ [])) }
{
    put_start(out, depth, word)?;
    put_bytes(out, x.bytes())?;
    put_bytes(out, b";\n")
}

/// A line of a word and an expression.
#[tactic(auto, using(crate::proofs::StatementText::indented_more, std::proofs::Common::append_assoc))]
fn put_value_line(out: &mut Name, depth: usize, word: &[u8], e: &Expr) -> Result<(), NoMemory>
    ensures { OnOk result (out.new ≡ out.old ++ ended (indented depth (word.now ++ expression_text (expression_of e.now) ++ codes ";") ∷ [])) }
{
    put_start(out, depth, word)?;
    put_expression(out, e)?;
    put_bytes(out, b";\n")
}

/// What follows the name in a write to it.
fn put_source(out: &mut Name, right: &Right) -> Result<(), NoMemory>
    ensures { OnOk result (out.new ≡ out.old ++ (codes " = " ++ right_text (right_of right.now) ++ codes ";\n")) }
{
    put_bytes(out, b" = ")?;
    put_right(out, right)?;
    put_bytes(out, b";\n")
}

#[tactic(auto, using(crate::proofs::StatementText::indented_is, std::proofs::Common::append_assoc))]
fn put_let(out: &mut Name, depth: usize, x: &Name, right: &Right) -> Result<(), NoMemory>
    ensures { OnOk result (out.new ≡ out.old ++ ended (indented depth (simple_text (let_ x.now (right_of right.now))) ∷ [])) }
{
    put_start(out, depth, b"let ")?;
    put_bytes(out, x.bytes())?;
    put_source(out, right)
}

#[tactic(auto, using(crate::proofs::StatementText::indented_more, std::proofs::Common::append_assoc))]
fn put_set(out: &mut Name, depth: usize, x: &Name, right: &Right) -> Result<(), NoMemory>
    ensures { OnOk result (out.new ≡ out.old ++ ended (indented depth (simple_text (set x.now (right_of right.now))) ∷ [])) }
{
    put_start(out, depth, x.bytes())?;
    put_source(out, right)
}

#[tactic(auto, using(crate::proofs::StatementText::indented_more, std::proofs::Common::append_assoc))]
fn put_set_cell(out: &mut Name, depth: usize, x: &Name, i: &Expr, e: &Expr) -> Result<(), NoMemory>
    ensures { OnOk result (out.new ≡ out.old ++ ended (indented depth (simple_text (set_cell x.now (expression_of i.now) (expression_of e.now))) ∷ [])) }
{
    put_start(out, depth, x.bytes())?;
    put_bytes(out, b"[")?;
    put_expression(out, i)?;
    put_bytes(out, b"] = ")?;
    put_expression(out, e)?;
    put_bytes(out, b";\n")
}

#[tactic(auto, using(crate::proofs::StatementText::indented_is, std::proofs::Common::append_assoc))]
fn put_call_alone(out: &mut Name, depth: usize, f: &Name, es: &Exprs) -> Result<(), NoMemory>
    ensures { OnOk result (out.new ≡ out.old ++ ended (indented depth (simple_text (Simple.call f.now (expressions_of es.now))) ∷ [])) }
{
    put_margin(out, depth)?;
    put_call(out, f, es)?;
    put_bytes(out, b";\n")
}

fn put_return(out: &mut Name, depth: usize, e: &Option<Expr>) -> Result<(), NoMemory>
    ensures { OnOk result (out.new ≡ out.old ++ ended (indented depth (simple_text (return (returned_of e.now))) ∷ [])) }
{
    match e {
        None => put_line(out, depth, b"return;"),
        Some(e) => put_value_line(out, depth, b"return ", e),
    }
}

/// The line with a condition, which opens a block.
#[tactic(auto, using(crate::proofs::StatementText::indented_more, std::proofs::Common::append_assoc))]
fn put_head(out: &mut Name, depth: usize, word: &[u8], e: &Expr) -> Result<(), NoMemory>
    ensures { OnOk result (out.new ≡ out.old ++ ended (indented depth (word.now ++ expression_text (expression_of e.now) ++ codes ") {") ∷ [])) }
{
    put_start(out, depth, word)?;
    put_expression(out, e)?;
    put_bytes(out, b") {\n")
}

/// The block behind `else`, where it has statements.
#[cycle(blocks)]
fn put_else(out: &mut Name, depth: usize, b: &Stmts) -> Result<(), NoMemory>
    requires deep { depth < block_limit }
    requires form { IsWellFormedBlock (suc depth) (body_of b.now) }
    ensures { OnOk result (out.new ≡ out.old ++ ended (else_lines depth (body_of b.now) (body_text_lines (suc depth) (body_of b.now)))) }
{
    match b {
        Stmts::End => Ok(()),
        Stmts::More(_, _) => {
            put_line(out, depth, b"} else {")?;
            put_block(out, depth + 1, b)?;
            Ok(())
        }
    }
}

#[cycle(blocks)]
fn put_choice(out: &mut Name, depth: usize, e: &Expr, a: &Stmts, b: &Stmts) -> Result<(), NoMemory>
    requires { IsWellFormedBlock depth (if_ 0 (expression_of e.now) (body_of a.now) (body_of b.now) end) }
    ensures { OnOk result (out.new ≡ out.old ++ ended (body_text_lines depth (if_ 0 (expression_of e.now) (body_of a.now) (body_of b.now) end))) }
{
    put_head(out, depth, b"if (", e)?;
    put_block(out, depth + 1, a)?;
    put_else(out, depth, b)?;
    put_line(out, depth, b"}")?;
    Ok(())
}

#[cycle(blocks)]
fn put_loop(out: &mut Name, depth: usize, e: &Expr, a: &Stmts) -> Result<(), NoMemory>
    requires { IsWellFormedBlock depth (while_ 0 (expression_of e.now) (body_of a.now) end) }
    ensures { OnOk result (out.new ≡ out.old ++ ended (body_text_lines depth (while_ 0 (expression_of e.now) (body_of a.now) end))) }
{
    put_head(out, depth, b"while (", e)?;
    put_block(out, depth + 1, a)?;
    put_line(out, depth, b"}")?;
    Ok(())
}

/// The statements of a block, so many blocks deep.
#[cycle(blocks)]
pub(crate) fn put_block(out: &mut Name, depth: usize, block: &Stmts) -> Result<(), NoMemory>
    requires { IsWellFormedBlock depth (body_of block.now) }
    ensures { OnOk result (out.new ≡ out.old ++ ended (body_text_lines depth (body_of block.now))) }
{
    let mut at = block;
    'walk: while let Stmts::More(first, rest) = at {
        put_statement(out, depth, &first.kind)?;
        at = rest;
    }
    Ok(())
}

#[cycle(blocks)]
fn put_statement(out: &mut Name, depth: usize, kind: &Kind) -> Result<(), NoMemory>
    requires { IsWellFormedBlock depth (behind 0 kind.now end) }
    ensures { OnOk result (out.new ≡ out.old ++ ended (body_text_lines depth (behind 0 kind.now end))) }
{
    match kind {
        Kind::Let(x, right) => put_let(out, depth, x, right),
        Kind::Set(x, right) => put_set(out, depth, x, right),
        Kind::SetCell(x, i, e) => put_set_cell(out, depth, x, i, e),
        Kind::If(e, a, b) => put_choice(out, depth, e, a, b),
        Kind::While(e, a) => put_loop(out, depth, e, a),
        Kind::Call(f, es) => put_call_alone(out, depth, f, es),
        Kind::Return(e) => put_return(out, depth, e),
        Kind::Lock(x) => put_name_line(out, depth, b"lock ", x),
        Kind::Unlock(x) => put_name_line(out, depth, b"unlock ", x),
        Kind::Down(x) => put_name_line(out, depth, b"down ", x),
        Kind::Up(x) => put_name_line(out, depth, b"up ", x),
        Kind::Join(e) => put_value_line(out, depth, b"join ", e),
        Kind::Print(e) => put_value_line(out, depth, b"print ", e),
        Kind::Skip => put_line(out, depth, b"skip;"),
    }
}
