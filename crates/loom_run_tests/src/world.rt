//! Runs of programs with several threads, in rounds.
ghost use Rattle.std.specs.Prelude.{◌≤◌};
ghost use Rattle.loom_trace.specs.Limits.{entry_limit};

mod rows;

use loom_lang::limits::FILE_LIMIT;
use loom_lang::parse::{LangError, parse_program};
use loom_script::script::{Commands, Script};
use loom_trace::journal::Journal;
use loom_trace::line::Line;
use loom_trace::text::put_entry;
use loom_tree::name::NoMemory;
use loom_world::choice::Choice;
use loom_world::world::World;
use rows::ROWS;
use std::alloc::Global;
use std::test::Fail;

fn world_of(alloc: Global, text: &str, limit: u32) -> Result<World, LangError>
    requires least { 1 ≤ limit }
    requires most { limit ≤ entry_limit }
{
    let bytes = text.as_bytes();
    if bytes.len() > FILE_LIMIT {
        return Err(LangError::NoMemory);
    }
    let script = Script {
        commands: Commands(Vec::new(alloc)),
    };
    Ok(World::make(
        alloc,
        &parse_program(alloc, bytes)?,
        b"p.lm",
        &script,
        limit,
    )?)
}

// A turn of control, and then one of each thread.
fn round(world: &mut World) {
    world.run_choices(&[
        Choice::Control,
        Choice::Thread(1),
        Choice::Thread(2),
        Choice::Thread(3),
        Choice::Thread(4),
        Choice::Thread(5),
        Choice::Thread(6),
        Choice::Thread(7),
        Choice::Thread(8),
    ]);
}

fn put_line(text: &mut Vec<u8>, line: &Line) -> Result<(), NoMemory> {
    text.extend_from_slice(line.bytes())?;
    text.push(b'\n')?;
    Ok(())
}

fn text_of(alloc: Global, journal: &Journal) -> Result<Vec<u8>, NoMemory> {
    let mut line = Line::new();
    let mut text = Vec::new(alloc);
    'entries: for i in 0..journal.len() {
        put_entry(&journal.get(i), &mut line);
        put_line(&mut text, &line)?;
    }
    Ok(text)
}

#[test]
fn runs_the_rows(rt: HostRuntime) -> Result<(), Fail> {
    for (i, row) in ROWS.iter().enumerate() {
        let limit = row.limit.clamp(1, 1000);
        let mut world = world_of(rt.alloc(), row.program, limit)?;
        for _ in 0..100 {
            round(&mut world);
        }
        assert!(rt; world.finished(), "in row {i}");
        let text = text_of(rt.alloc(), world.journal())?;
        assert_eq!(rt; text.as_slice(), row.text.as_bytes(), "in row {i}");
    }
    Ok(())
}
