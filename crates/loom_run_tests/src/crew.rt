//! A program of two threads, run to its end.

use loom_crew::alone::run_alone;
use loom_lang::limits::FILE_LIMIT;
use loom_lang::parse::{LangError, parse_program};
use loom_script::script::{Commands, Script};
use loom_trace::journal::Journal;
use loom_trace::line::Line;
use loom_trace::text::put_entry;
use loom_tree::name::NoMemory;
use loom_world::world::World;
use std::alloc::Global;
use std::test::Fail;

// Thread 2 waits for the mutex, and thread 1 for the end of thread 2.
const PROGRAM: &str =
    "mutex m;\nfn w() {\nlock m;\nprint 2;\nunlock m;\n}\nfn main() {\nlet t = spawn w();\nlock m;\nprint 1;\nunlock m;\njoin t;\n}\n";

const TEXT: &str =
    "1:7 begin\n1:8 spawn 2 0\n2:2 begin\n1:9 lock 0\n2:3 blocked lock 0\n1:10 print 1\n1:11 unlock 0\n2:3 lock 0\n1:12 blocked join 2\n2:4 print 2\n2:5 unlock 0\n2:2 end\n1:12 join 2\n1:7 end\nfinish done\n";

fn world_of(alloc: Global, text: &str) -> Result<World, LangError> {
    let bytes = text.as_bytes();
    if bytes.len() > FILE_LIMIT {
        return Err(LangError::NoMemory);
    }
    let script = Script {
        commands: Commands(Vec::new(alloc)),
    };
    Ok(World::make(alloc, &parse_program(alloc, bytes)?, b"p.lm", &script, 100)?)
}

fn put_line(text: &mut Vec<u8>, line: &Line) -> Result<(), NoMemory> {
    text.extend_from_slice(line.bytes())?;
    text.push(b'\n')?;
    Ok(())
}

fn text_of(alloc: Global, journal: &Journal) -> Result<Vec<u8>, NoMemory> {
    let mut line = Line::new();
    let mut text = Vec::new(alloc);
    'entries: for i in 0..journal.len() {
        put_entry(&journal.get(i), &mut line);
        put_line(&mut text, &line)?;
    }
    Ok(text)
}

#[test]
fn runs_in_rounds(rt: HostRuntime) -> Result<(), Fail> {
    let mut world = world_of(rt.alloc(), PROGRAM)?;
    run_alone(&mut world);
    let text = text_of(rt.alloc(), world.journal())?;
    assert_eq!(rt; text.as_slice(), TEXT.as_bytes());
    run_alone(&mut world);
    let again = text_of(rt.alloc(), world.journal())?;
    assert_eq!(rt; again.as_slice(), TEXT.as_bytes(), "run again");
    Ok(())
}
