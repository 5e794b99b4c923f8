//! The sequential driver.
ghost use Rattle.std.specs.Prelude.{ℕ};
ghost use Rattle.loom_world.specs.Book.{IsOfSameRun, HasLawfulJournal};
ghost use Rattle.loom_world.specs.Idle.{HasFinish};
ghost use Rattle.loom_world.specs.World.{Lead};
ghost use Rattle.loom_crew.specs.Round.{round, two_rounds, rounds};

use loom_trace::limits::THREAD_LIMIT;
use loom_world::choice::Choice;
use loom_world::world::World;

// A round.
fn run_round(world: &mut World)
    ensures run { IsOfSameRun world.old world.new }
    ensures led { Lead world.old round world.new }
    ensures lawful { HasLawfulJournal world.new }
{
    world.turn(Choice::Control);
    'threads: for t in 1..=THREAD_LIMIT as u8 {
        world.turn(Choice::Thread(t));
    }
}

// Two rounds.
fn run_two_rounds(world: &mut World)
    ensures run { IsOfSameRun world.old world.new }
    ensures led { Lead world.old two_rounds world.new }
    ensures lawful { HasLawfulJournal world.new }
{
    run_round(world);
    run_round(world);
}

/// Runs a world in rounds, from where it is until its journal is finished: a turn of control, then one of thread 1, of thread 2, and so on up
/// to the last thread that there may be, and again. It takes no memory and always ends, since two rounds of an unfinished world make an entry; a finished
/// world makes none.
/// Behind it the journal is lawful, and ends with `Finish`; a world that is finished already stays as it is.
pub fn run_alone(world: &mut World)
    ensures run { IsOfSameRun world.old world.new }
    ensures finished { HasFinish world.new }
    ensures lawful { HasLawfulJournal world.new }
    ensures rounds { (n : ℕ) × Lead world.old (rounds n) world.new }
{
    'rounds: while !world.finished() {
        run_two_rounds(world);
    }
}
