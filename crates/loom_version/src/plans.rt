//! The filters of a run's commands.
ghost use Rattle.std.specs.Prelude.{◌≡◌, ◌==◌, ◌<◌, ◌≤◌, ℕ, false, [], Some, None, IfOk, if◌then◌else◌};
ghost use Rattle.std.specs.Option.{option_copied};
ghost use Rattle.loom_lang.specs.Trace.{Locals};
ghost use Rattle.loom_command.specs.Script.{most_commands};
ghost use Rattle.loom_law.specs.Filter.{statement, matching};
ghost use Rattle.loom_version.specs.Plans.{compiled_at, plans_in};

use crate::limits::COMMAND_LIMIT;
use crate::line_table::{entry_of, put_lines};
use loom_plan::compiled::Compiled;
use loom_trace::places::Places;
use loom_tree::name::NoMemory;
use std::alloc::Global;
use std::marker::Model;

/// Filters in a program, by the numbers of commands: from 1 to 64.
#[derive(Debug, Drop)]
pub struct Plans {
    rows: Vec<Option<Compiled>>,
    // the lines at which they have events, as numbers below 8,192
    table: Places,
}

impl Model for Plans {
    ghost use Rattle.std.specs.Prelude.{List, Option};
    ghost use Rattle.std.specs.Coded.{coded_list, coded_option};
    ghost use Rattle.loom_plan.specs.Compiled.{Compiled, compiled_code};
    ghost use Rattle.loom_version.specs.LineTable.{KeepsLines};

    ghost Value = { List (Option Compiled) };

    ghost coded = { coded_list (coded_option compiled_code) };

    ghost view = { λ p. p.rows.items };

    ghost invariant = { λ p. KeepsLines p.rows.items p.table };
}

impl Plans {
    /// No filter, with room for that of each command. An `Err` is want of memory.
    #[tactic(auto, using(crate::proofs::PlanRows::none_more))]
    pub fn make(alloc: Global) -> Result<Plans, NoMemory>
        ensures { IfOk result (λ p. (k : ℕ) → compiled_at p k ≡ None) }
    {
        let mut rows = Vec::with_capacity(alloc, COMMAND_LIMIT)?;
        'rows: for _row in 0..COMMAND_LIMIT {
            rows.push_reserved(None);
        }
        Ok(Plans {
            rows,
            table: Places::none(),
        })
    }

    /// The filter of command `k` is this one. It takes no memory.
    pub fn put(&mut self, k: u8, c: Compiled)
        requires first { 0 < k }
        requires last { k ≤ most_commands }
        ensures { (j : ℕ) → compiled_at self.new j ≡ (if j == k then Some c else compiled_at self.old j) }
    {
        put_lines(&mut self.table, c.watches());
        self.rows[k as usize - 1] = Some(c);
    }

    /// The filter of command `k`, if there is one.
    pub fn get(&self, k: u8) -> Option<&Compiled>
        ensures { option_copied result ≡ compiled_at self.now k }
    {
        if k == 0 {
            return None;
        }
        let i = k as usize - 1;
        if i >= self.rows.len() {
            return None;
        }
        self.rows[i].as_ref()
    }

    /// Whether a filter has an event at the statement of this line. It is a read of one table, and may also say so of a line that is 8,192 lines, or a
    /// multiple of that, from one with an event.
    pub fn may_watch(&self, line: u32) -> bool
        ensures { result ≡ false → (k : ℕ) (env : Locals) → matching (plans_in self.now k) (statement line) env ≡ [] }
    {
        self.table.has(entry_of(line))
    }
}
