//! Which filters are installed.
ghost use Rattle.std.specs.Prelude.{◌≡◌, ◌<◌, ◌≤◌, [], ◌∷◌, ◌++◌, length};
ghost use Rattle.loom_law.specs.Filter.{has};
ghost use Rattle.loom_law.specs.Lawful.{filter_limit};
ghost use Rattle.loom_version.specs.Version.{without_number};

use crate::limits::FILTER_LIMIT;
use std::marker::Model;

/// The numbers of the commands that installed filters: 16 at most.
#[derive(Clone, Copy, Debug, Drop)]
pub(crate) struct Active {
    cells: [u8; FILTER_LIMIT],
    len: usize,
}

impl Model for Active {
    ghost use Rattle.std.specs.Prelude.{List, ℕ, length, take};
    ghost use Rattle.loom_trace.specs.Rows.{IsRow, cells_of, used_length, cells_back};
    ghost use Rattle.loom_law.specs.Lawful.{filter_limit};

    ghost Value = { List ℕ };

    ghost view = { λ r. take r.len r.cells };

    ghost invariant = { λ r. IsRow 0 filter_limit r.cells r.len };

    ghost inverse = { λ xs. record { cells = cells_of 0 filter_limit xs; len = length xs } };

    ghost inverse_ok = { λ r h i. record {
      cells = cells_back 0 filter_limit r.cells r.len h i;
      len = used_length 0 filter_limit r.cells r.len h i;
    } };
}

impl Active {
    /// No filter.
    pub(crate) fn none() -> Active
        ensures { result ≡ [] }
    {
        Active {
            cells: [0; FILTER_LIMIT],
            len: 0,
        }
    }

    /// All of them.
    pub(crate) fn as_slice(&self) -> &[u8]
        ensures items { result.now ≡ self.now }
        ensures most { length result.now ≤ filter_limit }
    {
        &self.cells[..self.len]
    }

    /// Appends a number.
    pub(crate) fn push(&mut self, k: u8)
        requires { length self.old < filter_limit }
        ensures { self.new ≡ self.old ++ k ∷ [] }
    {
        self.cells[self.len] = k;
        self.len += 1;
    }

    /// Whether the number is one of them.
    pub(crate) fn has(&self, k: u8) -> bool
        ensures { result ≡ has self.now k }
    {
        let all = self.as_slice();
        'scan: for j in all {
            if *j == k {
                return true;
            }
        }
        false
    }

    /// All others.
    pub(crate) fn without(&self, k: u8) -> Active
        ensures { result ≡ without_number k self.now }
    {
        let all = self.as_slice();
        let mut left = Active::none();
        'scan: for j in all {
            if *j != k {
                left.push(*j);
            }
        }
        left
    }
}
