//! Versions.
ghost use Rattle.std.specs.Prelude.{◌≡◌, ◌↔◌, ◌<◌, ◌≤◌, length, true, IsTrue};
ghost use Rattle.loom_tree.specs.Tree.{Source};
ghost use Rattle.loom_command.specs.Script.{most_commands};
ghost use Rattle.loom_law.specs.Filter.{has};
ghost use Rattle.loom_law.specs.Control.{first_control};
ghost use Rattle.loom_law.specs.Lawful.{filter_limit};
ghost use Rattle.loom_version.specs.Version.{version_limit, AreBelow, IsVersion, version_with, version_without};
ghost use Rattle.loom_version.specs.Plans.{AreFiltersOf, plans_in};
ghost use Rattle.loom_version.specs.SlowFunctions.{IsSlow};

use crate::active::Active;
use crate::plans::Plans;
use crate::slow::watches_any;
use std::marker::Model;

/// Which filters are installed, by the numbers of the commands that installed them, and how many changes there were.
#[derive(Clone, Copy, Debug, Drop)]
pub struct Version {
    number: u32,
    active: Active,
}

impl Model for Version {
    ghost use Rattle.loom_law.specs.Walk.{Version};
    ghost use Rattle.loom_version.specs.Version.{IsVersion, version_code};

    ghost Value = { Version };

    ghost coded = { version_code };

    ghost view = { λ v. record { number = v.number; active = v.active } };

    ghost invariant = { λ v. IsVersion (record { number = v.number; active = v.active }) };

    ghost inverse = { λ v. record { number = v.number; active = v.active } };
}

impl Version {
    /// The version before each command: no filter is installed.
    #[tactic(auto, using(crate::proofs::ActiveNumbers::first_version))]
    pub fn first() -> Version
        ensures { result ≡ first_control.version }
    {
        Version {
            number: 0,
            active: Active::none(),
        }
    }

    /// How many changes there were: 128 at most.
    pub fn number(&self) -> u32
        ensures is { result ≡ self.now.number }
        ensures most { result ≤ version_limit }
    {
        self.number
    }

    /// The numbers of the commands that installed the filters, ascending: 16 at most, each from 1 to 64.
    pub fn active(&self) -> &[u8]
        ensures is { result.now ≡ self.now.active }
        ensures version { IsVersion self.now }
    {
        self.active.as_slice()
    }

    /// Whether the filter of this command is installed.
    pub fn has(&self, k: u8) -> bool
        ensures { result ≡ has self.now.active k }
    {
        self.active.has(k)
    }

    /// The next version, with the filter of command `k`, which is behind those whose filters are installed. There are fewer than 16, and fewer
    /// than 128 changes.
    #[tactic(auto, using(crate::proofs::ActiveNumbers::with_one))]
    pub fn with(&self, k: u8) -> Version
        requires first { 0 < k }
        requires last { k ≤ most_commands }
        requires behind { AreBelow k self.now.active }
        requires room { length self.now.active < filter_limit }
        requires number { self.now.number < version_limit }
        ensures { result ≡ version_with self.now k }
    {
        let mut active = self.active;
        active.push(k);
        let number = self.number + 1;
        Version { number, active }
    }

    /// The next version, without the filter of command `k`, which is installed. There are fewer than 128 changes.
    #[tactic(auto, using(crate::proofs::ActiveNumbers::without_one))]
    pub fn without(&self, k: u8) -> Version
        requires there { has self.now.active k ≡ true }
        requires number { self.now.number < version_limit }
        ensures { result ≡ version_without self.now k }
    {
        Version {
            number: self.number + 1,
            active: self.active.without(k),
        }
    }

    /// Whether an installed filter has an event at a statement of function `f`, or at the function itself.
    pub fn is_slow(&self, plans: &Plans, f: u8) -> bool
        ensures { (p : Source) → AreFiltersOf p plans.now → IsTrue result ↔ IsSlow p (plans_in plans.now) self.now.active f }
    {
        watches_any(plans, self.active(), f)
    }
}
