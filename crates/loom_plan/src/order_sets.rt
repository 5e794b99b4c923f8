//! The events of orders as sets.
ghost use Rattle.std.specs.Prelude.{◌≡◌, []};
ghost use Rattle.loom_law.specs.Filter.{waits, posts, posted_in, all_but_last, has};
ghost use Rattle.loom_plan.specs.PlanView.{rulings_of, ruling_of, order_of};
ghost use Rattle.loom_plan.specs.PlanParts.{IsSetOf};

use crate::plan::{OrderEvent, Rule};
use crate::rules::before_in;
use crate::sets::EventSet;

fn waits(rules: &[Rule], n: u8) -> bool
    ensures { result ≡ waits (record { watches = []; rulings = rulings_of rules.now }) n }
{
    match before_in(rules, n) {
        None => false,
        Some(_) => true,
    }
}

/// The events that an order puts behind another one.
pub fn waiting(rules: &[Rule]) -> EventSet
    ensures { IsSetOf result (waits (record { watches = []; rulings = rulings_of rules.now })) }
{
    let mut found = EventSet::none();
    'events: for n in 0..32u8 {
        found.put_if(n + 1, waits(rules, n + 1));
    }
    found
}

// Whether the event stands in the order before the last one.
fn is_posted(steps: &[OrderEvent], n: u8) -> bool
    ensures { result ≡ has (all_but_last (order_of steps.now)) n }
{
    let mut i = 1;
    'scan: while i < steps.len() {
        if steps[i - 1].event == n {
            return true;
        }
        i += 1;
    }
    false
}

fn is_posted_in(rule: &Rule, n: u8) -> bool
    ensures { result ≡ has (posted_in (ruling_of rule.now)) n }
{
    match rule {
        Rule::Order(steps) => is_posted(steps, n),
        Rule::Exclusive(_) => false,
        Rule::Unilateral(_) => false,
    }
}

fn posts(rules: &[Rule], n: u8) -> bool
    ensures { result ≡ posts (record { watches = []; rulings = rulings_of rules.now }) n }
{
    'scan: for rule in rules {
        if is_posted_in(rule, n) {
            return true;
        }
    }
    false
}

/// The events that an order puts before another one.
pub fn posting(rules: &[Rule]) -> EventSet
    ensures { IsSetOf result (posts (record { watches = []; rulings = rulings_of rules.now })) }
{
    let mut found = EventSet::none();
    'events: for n in 0..32u8 {
        found.put_if(n + 1, posts(rules, n + 1));
    }
    found
}
