//! The installed filters' locks and posts.
ghost use Rattle.std.specs.Prelude.{◌≡◌, ◌==◌, ◌<◌, ◌≤◌, ℕ, true, false, length};
ghost use Rattle.loom_law.specs.Filter.{is_number};
ghost use Rattle.loom_law.specs.Lawful.{Setting, Front, IsDisabledFor, filter_limit};
ghost use Rattle.loom_command.specs.FilterFault.{most_events};
ghost use Rattle.loom_ops.specs.Ops.{most_posts, has_filter, has_lock, order_before, posts_at, is_holder, owns, no_filters, with_filter, without_filter, free_clause, with_post, KeepsLocks};
ghost use Rattle.loom_ops.specs.Answer.{AnswersEnter, AnswersWait, IsForClause};
ghost use Rattle.loom_ops.specs.Laws.{IsToldOf};

use crate::answer::OpAnswer;
use crate::rows::{
    FilterRow, HolderRow, MOST_EVENTS, MOST_FILTERS, MOST_HOLDERS, PostRow, alone_flags,
    events_before, has_filter, has_lock, has_other_holder, holder_in, is_short, order_before,
    owner_in, posts_at, raise, wait_answer,
};
use arrayvec::ArrayVec;
use loom_plan::compiled::Compiled;
use loom_trace::entry::What;
use std::marker::Model;

/// The installed filters, with the thread that holds each of their clauses, and how often each of their events was posted. It takes no memory.
#[derive(Debug, Drop)]
pub struct Ops {
    // as they were installed
    filters: ArrayVec<FilterRow, MOST_FILTERS>,
    // the newest one first
    holders: ArrayVec<HolderRow, MOST_HOLDERS>,
    // one for each filter, in the same order
    posts: ArrayVec<PostRow, MOST_FILTERS>,
}

impl Model for Ops {
    ghost use Rattle.loom_ops.specs.Ops.{Ops, KeepsLocks};

    ghost Value = { Ops };

    ghost use Rattle.loom_ops.specs.Rows.{ops_of};

    ghost view = { λ s. ops_of s.filters.items s.holders.items s.posts.items };

    ghost invariant = { λ s. KeepsLocks (ops_of s.filters.items s.holders.items s.posts.items) };
}

impl Ops {
    /// No filter is installed.
    pub fn make() -> Ops
        ensures { result ≡ no_filters }
    {
        Ops {
            filters: ArrayVec::new(),
            holders: ArrayVec::new(),
            posts: ArrayVec::new(),
        }
    }

    /// Installs the filter of this number. Nobody holds a clause of it, and none of its events was posted yet.
    pub fn install(&mut self, k: u8, c: &Compiled)
        requires new { has_filter self.old.filters k ≡ false }
        requires room { length self.old.filters < filter_limit }
        ensures installed { self.new ≡ with_filter self.old k c.now.plan }
        ensures free { (n t : ℕ) → is_holder self.new.holders k n t ≡ false }
        ensures anew { (n : ℕ) → posts_at self.new.posts k n ≡ 0 }
    {
        self.filters.push(FilterRow {
            number: k,
            alone: alone_flags(c),
            befores: events_before(c),
        });
        self.posts.push(PostRow {
            number: k,
            counts: [0; MOST_EVENTS],
        });
    }

    /// Removes the filter of this number. Its clauses are free, and its posts forgotten.
    pub fn remove(&mut self, k: u8)
        ensures { self.new ≡ without_filter self.old k }
    {
        self.filters.retain(|row| row.number != k);
        self.holders.retain(|row| row.filter != k);
        self.posts.retain(|row| row.number != k);
    }

    /// Thread `t` wants to enter a clause, which it doesn't hold. No other thread holds a clause that is `r <> *`.
    pub fn enter(&mut self, t: u8, k: u8, clause: u8) -> OpAnswer
        requires there { has_lock self.old.filters k clause ≡ true }
        requires outside { is_holder self.old.holders k clause t ≡ false }
        requires alone { (u : ℕ) → owns self.old u ≡ true → u ≡ t }
        ensures { AnswersEnter self.old t k clause result self.new }
    {
        let row = HolderRow {
            filter: k,
            clause,
            thread: t,
        };
        match holder_in(self.holders.as_slice(), k, clause) {
            Some(by) => OpAnswer::Held { clause, by },
            None => {
                self.holders.insert(0, row);
                OpAnswer::Granted
            }
        }
    }

    /// Thread `t` leaves a clause that it holds.
    pub fn leave(&mut self, t: u8, k: u8, clause: u8)
        requires { is_holder self.old.holders k clause t ≡ true }
        ensures { self.new ≡ free_clause self.old k clause }
    {
        let _ = t;
        self.holders
            .retain(|row| !(row.filter == k && row.clause == clause));
    }

    /// An event of the filter was complete once more, and is posted. If the filter isn't there, nothing changes.
    pub fn post(&mut self, k: u8, event: u8)
        requires low { 0 < event }
        requires high { event ≤ most_events }
        requires few { posts_at self.old.posts k event < most_posts }
        ensures { self.new ≡ with_post self.old k event }
    {
        raise(self.posts.as_mut_slice(), k, event);
    }

    /// Whether a wait for this event is over, or which event before it in its order was posted too seldom, and how often. A wait uses nothing up.
    /// What no other event stands before waits for nothing.
    pub fn wait(&self, k: u8, event: u8) -> OpAnswer
        ensures { AnswersWait (order_before self.now.filters k event) (posts_at self.now.posts k) result }
    {
        let before = order_before(self.filters.as_slice(), k, event);
        wait_answer(before, self.posts.as_slice(), k)
    }

    /// How often an event of the filter was posted since it was installed.
    pub fn posts(&self, k: u8, event: u8) -> u32
        ensures { result ≡ posts_at self.now.posts k event }
    {
        posts_at(self.posts.as_slice(), k, event)
    }

    /// The thread that holds a clause that is `r <> *`, if there is one.
    pub fn owner(&self) -> Option<u8>
        ensures is { (t : ℕ) → is_number t result ≡ owns self.now t }
        ensures keeps { KeepsLocks self.now }
    {
        owner_in(self.filters.as_slice(), self.holders.as_slice())
    }

    /// The thread that holds the clause, if there is one.
    pub fn holder(&self, k: u8, clause: u8) -> Option<u8>
        ensures is { (t : ℕ) → is_number t result ≡ is_holder self.now.holders k clause t }
        ensures keeps { KeepsLocks self.now }
    {
        holder_in(self.holders.as_slice(), k, clause)
    }

    /// Whether it is disabled what thread `t` asks for: another thread holds the clause that it wants to enter, or the event before the one that it waits
    /// for was posted too seldom.
    pub fn is_disabled(&self, t: u8, w: What) -> bool
        requires clause { IsForClause w }
        ensures disabled { (s : Setting) (f : Front) → IsToldOf s f self.now w → result ≡ true → IsDisabledFor s f t w }
        ensures enabled { (s : Setting) (f : Front) → IsToldOf s f self.now w → result ≡ false → IsDisabledFor s f t w → ⊥ }
    {
        match w {
            What::Lock(_) => unreachable!(),
            What::Down(_) => unreachable!(),
            What::Join(_) => unreachable!(),
            What::Enter(k, clause) => has_other_holder(self.holders.as_slice(), t, k, clause),
            What::Wait(k, event) => is_short(self.wait(k, event)),
        }
    }

    /// Whether the filter of this number is installed.
    pub fn is_installed(&self, k: u8) -> bool
        ensures { result ≡ has_filter self.now.filters k }
    {
        has_filter(self.filters.as_slice(), k)
    }

    /// Whether it is installed and has the clause.
    pub fn has_lock(&self, k: u8, clause: u8) -> bool
        ensures { result ≡ has_lock self.now.filters k clause }
    {
        has_lock(self.filters.as_slice(), k, clause)
    }

    /// Whether as many filters are installed as may be.
    pub fn is_full(&self) -> bool
        ensures full { result ≡ (length self.now.filters == filter_limit) }
        ensures most { length self.now.filters ≤ filter_limit }
    {
        self.filters.len() == MOST_FILTERS
    }
}
