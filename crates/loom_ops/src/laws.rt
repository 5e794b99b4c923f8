//! Laws of locks and posts, stated as the contracts of functions that do nothing.
ghost use Rattle.loom_ops.specs.Laws.{HasReplay, HasPostReplay, HasPostCounts, HasOrderWaits, HasSameWords, HasOwners, HasOneHolderEach};

/// What an entry does to the control of a journal, the calls do to the locks.
pub fn replay()
    ensures { HasReplay }
{}

/// What the entries of a journal say of posts, the calls say.
pub fn post_replay()
    ensures { HasPostReplay }
{}

/// A post counts once, an install begins at no post, and a removal leaves none.
pub fn post_counts()
    ensures { HasPostCounts }
{}

/// What a wait is answered is what the journal says of posts.
pub fn order_waits()
    ensures { HasOrderWaits }
{}

/// What the locks say of filters and clauses, the control says.
pub fn same_words()
    ensures { HasSameWords }
{}

/// A thread is held off exactly where another one holds a clause that is `r <> *`.
pub fn owners()
    ensures { HasOwners }
{}

/// A clause has one holder at most, and its filter is installed; behind a removal its clauses are free.
pub fn one_holder()
    ensures { HasOneHolderEach }
{}
