//! From a text to its filter.
ghost use Rattle.std.specs.Prelude.{◌≡◌, ◌≤◌, ◌<◌, ◌^◌, false, length, drop, IfOk};
ghost use Rattle.loom_lexer.specs.Scan.{begins};
ghost use Rattle.loom_command.specs.FilterText.{is_blank};
ghost use Rattle.loom_filter.specs.View.{clauses_of};
ghost use Rattle.loom_filter.specs.ReaderView.{clauses_with, filter_reader};
ghost use Rattle.loom_command.specs.FilterFault.{clause_behind};
ghost use Rattle.loom_filter.specs.FilterError.{text_limit, TellsToken, TellsClauses, TellsFilter, clauses_tree};

use crate::clause::CountedClause;
use crate::fault::first_fault;
use crate::filter::{Clauses, Filter};
use crate::reader::{FilterReader, feed_filter, finish, fresh};
use crate::scan::scan;
use crate::word::blanks_end;
use loom_tree::name::NoMemory;
use std::alloc::Global;

/// The number where a text leaves the grammar.
const SYNTAX: u8 = 1;

/// The clause from which on a text that leaves the grammar tells this one.
const LAST_CLAUSE: usize = 9;

/// Why a filter is refused: the clause in which a fault stands, and the fault's number.
#[derive(Clone, Copy, Debug, Drop, PartialEq, Eq)]
pub struct FilterRefusal {
    /// The clause, from 1 to 9.
    pub clause: u8,
    /// Of a text, 1 where it isn't written like a filter, before any other number: its clause is the one at which no filter
    /// can be read on, and no later one than the ninth.
    ///
    /// Of the others the least clause is told, and in it the least number. Of a text: 5 where a count stands behind the last
    /// event of an order or in a region, 9 where an order has one event twice, 13 in the ninth clause, or in that with
    /// the 33rd event. Of a filter against a program the numbers are those of the crate that resolves it.
    pub number: u8,
}

impl FilterRefusal {
    pub(crate) fn new(clause: u8, number: u8) -> FilterRefusal
        ensures { result ≡ record { clause = clause; number = number } }
    {
        FilterRefusal { clause, number }
    }
}

/// Why there is no filter.
#[derive(Clone, Copy, Debug, Drop, PartialEq, Eq)]
pub enum FilterError {
    /// It is refused.
    Refused(FilterRefusal),
    /// Memory ran out.
    NoMemory,
}

impl From<NoMemory> for FilterError {
    ghost use Rattle.std.specs.Prelude.{◌≡◌};
    ghost use Rattle.loom_filter.specs.declared.parse.FilterError.TheVariants.{NoMemory};

    ghost from_gives = { λ _ e. e ≡ NoMemory };

    fn from(_error: NoMemory) -> FilterError {
        FilterError::NoMemory
    }
}

/// Why the clauses of a text are not told.
#[derive(Clone, Copy, Debug, Drop, PartialEq, Eq)]
pub(crate) enum ReadError {
    /// The text leaves the grammar behind so many whole clauses.
    Syntax(usize),
    /// Memory ran out.
    NoMemory,
}

impl From<NoMemory> for ReadError {
    ghost use Rattle.std.specs.Prelude.{◌≡◌};
    ghost use Rattle.loom_filter.specs.declared.parse.ReadError.TheVariants.{NoMemory};

    ghost from_gives = { λ _ e. e ≡ NoMemory };

    fn from(_error: NoMemory) -> ReadError {
        ReadError::NoMemory
    }
}

/// The place of the next token, behind the one that stands here and that the reader takes.
fn read_token(
    alloc: Global,
    bytes: &[u8],
    at: usize,
    filter: &mut FilterReader,
) -> Result<usize, ReadError>
    requires within { at < length bytes.now }
    requires small { length bytes.now ≤ text_limit }
    requires dark { begins is_blank (drop at bytes.now) ≡ false }
    ensures { TellsToken bytes.now at (filter_reader filter.old) (filter_reader filter.new) result }
{
    let whole = filter.clauses.len();
    match scan(alloc, bytes, at)? {
        Some(spot) => {
            let end = spot.end;
            if feed_filter(alloc, filter, spot.token)? {
                Ok(blanks_end(bytes, end))
            } else {
                Err(ReadError::Syntax(whole))
            }
        }
        None => Err(ReadError::Syntax(whole)),
    }
}

/// The clauses of the text, or how many of them are whole where it leaves the grammar.
fn read_clauses(alloc: Global, bytes: &[u8]) -> Result<Vec<CountedClause>, ReadError>
    requires { length bytes.now ≤ text_limit }
    ensures { TellsClauses bytes.now result }
{
    let mut filter = fresh(alloc);
    let mut at = blanks_end(bytes, 0);
    'read: while at < bytes.len() {
        at = read_token(alloc, bytes, at, &mut filter)?;
    }
    let whole = filter.clauses.len();
    match finish(alloc, filter)? {
        Some(clauses) => Ok(clauses),
        None => Err(ReadError::Syntax(whole)),
    }
}

fn clauses_of(alloc: Global, clauses: Vec<CountedClause>) -> Result<Clauses, NoMemory>
    ensures { IfOk result (λ all. clauses_of all ≡ clauses_tree (clauses_with clauses.items)) }
{
    let mut all = Vec::new(alloc);
    'clauses: for read in clauses {
        all.push(read.clause)?;
    }
    Ok(Clauses(all))
}

/// The clause behind so many whole ones; beyond the ninth it is the ninth.
fn clause_behind(whole: usize) -> u8
    ensures { result ≡ clause_behind whole }
{
    if whole < LAST_CLAUSE {
        whole as u8 + 1
    } else {
        LAST_CLAUSE as u8
    }
}

/// The filter of a text of at most 65,536 bytes. `Refused` comes exactly where it is none, with its first fault, and memory didn't run out.
pub fn parse_filter(alloc: Global, text: &[u8]) -> Result<Filter, FilterError>
    requires { length text.now ≤ text_limit }
    ensures { TellsFilter text.now result }
{
    match read_clauses(alloc, text) {
        Ok(clauses) => match first_fault(alloc, &clauses)? {
            None => Ok(Filter {
                clauses: clauses_of(alloc, clauses)?,
            }),
            Some(refusal) => Err(FilterError::Refused(refusal)),
        },
        Err(ReadError::Syntax(whole)) => Err(FilterError::Refused(FilterRefusal::new(
            clause_behind(whole),
            SYNTAX,
        ))),
        Err(ReadError::NoMemory) => Err(FilterError::NoMemory),
    }
}
