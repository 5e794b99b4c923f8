//! Reads a filter: the clauses, one behind the other.
ghost use Rattle.std.specs.Prelude.{◌≡◌, IfOk};
ghost use Rattle.loom_filter.specs.Builders.{plain};
ghost use Rattle.loom_filter.specs.ReaderView.{token_of, clauses_if, filter_reader, TellsFed};
ghost use Rattle.loom_filter.specs.Machine as m;

use crate::clause::{ClauseNext, ClauseReader, CountedClause, feed, finish_clause};
use crate::scan::FilterToken;
use loom_tree::name::NoMemory;
use std::alloc::Global;
use std::mem;

/// The clauses that are complete, each with its `;`, and the one that was begun.
#[derive(Debug, Drop)]
pub struct FilterReader {
    /// The clauses.
    pub clauses: Vec<CountedClause>,
    /// What was read of the next one.
    pub reader: ClauseReader,
}

pub(crate) fn fresh(alloc: Global) -> FilterReader
    ensures { filter_reader result ≡ m.fresh }
{
    FilterReader {
        clauses: Vec::new(alloc),
        reader: ClauseReader::Begin,
    }
}

/// Takes a token; `false` where it can't follow. An `Err` is want of memory.
pub(crate) fn feed_filter(
    alloc: Global,
    filter: &mut FilterReader,
    token: FilterToken,
) -> Result<bool, NoMemory>
    ensures { IfOk result (TellsFed (filter_reader filter.old) (token_of token) (filter_reader filter.new)) }
{
    let reader = mem::replace(&mut filter.reader, ClauseReader::Begin);
    match feed(alloc, reader, token)? {
        Some(ClauseNext::Goes(next)) => {
            filter.reader = next;
            Ok(true)
        }
        Some(ClauseNext::Ends(clause)) => {
            filter.clauses.push(clause)?;
            Ok(true)
        }
        None => Ok(false),
    }
}

/// All clauses, where the filter ends here; `None` where it can't end. An `Err` is want of memory.
pub(crate) fn finish(
    alloc: Global,
    reader: FilterReader,
) -> Result<Option<Vec<CountedClause>>, NoMemory>
    ensures { IfOk result (λ r. clauses_if r ≡ m.finish plain (filter_reader reader)) }
{
    let FilterReader {
        mut clauses,
        reader,
    } = reader;
    match finish_clause(alloc, reader)? {
        Some(last) => {
            clauses.push(last)?;
            Ok(Some(clauses))
        }
        None => Ok(None),
    }
}
