//! Sets of functions, with one bit for each.
ghost use Rattle.std.specs.Prelude.{◌≡◌, ◌<◌, ◌^◌, ◌↔◌, ◌||◌, ℕ, IsTrue, true, length};
ghost use Rattle.loom_lang.specs.Limits.{function_limit};
ghost use Rattle.loom_trace.specs.Places.{has_place};
ghost use Rattle.loom_sites.specs.Links.{is_call_of};
ghost use Rattle.loom_sites.specs.Rows.{IsFewCall, IsTable, meets_at, any_meets};
ghost use Rattle.loom_sites.specs.Functions.{has_function, AreFunctions, IsReachedFrom, calls_there, lies_there, is_of};

use crate::links::{PlaceKind, PlaceLinks};
use loom_flow::flow::Flow;
use loom_trace::places::Places;

/// The set of one function.
pub fn bit(f: u8) -> u64
    requires { f < function_limit }
    ensures { result ≡ 2 ^ f }
{
    1 << f
}

/// Whether the function is in the set.
pub fn has_function(bits: u64, f: u8) -> bool
    requires { f < function_limit }
    ensures { result ≡ has_function bits f }
{
    (bits >> f) % 2 == 1
}

/// With the function that the statement itself calls.
#[tactic(auto, using(crate::proofs::Bits::with_bit, crate::proofs::Bits::no_call))]
pub fn with_call(bits: u64, kind: PlaceKind) -> u64
    requires { IsFewCall kind }
    ensures { (g : ℕ) → has_function result g ≡ (has_function bits g || is_call_of g kind) }
{
    match kind {
        PlaceKind::Entry => bits,
        PlaceKind::Out => bits,
        PlaceKind::Turn => bits,
        PlaceKind::Plain => bits,
        PlaceKind::Return => bits,
        PlaceKind::Call(f) => bits | bit(f),
    }
}

/// The functions that the statements at these places call themselves.
pub fn calls_at(links: &[PlaceLinks], places: &Places) -> u64
    requires { IsTable links.now }
    ensures { (g : ℕ) → has_function result g ≡ any_meets (calls_there places.now g) 0 links.now }
{
    let mut bits = 0;
    'places: for (k, row) in links.iter().enumerate() {
        if places.has(k as u16) {
            bits = with_call(bits, row.kind);
        }
    }
    bits
}

/// The functions in which these places lie.
pub fn functions_at(links: &[PlaceLinks], places: &Places) -> u64
    requires { IsTable links.now }
    ensures { (g : ℕ) → has_function result g ≡ any_meets (lies_there places.now g) 0 links.now }
{
    let mut bits = 0;
    'places: for (k, row) in links.iter().enumerate() {
        if places.has(k as u16) {
            bits |= bit(row.function);
        }
    }
    bits
}

/// The least function of a set.
#[tactic(auto, using(crate::proofs::Bits::least))]
fn least_function(bits: u64) -> u8
    requires { 0 < bits }
    ensures is { has_function bits result ≡ true }
    ensures below { result < function_limit }
{
    bits.trailing_zeros() as u8
}

/// These functions, and those that calls in them reach.
pub fn reached_functions(flow: &Flow, called: u64) -> u64
    requires { AreFunctions flow.now.program called }
    ensures is { (g : ℕ) → IsTrue (has_function result g) ↔ IsReachedFrom flow.now.program called g }
    ensures within { AreFunctions flow.now.program result }
{
    // Where a program is read, it is known to keep the rules.
    let _program = flow.program();
    let mut found = called;
    let mut left = called;
    'walk: while left > 0 {
        let f = least_function(left);
        let next = found | flow.calls_of(f);
        left = (left ^ bit(f)) | (next ^ found);
        found = next;
    }
    found
}

/// Whether the place is one of these functions.
fn is_of(bits: u64, k: u16, row: &PlaceLinks) -> bool
    requires { row.now.function < function_limit }
    ensures { result ≡ is_of bits k row.now }
{
    k > 0 && has_function(bits, row.function)
}

/// Adds the places of these functions.
pub fn put_functions(places: &mut Places, links: &[PlaceLinks], bits: u64)
    requires { IsTable links.now }
    ensures { (k : ℕ) → has_place places.new k ≡ (has_place places.old k || meets_at (is_of bits) links.now k) }
{
    'places: for (k, row) in links.iter().enumerate() {
        if is_of(bits, k as u16, row) {
            places.put(k as u16);
        }
    }
}
