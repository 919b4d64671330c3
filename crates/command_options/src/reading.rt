//! The options of the command, from its words.

ghost use Rattle.std.specs.Prelude.{◌≡◌, IfOk, IsErrOf, map, option_map, Some, None, string_bytes};
ghost use Rattle.command_words.specs.Views.{said_of};
ghost use Rattle.command_options.specs.Options.{frames_in, unwind_in, budget_in, named_in, decide_of, decide_in, top_in, file_in, bounds_in, all_of, options_in, options_of};

use crate::asked::{Decide, Options, UsageEnd, end_of};
use crate::limits::limits;
use crate::names::is_verilog_name;
use crate::numbers::number;
use command_words::{Written, given};
use joint_ir::{Bounds, LimitList, NamedLimitList};
use src_text::Name;
use std::alloc::{AllocError, Global};

fn edges(value: Option<&str>) -> Option<u32>
    ensures { result ≡ frames_in (option_map (λ s. s.now) value.entry) }
{
    match value {
        None => Some(10),
        Some(text) => Some(number(text, 0, 10_000)? as u32),
    }
}

fn turns(value: Option<&str>) -> Option<u32>
    ensures { result ≡ unwind_in (option_map (λ s. s.now) value.entry) }
{
    match value {
        None => Some(11),
        Some(text) => Some(number(text, 1, 10_000)? as u32),
    }
}

fn clause_budget(value: Option<&str>) -> Option<u64>
    ensures { result ≡ budget_in (option_map (λ s. s.now) value.entry) }
{
    match value {
        None => Some(1_000_000),
        Some(text) => number(text, 1, 2_000_000_000),
    }
}

fn decision(value: Option<&str>) -> Option<Decide>
    ensures { result ≡ decide_in (option_map (λ s. s.now) value.entry) }
{
    match value {
        None => Some(Decide::Activity),
        Some("order") => Some(Decide::Order),
        Some("activity") => Some(Decide::Activity),
        Some(_) => None,
    }
}

fn named_limits(alloc: Global, value: Option<&str>) -> Result<Option<NamedLimitList>, AllocError>
    ensures { IfOk result (λ list. list ≡ named_in (option_map (λ s. s.now) value.entry)) }
{
    match value {
        None => Ok(Some(NamedLimitList::new(alloc))),
        Some(text) => limits(alloc, text),
    }
}

fn top_name(alloc: Global, value: Option<&str>) -> Result<Option<Option<Name>>, AllocError>
    ensures { IfOk result (λ top. top ≡ top_in (option_map (λ s. s.now) value.entry)) }
{
    match value {
        None => Ok(Some(None)),
        Some(text) => {
            if !is_verilog_name(text) {
                return Ok(None);
            }
            Ok(Some(Some(Name::new(alloc, text)?)))
        }
    }
}

fn file_name(alloc: Global, text: &str) -> Result<Option<Name>, AllocError>
    ensures { IfOk result (λ name. name ≡ file_in text.now) }
{
    if text.is_empty() {
        return Ok(None);
    }
    Ok(Some(Name::new(alloc, text)?))
}

/// The limits of a run, without those by name.
fn run_bounds(
    alloc: Global,
    bound: Option<&str>,
    unwind: Option<&str>,
    check_bound: bool,
) -> Option<Bounds>
    ensures { result ≡ bounds_in (option_map (λ s. s.now) bound.entry) (option_map (λ s. s.now) unwind.entry) check_bound }
{
    let frames = edges(bound)?;
    let unwind = turns(unwind)?;
    Some(Bounds {
        unwind,
        limits: LimitList::new(alloc),
        frames,
        check_bound,
    })
}

/// The options, where each part is there.
fn all(
    top: Option<Option<Name>>,
    bounds: Option<Bounds>,
    limits: Option<NamedLimitList>,
    budget: Option<u64>,
    decide: Option<Decide>,
    c_file: Option<Name>,
    v_file: Option<Name>,
) -> Option<Options>
    ensures { result ≡ all_of top bounds limits budget decide c_file v_file }
{
    Some(Options {
        top: top?,
        bounds: bounds?,
        limits: limits?,
        budget: budget?,
        decide: decide?,
        c_file: c_file?,
        v_file: v_file?,
    })
}

/// The options that the words give as they are written, if each value is by its rule.
fn options_from(alloc: Global, written: Written) -> Result<Option<Options>, AllocError>
    ensures { IfOk result (λ options. options ≡ options_in (said_of written.entry)) }
{
    let Written {
        top,
        bound,
        unwind,
        unwindset,
        budget,
        decide,
        check_bound,
        c_file,
        v_file,
    } = written;
    let top = top_name(alloc, top)?;
    let bounds = run_bounds(alloc, bound, unwind, check_bound);
    let limits = named_limits(alloc, unwindset)?;
    let budget = clause_budget(budget);
    let decide = decision(decide);
    let c_file = file_name(alloc, c_file)?;
    let v_file = file_name(alloc, v_file)?;
    Ok(all(top, bounds, limits, budget, decide, c_file, v_file))
}

/// What the words ask for. They are those behind the program's name. `Usage` where they aren't of the command's form.
pub fn options(alloc: Global, words: &[String]) -> Result<Options, UsageEnd>
    ensures ok { IfOk result (λ options. options_of (map string_bytes words.now) ≡ Some options) }
    ensures usage { IsErrOf result UsageEnd.Usage → options_of (map string_bytes words.now) ≡ None }
{
    match given(alloc, words) {
        Ok(written) => match options_from(alloc, written)? {
            Some(options) => Ok(options),
            None => Err(UsageEnd::Usage),
        },
        Err(end) => Err(end_of(end)),
    }
}
