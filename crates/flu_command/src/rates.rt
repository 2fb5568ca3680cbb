//! How many events per second to expect of the itags of a job.

ghost use Rattle.std.specs.Prelude.{◌≡◌, ◌<◌, ◌≤◌, ◌^◌, length, EachIndex, slice_index, IfOk};
ghost use Rattle.flu_model.specs.Itags.{count_of_itags, source_of_itag};
ghost use Rattle.flu_command.specs.Rates.{rate_of_source, source_rates};

use flu_model::{Itag, Program, itag_count, source_of};
use std::alloc::{AllocError, Global};

/// The rate of each itag's source, by the itags' numbers: events per second.
pub fn source_rates(alloc: Global, program: &Program) -> Result<Vec<u64>, AllocError>
    ensures rates { IfOk result (λ rates. rates.items ≡ source_rates program.now) }
    ensures each { IfOk result (λ rates. length rates.items ≡ count_of_itags program.now) }
    ensures small { IfOk result (λ rates. EachIndex rates.items (λ k. slice_index rates.items k ≤ 2 ^ 40)) }
{
    let mut rates = Vec::new(alloc);
    for number in 0..itag_count(program) {
        rates.push(rate_of(program, Itag(number)))?;
    }
    Ok(rates)
}

// The rate of an itag's source.
fn rate_of(program: &Program, itag: Itag) -> u64
    requires { itag.0 < count_of_itags program.now }
    ensures { result ≡ rate_of_source program.now.sources (source_of_itag program.now itag) }
{
    let number = source_of(program, itag);
    match program.sources.items().get(number as usize) {
        Some(source) => source.rate,
        None => 0,
    }
}
