//! What a seed determines. Each law is the contract of a function that does nothing.

ghost use Rattle.flu_live.specs.OneRun.{OneRunASeed, OneLineASeed, OneTraceASeed};

use flu_net::laws::steps_determine;

/// A job, a plan, streams and a seed have one run: its steps, how many of each kind there are, and the mark.
pub fn a_seed_draws_one_run()
    ensures run { OneRunASeed }
    ensures line { OneLineASeed }
    ensures trace { OneTraceASeed }
{
    steps_determine();
}
