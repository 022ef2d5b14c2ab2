// The checks of a run: refusals 2 and 3, in one pass.
ghost use Rattle.std.specs.Prelude.{◌≡◌, ◌+◌, ◌≤◌, MatchResult, Ok, Err};
ghost use Rattle.units.specs.Units.{word_max, index_limit};
ghost use Rattle.raft_log.specs.Words.{run_count, run_term, first_from, zero_at};
ghost use Rattle.raft_log.specs.Run.{scan_run, check_run};

use crate::Log;
use crate::words::{run_count, run_index, run_term};
use units::Index;
use units::refusal::Refusal;

// A run that passed the checks: its words, the index that it follows on, and how many records it has.
#[derive(Clone, Copy)]
pub struct Run<'a> {
    pub words: &'a [u64],
    pub after: u64,
    pub count: u64,
    ghost whole: { count ≤ run_count words.now },
    ghost limited: { after + count ≤ index_limit },
    ghost terms_set: { first_from (zero_at (run_term words.now)) 0 count ≡ count },
}

impl<'a> Run<'a> {
    // Refusal 2 or 3, or the run.
    #[tactic(auto, using(crate::proofs::Runs::run_passed))]
    pub fn new(words: &'a [u64], after: u64) -> Result<Self, Refusal>
        ensures { MatchResult result (λ r. (r.words.now ≡ words.now) × (r.after ≡ after) × (check_run words.now after ≡ Ok r.count)) (λ e. check_run words.now after ≡ Err e) }
    {
        let count = check_run(words, after)?;
        Ok(Run {
            words,
            after,
            count,
        })
    }
}

// One pass over the first n records: an index out of place refuses at once, a zero term only after the last record.
fn scan_run(run: &[u64], idx: u64, n: u64) -> Result<(), Refusal>
    requires { (n ≤ run_count run.now) × (idx + n ≤ word_max) }
    ensures { result ≡ scan_run run.now idx n }
{
    let mut zero = false;
    for k in 0..n {
        if run_index(run, k) != idx + 1 + k {
            return Err(Refusal::MisnumberedRun);
        }
        zero |= run_term(run, k) == 0;
    }
    if zero {
        return Err(Refusal::ZeroTerm);
    }
    Ok(())
}

// How many records a run has that follows on idx.
fn check_run(run: &[u64], idx: u64) -> Result<u64, Refusal>
    ensures { result ≡ check_run run.now idx }
{
    let n = run_count(run);
    if run.len() % Log::RUN != 0 {
        return Err(Refusal::MisnumberedRun);
    }
    if idx > Index::LIMIT {
        return Err(Refusal::MisnumberedRun);
    }
    if n > Index::LIMIT - idx {
        return Err(Refusal::MisnumberedRun);
    }
    scan_run(run, idx, n)?;
    Ok(n)
}
