// The four calls on proposals, exported to C.
ghost use Rattle.bench.specs.Calls.{CheckSays, TermsSays, ProposeSays, ProposeLinkedSays};

#[unsafe(no_mangle)]
pub extern "C" fn bench_check(job: &[u8], proposal: &[u8], answer: &mut [u64]) -> u64
    ensures { CheckSays job.now proposal.now answer.old result answer.new }
{
    bench::proposals::bench_check(job, proposal, answer)
}

#[unsafe(no_mangle)]
pub extern "C" fn bench_terms(
    job: &[u8],
    proposal: &[u8],
    out: &mut [i64],
    answer: &mut [u64],
) -> u64
    ensures { TermsSays job.now proposal.now out.old answer.old result answer.new out.new }
{
    bench::proposals::bench_terms(job, proposal, out, answer)
}

#[unsafe(no_mangle)]
pub extern "C" fn bench_propose(job: &[u8], out: &mut [u8], answer: &mut [u64]) -> u64
    ensures { ProposeSays job.now out.old answer.old result answer.new out.new }
{
    bench::proposals::bench_propose(job, out, answer)
}

#[unsafe(no_mangle)]
pub extern "C" fn bench_propose_linked(
    job: &[u8],
    passes: u64,
    out: &mut [u8],
    answer: &mut [u64],
) -> u64
    ensures { ProposeLinkedSays job.now passes out.old answer.old result answer.new out.new }
{
    bench::proposals::bench_propose_linked(job, passes, out, answer)
}
