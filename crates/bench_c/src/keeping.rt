// The four calls on a shelf, exported to C.
ghost use Rattle.shelf.specs.Calls.{own, keep, forget, clear};
ghost use Rattle.bench.specs.Calls.{ShelfSays, FetchSays};

#[unsafe(no_mangle)]
pub extern "C" fn bench_keep(
    shelf: &mut [u32],
    job: &[u8],
    proposal: &[u8],
    answer: &mut [u64],
) -> u64
    ensures { ShelfSays (own (keep job.now proposal.now)) shelf.old answer.old result answer.new shelf.new }
{
    bench::keeping::bench_keep(shelf, job, proposal, answer)
}

#[unsafe(no_mangle)]
pub extern "C" fn bench_fetch(shelf: &[u32], job: &[u8], out: &mut [u32], answer: &mut [u64]) -> u64
    ensures { FetchSays shelf.now job.now out.old answer.old result answer.new out.new }
{
    bench::keeping::bench_fetch(shelf, job, out, answer)
}

#[unsafe(no_mangle)]
pub extern "C" fn bench_forget(shelf: &mut [u32], society: u32, job: u32, answer: &mut [u64]) -> u64
    ensures { ShelfSays (own (forget society job)) shelf.old answer.old result answer.new shelf.new }
{
    bench::keeping::bench_forget(shelf, society, job, answer)
}

#[unsafe(no_mangle)]
pub extern "C" fn bench_clear(shelf: &mut [u32], counts: &[u32; 8], answer: &mut [u64]) -> u64
    ensures { ShelfSays (clear counts.now) shelf.old answer.old result answer.new shelf.new }
{
    bench::keeping::bench_clear(shelf, counts, answer)
}
