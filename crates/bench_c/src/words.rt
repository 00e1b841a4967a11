// The two calls on a job's words, exported to C.
ghost use Rattle.bench.specs.Calls.{ReadSays, WriteSays};

#[unsafe(no_mangle)]
pub extern "C" fn bench_read(job: &[u8], words: &mut [i64], answer: &mut [u64]) -> u64
    ensures { ReadSays job.now words.old answer.old result answer.new words.new }
{
    bench::words::bench_read(job, words, answer)
}

#[unsafe(no_mangle)]
pub extern "C" fn bench_write(words: &[i64], out: &mut [u8], answer: &mut [u64]) -> u64
    ensures { WriteSays words.now out.old answer.old result answer.new out.new }
{
    bench::words::bench_write(words, out, answer)
}
