// The three calls on comma lists, exported to C.
ghost use Rattle.bench.specs.Calls.{given_of, ImportSays, ExportSays, RatesSays};

#[unsafe(no_mangle)]
pub extern "C" fn bench_import(
    text: &[u8],
    divisor: u64,
    society: u64,
    job: u64,
    order: u64,
    constant: u64,
    tolerance: u64,
    floor: u64,
    ceiling: u64,
    out: &mut [u8],
    answer: &mut [u64],
) -> u64
    ensures { ImportSays (given_of divisor society job order constant tolerance floor ceiling) text.now out.old answer.old result answer.new out.new }
{
    bench::comma::bench_import(
        text, divisor, society, job, order, constant, tolerance, floor, ceiling, out, answer,
    )
}

#[unsafe(no_mangle)]
pub extern "C" fn bench_export(rates: &[u32], first: u64, out: &mut [u8], answer: &mut [u64]) -> u64
    ensures { ExportSays rates.now first out.old answer.old result answer.new out.new }
{
    bench::comma::bench_export(rates, first, out, answer)
}

#[unsafe(no_mangle)]
pub extern "C" fn bench_rates(text: &[u8], out: &mut [u32], answer: &mut [u64]) -> u64
    ensures { RatesSays text.now out.old answer.old result answer.new out.new }
{
    bench::comma::bench_rates(text, out, answer)
}
