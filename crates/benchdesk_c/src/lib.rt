// For the bench alone: benchdesk for C.
#![tactic(auto)]

ghost use Rattle.std.specs.Prelude.{◌≡◌, length};
ghost use Rattle.benchdesk.specs.Bench.{benched, number_of, laid_by};

// A book read in parts: code times 2^32, plus the bytes written, as herd_desk, but for 18.
#[unsafe(no_mangle)]
pub extern "C" fn bench_parts(book: &[u8], lines: &mut [u8], part: usize) -> u64
    ensures number { result ≡ number_of (benched book.now part (length lines.old)) }
    ensures lines { lines.new ≡ laid_by (benched book.now part (length lines.old)) lines.old }
{
    benchdesk::bench_parts(book, lines, part)
}
