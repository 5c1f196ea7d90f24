// The reader for `bench/read`, which times it and tries the longest texts.
#![tactic(auto)]

ghost use Rattle.std.specs.Prelude.{◌≡◌, length};
ghost use Rattle.paper.specs.Reader.{reading};
ghost use Rattle.reader_bench.specs.Number.{reading_number};

// Reads a text: 0, or the number of the refusal.
#[unsafe(no_mangle)]
pub extern "C" fn reader_bench_read(text: &[u8], work: &mut [u32]) -> u32
    ensures { result ≡ reading_number (reading text.now (length work.old)) }
{
    match reader::read(text, work) {
        Ok(_) => 0,
        Err(r) => r.refusal.number(),
    }
}
