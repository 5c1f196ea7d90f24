// Reading and naming without checks and frames, for `bench/run`: it says how much of a call the walk over the names takes.
#![tactic(auto)]

ghost use Rattle.std.specs.Prelude.{length};
ghost use Rattle.paper.specs.Reader.{reading};
ghost use Rattle.naming_bench.specs.Names.{Names};

// Reads a text, and names its labels and symbols if it is read. The work area is not cleared.
#[unsafe(no_mangle)]
pub extern "C" fn naming_bench_name(text: &[u8], work: &mut [u32])
    ensures { Names text.now work.new (length work.old) (reading text.now (length work.old)) }
{
    if let Ok(read) = reader::read(text, work) {
        fold::start::start(text, work, read.rows);
    }
}
