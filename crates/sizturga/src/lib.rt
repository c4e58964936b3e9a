// The library for C: include/sizturga.h declares its calls. A slice is a pointer and a length there.
#![tactic(auto)]

ghost use Rattle.std.specs.Prelude.{◌≡◌, length};
ghost use Rattle.sizturga.specs.Answers.{FixtureCall};

// The planner's call: 0, or the number of its refusal.
#[unsafe(no_mangle)]
pub extern "C" fn sizturga_fixture(file: &[u8], out: &mut [u8]) -> u32
    ensures { FixtureCall file.now (length out.old) result out.new }
{
    refusal::number(fixture::plan(file, out))
}
