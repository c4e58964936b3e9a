// What a case asks for, by the call's number.
ghost use Rattle.std.specs.Prelude.{◌≡◌};
ghost use Rattle.replay_head.specs.Asked.{mesh_allowed_of, allowed_of, before_call, list_floats_of, passed_of};

use replay_format::Head;

// Whether the mesh's slices have no more than the most places.
fn mesh_allowed(h: Head) -> bool
    ensures { result ≡ mesh_allowed_of h }
{
    (h.vertex_floats <= 196608) & (h.triangle_numbers <= 393216)
}

// Whether the case asks for no more than the most places.
// A match: it chooses a limit by the call, not a step to run.
// The call's number as the case has it: the definitions allowed_of_call and before_call are by numbers, as the table of tests/README.md.
pub fn allowed(h: Head) -> bool
    ensures { result ≡ allowed_of h }
{
    let what = h.what;
    match what {
        1 => mesh_allowed(h) & (h.work_numbers <= 131072),
        2 => h.triangle_numbers <= 131072,
        8 => mesh_allowed(h),
        _ => true,
    }
}

// n before a call, by the call's number: loading reads its own.
// A test of the number: it chooses a count by the call, not a step to run.
fn before_call(what: u8, n: u32) -> usize
    ensures { result ≡ before_call what n }
{
    if what == 8 { 0 } else { slice::wide(n) }
}

// How many floats of the list are read before the call.
pub fn list_floats(h: Head) -> usize
    ensures { result ≡ list_floats_of h }
{
    before_call(h.what, h.list_floats)
}

// How many numbers are passed over before the call.
pub fn passed(h: Head) -> usize
    ensures { result ≡ passed_of h }
{
    before_call(h.what, h.loaded_numbers)
}
