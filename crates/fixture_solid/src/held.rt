// The settings after a field.
ghost use Rattle.std.specs.Prelude.{◌≡◌, ◌<◌, ◌≤◌, length};
ghost use Rattle.fixture_spec.specs.Solids as Solids;
ghost use Rattle.fixture_solid.specs.Field as Field;

use crate::Settings;
use fixture_payload::count_at;
use shape::{CoordSystem, TessellationOptions};

// A system by its byte.
// Not From<u8> for CoordSystem: a byte is a system in more than one way (1 is the Cartesian one in own_system of crate replay_head).
fn system_of(x: u8) -> CoordSystem
    ensures { result ≡ Solids.system_of x }
{
    if x == 1 {
        CoordSystem::Cylindrical
    } else {
        CoordSystem::Cartesian
    }
}

// The segments and the rings of a payload.
fn options_of(p: &[u8]) -> TessellationOptions
    requires { 4 ≤ length p.now }
    ensures { result ≡ Field.options_of p.now }
{
    TessellationOptions {
        segments: count_at(p, 0),
        sphere_rings: count_at(p, 2),
    }
}

// The settings after a field with the payload p.
pub fn settings_after(s: Settings, tag: u8, p: &[u8]) -> Settings
    requires { Field.Sound tag p.now × (s.count < 65536) }
    ensures { Field.After s tag p.now result }
{
    // A match on the tag: a closure for each tag would be chosen by this same match.
    match tag {
        0x01 => Settings {
            options: options_of(p),
            ..s
        },
        0x02 => Settings {
            default: system_of(p[0]),
            ..s
        },
        0x03 => Settings {
            own: Some(system_of(p[0])),
            ..s
        },
        0x04 => Settings {
            degrees: p[0] == 1,
            ..s
        },
        0x05 => Settings {
            count: s.count + 1,
            ..s
        },
        _ => Settings {
            own: None,
            degrees: false,
            count: 0,
            ..s
        },
    }
}
