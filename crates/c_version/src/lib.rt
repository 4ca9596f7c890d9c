// The version of the library, which the header, the archive and the Rust crate have in common.
#![tactic(auto)]

ghost use Rattle.std.specs.Prelude.{◌≡◌};
ghost use Rattle.c_give.specs.Exported.{answered, never};
ghost use Rattle.c_version.specs.Version.{version_number};

// The version: 10,000 for each major number, 100 for each minor one, 1 for each patch.
pub const VERSION: u32 = 600;

pub fn version(version: &mut u32) -> u8
    ensures { answered result version.new ≡ never version_number }
{
    *version = VERSION;
    0
}
