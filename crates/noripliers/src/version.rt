// The version of the library.
ghost use Rattle.std.specs.Prelude.{◌≡◌};
ghost use Rattle.c_give.specs.Exported.{answered, never};
ghost use Rattle.c_version.specs.Version.{version_number};

// The version of the archive, which is that of this header where the two belong together: 10,000 for each major number, 100 for
// each minor one, 1 for each patch.
// Never refused.
#[unsafe(no_mangle)]
pub extern "C" fn nori_version(version: &mut u32) -> u8
    ensures { answered result version.new ≡ never version_number }
{
    c_version::version(version)
}
