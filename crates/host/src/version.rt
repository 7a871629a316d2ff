// The version of the interface, so that a C program can tell the library it runs with from the header it was built with.
ghost use Rattle.std.specs.Prelude.{◌≡◌};
ghost use Rattle.host.specs.Version.{version_number};

const MAJOR: u32 = 0;

const MINOR: u32 = 1;

const PATCH: u32 = 0;

#[unsafe(no_mangle)]
pub extern "C" fn dartzulia_version() -> u32
    ensures { result ≡ version_number 0 1 0 }
{
    10_000 * MAJOR + 100 * MINOR + PATCH
}
