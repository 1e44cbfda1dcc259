// Which library this is.
ghost use Rattle.std.specs.Prelude.{◌≡◌};
ghost use Rattle.exports.specs.Rendered.{version};

// 0.1.1, in the numbers of the header's ZHAV_VERSION.
const VERSION: u32 = 101;

// The library's own version, for a bench to compare with its header's.
#[unsafe(no_mangle)]
pub extern "C" fn zhav_version() -> u32
    ensures { result ≡ version }
{
    VERSION
}
