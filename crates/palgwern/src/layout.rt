// The number of the layout: a program compares it with that of the header or the module that it was compiled with.
ghost use Rattle.std.specs.Prelude.{◌≡◌};
ghost use Rattle.palgwern.specs.Layout.{layout_number};

// It is one more after each change of a struct, of a length or of a number that crosses, and stays where calls and structs are only added.
pub const LAYOUT: u32 = 2;

// The number of the layout.
#[unsafe(no_mangle)]
pub extern "C" fn palgwern_layout() -> u32
    ensures { result ≡ layout_number }
{
    LAYOUT
}
