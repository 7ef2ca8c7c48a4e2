// The display's function for programs in C.
#![tactic(auto)]

ghost use Rattle.display.specs.Answers.{Displayed};

use ends::display::open_at_display;
use refusals::answer_number;

// Opens a sector as the display's end would, and answers 0, 5, 7 or 11. The letter is the code of A or S; a slice is a pointer,
// never null, and a length; key and bytes do not overlap.
#[unsafe(no_mangle)]
pub extern "C" fn link_display_open(
    letter: u32,
    key: &[u8],
    name: u16,
    number: u64,
    bytes: &mut [u8],
) -> u32
    ensures { Displayed letter key.now name number bytes.old result bytes.new }
{
    u32::from(answer_number(open_at_display(letter, key, name, number, bytes)))
}
