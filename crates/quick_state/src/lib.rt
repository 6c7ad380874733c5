// Calls on the state alone, on the image itself (crate in_place), which take and put no more of it than they need. Each is what crate entry makes of it:
// decode, call, encode. None has a `requires`: what refuses the image comes first, then what the call itself refuses.
// The screen's calls are in crate quick_screen.
#![tactic(auto)]

ghost use Rattle.std.specs.Prelude.{◌≡◌};
ghost use Rattle.image.specs.Load.{load_call};
ghost use Rattle.numbers.specs.Refusal.{number_given};

pub mod clock;
pub mod fields;
pub mod input;
pub mod interrupts;
pub mod page;

use numbers::Refusal;

// As `image::taken`, with its tests in place, for the timer's, the joypad's and the interrupts' calls and `is_hdma_enabled` (bench/budgets.txt).
#[inline(always)]
fn taken_here(image: &[u8]) -> Result<(), Refusal>
    ensures { number_given result ≡ (load_call image.now).number }
{
    image::mapper_taken(image)?;
    image::rest_taken(image)
}
