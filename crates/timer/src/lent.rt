// The update on a timer record that is lent by `&mut`: the record is copied, updated by value, and stored back whole.
ghost use Rattle.numbers.specs.Refusal.{number_given};
ghost use Rattle.timer.specs.Timer.{Updates};

use crate::Timer;
use numbers::Refusal;

// The timer is what `update` makes of it; a refusal leaves it as it was.
pub fn update_lent(timer: &mut Timer, cycles: u32) -> Result<(), Refusal>
    ensures { Updates timer.old cycles (number_given result) timer.new }
{
    *timer = crate::update(*timer, cycles)?;
    Ok(())
}
