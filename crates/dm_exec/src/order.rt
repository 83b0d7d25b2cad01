//! The orders in which a run may take its steps, by number.

ghost use Rattle.std.specs.Prelude.{◌≡◌};
ghost use Rattle.dm_exec.specs.Orders.{drawn, turned};

/// The choices that an order makes, one after another. The number of an order is all that they depend on.
#[derive(Clone, Copy, Debug)]
pub struct Choices {
    order: u64,
    /// The generator's number behind the last choice.
    number: u64,
}

/// The generator's multiplier and increment.
const MULTIPLIER: u64 = 6364136223846793005;

const INCREMENT: u64 = 1442695040888963407;

impl Choices {
    /// The choices of an order from the first step on.
    pub fn of(order: u64) -> Choices
        ensures order { result.order ≡ order }
        ensures number { result.number ≡ order }
    {
        Choices {
            order,
            number: order,
        }
    }

    /// The choice of the next step.
    pub fn draw(&mut self) -> u64
        ensures choice { result ≡ drawn self.old.order (turned self.old.number) }
        ensures order { self.new.order ≡ self.old.order }
        ensures number { self.new.number ≡ turned self.old.number }
    {
        self.number = self.number.wrapping_mul(MULTIPLIER).wrapping_add(INCREMENT);
        choice(self.order, self.number)
    }
}

/// The choice that an order makes of the generator's number.
fn choice(order: u64, number: u64) -> u64
    ensures { result ≡ drawn order number }
{
    if order == 0 {
        0
    } else if order == 1 {
        u64::MAX
    } else {
        (number >> 33) % 4
    }
}
