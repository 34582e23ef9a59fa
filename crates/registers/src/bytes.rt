// The logic instruction on a byte, eight lines at once.
ghost use Rattle.std.specs.Prelude.{◌≡◌, ℕ, ◌*◌, ◌%◌, ◌<◌};
ghost use Rattle.bits.specs.Bits.{digit};
ghost use Rattle.registers.specs.Logic.{function_bit, new_x, new_y};

use bits::mix;

// A byte whose every digit is digit `j` of `t`.
fn spread(t: u8, j: u8) -> u8
    requires { j < 8 }
    ensures { result ≡ 255 * digit t j }
{
    255 * ((t >> j) % 2)
}

// Byte 7 of a logic instruction: 16 times the choice, 0 to 4, plus the function.
#[derive(Clone, Copy)]
pub struct Byte7 {
    pub value: u8,
    ghost of_a_choice: { value < 80 },
}

impl Byte7 {
    // The new byte of a register under the function, from its old byte and the passed byte.
    fn function_byte(self, old: u8, item: u8) -> u8
        ensures { (j : ℕ) → j < 8 → digit result j ≡ function_bit (self.value % 16) (digit old j) (digit item j) }
    {
        let zero = mix(spread(self.value, 0), spread(self.value, 1), item);
        let one = mix(spread(self.value, 2), spread(self.value, 3), item);
        mix(zero, one, old)
    }

    // A byte of X after the instruction. Choices 0 and 2 write it where the old Y is 0, choices 0, 2, 3 and 4 where it is 1: the digits of 5 and of 29.
    pub fn x_byte(self, x: u8, y: u8, item: u8) -> u8
        ensures { (j : ℕ) → j < 8 → digit result j ≡ new_x self.value (digit x j) (digit y j) (digit item j) }
    {
        let choice = self.value / 16;
        let written = mix(spread(5, choice), spread(29, choice), y);
        mix(x, self.function_byte(x, item), written)
    }

    // A byte of Y after it. Choices 1, 2 and 4 write it: the digits of 22.
    pub fn y_byte(self, y: u8, item: u8) -> u8
        ensures { (j : ℕ) → j < 8 → digit result j ≡ new_y self.value (digit y j) (digit item j) }
    {
        mix(y, self.function_byte(y, item), spread(22, self.value / 16))
    }
}
