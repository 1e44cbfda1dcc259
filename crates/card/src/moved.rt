// What one step hands on to the next inside the card.
ghost use Rattle.std.specs.Prelude.{◌≡◌};
ghost use Rattle.rules.specs.Steps.{driven, pin_value};
ghost use Rattle.memory.specs.Image.{bit};
ghost use Rattle.volatile.specs.Packed.{unpacked};
ghost use Rattle.card.specs.Moves.{moved, left_by};

use volatile::Volatile;

// The result of an accepted step that leaves image and fuses as they are: the volatile half and the pin.
#[derive(Clone, Copy)]
pub(crate) struct Moved {
    pub(crate) volatile: Volatile,
    pub(crate) pin: u8,
}

// The result of any accepted step: the fuses too.
#[derive(Clone, Copy)]
pub(crate) struct Left {
    pub(crate) fuses: u8,
    pub(crate) volatile: Volatile,
    pub(crate) pin: u8,
}

impl Moved {
    // The pin is read after the step.
    pub(crate) fn read(v: Volatile, image: &[u8], fuses: u8) -> Moved
        ensures { result ≡ moved v (pin_value (driven fuses (unpacked v)) (bit image.now v.address)) }
    {
        Moved {
            volatile: v,
            pin: v.pin(image, fuses),
        }
    }

    // The fuses are as they were.
    pub(crate) fn with_fuses(self, fuses: u8) -> Left
        ensures { result ≡ left_by self fuses }
    {
        Left {
            fuses,
            volatile: self.volatile,
            pin: self.pin,
        }
    }
}
