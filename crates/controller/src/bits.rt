ghost use Rattle.std.specs.Prelude.{◌≡◌, ◌^◌};
ghost use Rattle.controller.specs.Bits.{bit_of};
ghost use Rattle.model.specs.Bits.{has as has_bit};

/// Whether a control byte has a bit.
pub(crate) fn has(value: u8, mask: u8) -> bool
    requires { mask ≡ 2 ^ bit_of mask }
    ensures { result ≡ has_bit value (bit_of mask) }
{
    value & mask != 0
}
