//! What comes at a port with keys.

ghost use Rattle.theorems.specs.Seals.{NoTagNoForgery};

/// Where no datagram has a forged tag, a port with keys passes on no forged message.
pub fn no_tag_no_forgery()
    ensures { NoTagNoForgery }
{
    sealed_port::laws::only_sealed_is_passed_on();
}
