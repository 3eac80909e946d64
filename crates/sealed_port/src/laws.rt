//! What holds of all that a sealed port passes on.

ghost use Rattle.sealed_port.specs.Laws.{OnlySealedIsPassedOn, SealedIsPassedOn};

/// What is passed on as anything but 64 zeros is sealed by one of the keys.
pub fn only_sealed_is_passed_on()
    ensures { OnlySealedIsPassedOn }
{}

/// What is sealed by one of the keys is passed on.
pub fn sealed_is_passed_on()
    ensures { SealedIsPassedOn }
{}
