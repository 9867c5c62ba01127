//! What one token of a kind says of the others.

ghost use Rattle.help.specs.Choices.{SamplesSpeak};

/// Where one token of a kind could stand, each of them could.
pub fn samples_speak()
    // Where the one token that is asked for of a kind could stand, each of its kind could, and only there.
    ensures { SamplesSpeak }
{}
