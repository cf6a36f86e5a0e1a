//! The laws of JSON values in lines.
ghost use Rattle.line_laws.specs.Texts.{ReadsTexts};
ghost use Rattle.line_laws.specs.Values.{ArePlainValues};

/// What is written of a JSON value is read as that value, where its numbers are integers of 64 bits,
/// its texts are UTF-8, the keys of each object are in order, and it is at most 127 deep.
pub fn written_texts_are_read()
    ensures { ReadsTexts }
{}

/// What is written of a sound value is such a JSON value, and at most 99 deep.
pub fn written_values_are_plain()
    ensures { ArePlainValues }
{}
