// What holds of the definitions.
ghost use Rattle.lq_text_front.specs.Texts.Resolution.{OneResolution};

/// The three texts have at most one resolution.
pub fn one_resolution()
    ensures { OneResolution }
{}
