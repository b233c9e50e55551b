// A law of the definitions. Nothing is run.
ghost use Rattle.lq_top_words.specs.Inputs.Once.{FaultsAreOne, IsFaultOrHanded, HandedAreOne};

/// Where the folder tells what it holds and didn't fail, one line on a file is due or the texts are, and only one such line or such texts.
pub fn one_fault()
    ensures faults { FaultsAreOne }
    ensures either { IsFaultOrHanded }
    ensures handed { HandedAreOne }
{}
