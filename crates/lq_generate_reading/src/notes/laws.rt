// What holds of what is noted. Nothing is run.
ghost use Rattle.lq_generate_reading.specs.Notes.Noted.{NotedAreKnown};

/// What is noted knows of its program.
pub fn noted_are_known()
    ensures { NotedAreKnown }
{}
