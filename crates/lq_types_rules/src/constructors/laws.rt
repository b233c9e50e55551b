// What the datatypes of a program say of its constructors.
ghost use Rattle.lq_types_rules.specs.Constructors.Agreeing.{SignaturesAgree};

/// The signature of the datatypes that items define is the one by which the items' types are judged.
pub fn signatures_agree()
    ensures { SignaturesAgree }
{}
