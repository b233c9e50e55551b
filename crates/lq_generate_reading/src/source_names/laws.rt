// Laws of the definitions. Nothing is run.
ghost use Rattle.lq_generate_reading.specs.SourceNames.Laws.{MadeNamesAreNotRead, NormalFormsKeepTexts, ResolvedProgramsDefineTexts};

/// What is read of a program doesn't depend on the types of made names, where what it defines has source names.
pub fn made_names_are_not_read()
    ensures { MadeNamesAreNotRead }
{}

/// What a program defines has source names in its normal form too.
pub fn normal_forms_keep_texts()
    ensures { NormalFormsKeepTexts }
{}

/// What a program of a text defines has source names once its names are bound.
pub fn resolved_programs_define_texts()
    ensures { ResolvedProgramsDefineTexts }
{}
