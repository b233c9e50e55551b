// What names are called in types.
ghost use Rattle.std.specs.Prelude.{◌≡◌, ◌++◌, OnOk, decimal, slice_get};
ghost use Rattle.std.specs.Option.{option_map};
ghost use Rattle.lq_logic_text.specs.Calling.{name_text};
ghost use Rattle.lq_logic_text.specs.Continued.{Continues};
ghost use Rattle.lq_logic_text.specs.Views.{calling_view, IsTold};
ghost use Rattle.lq_top_answers.specs.TypeText.Types.{parameter_text};
ghost use Rattle.lq_top_answers.specs.TypeText.Views.{parameters_view, writing_view};

use itoa::Buffer;
use lq_base_names::{Name, NameTable};
use lq_logic_text::Calling;
use std::alloc::AllocError;

/// The names of each datatype's parameters, by the number of the datatype's name.
#[derive(Debug, Drop)]
pub struct Parameters {
    pub rows: Vec<Vec<Name>>,
}

/// The texts of names, the source name of each binder, the k of each made name `%k`, and the names of parameters.
#[derive(Clone, Copy)]
pub struct Writing<'a> {
    pub table: &'a NameTable,
    pub sources: &'a [Option<Name>],
    pub made: &'a [Option<usize>],
    pub parameters: &'a Parameters,
}

impl Writing<'_> {
    // Each binder has its plain name.
    pub(crate) fn calling(&self) -> Calling<'_>
        ensures view { calling_view result ≡ (writing_view self.now).calling }
        ensures told { IsTold result }
    {
        Calling {
            table: self.table,
            sources: self.sources,
            made: self.made,
            ordinals: None,
        }
    }

    // The text of a name.
    fn text(&self, name: Name) -> &str
        ensures { result.now ≡ name_text (writing_view self.now).calling.names name.0 }
    {
        if name.0 < self.table.len() {
            self.table.text(name)
        } else {
            ""
        }
    }

    // Writes a name.
    #[tactic(auto, using(lq_logic_text::specs::Continued::continuing))]
    pub(crate) fn push_name(&self, line: &mut Vec<u8>, name: Name) -> Result<(), AllocError>
        ensures written { OnOk result (line.new.items ≡ line.old.items
            ++ name_text (writing_view self.now).calling.names name.0) }
        ensures begins { Continues line.old.items line.new.items }
    {
        line.extend_from_slice(self.text(name).as_bytes())
    }

    // Writes the name of a datatype's parameter.
    #[tactic(auto, using(lq_logic_text::specs::Continued::continuing))]
    pub(crate) fn push_parameter(
        &self,
        line: &mut Vec<u8>,
        data: Name,
        at: u32,
    ) -> Result<(), AllocError>
        ensures written { OnOk result (line.new.items ≡ line.old.items
            ++ parameter_text (writing_view self.now) data.0 at) }
        ensures begins { Continues line.old.items line.new.items }
    {
        match self.parameters.name(data, at) {
            Some(name) => self.push_name(line, name),
            None => Ok(()),
        }
    }
}

impl Parameters {
    fn name(&self, data: Name, at: u32) -> Option<Name>
        ensures { option_map (λ x. x.0) result ≡ slice_get (parameters_view self.now data.0) at }
    {
        let row = self.rows.get(data.0 as usize)?;
        row.get(at as usize).copied()
    }
}

// Writes a count.
#[tactic(auto, using(lq_logic_text::specs::Continued::continuing))]
pub(crate) fn push_count(line: &mut Vec<u8>, n: u64) -> Result<(), AllocError>
    ensures written { OnOk result (line.new.items ≡ line.old.items ++ decimal n) }
    ensures begins { Continues line.old.items line.new.items }
{
    let mut number = Buffer::new();
    line.extend_from_slice(number.format(n).as_bytes())?;
    Ok(())
}
