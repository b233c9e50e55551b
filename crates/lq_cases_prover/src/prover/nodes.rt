// Which forms of nodes stand in a proof tree.
use lq_prover_proof_tree::trees::CaseProof;
use std::alloc::{AllocError, Global};

/// Which forms of nodes stand in a proof tree.
#[derive(Clone, Copy, Default)]
pub(crate) struct Nodes {
    pub(crate) any: bool,
    pub(crate) apart: bool,
    pub(crate) equal: bool,
    pub(crate) never: bool,
    rows: bool,
    flags: bool,
    merges: bool,
}

impl Nodes {
    pub(crate) fn add_leaf(&mut self, leaf: &CaseProof) {
        match leaf {
            CaseProof::Rows(_) => self.rows = true,
            CaseProof::Flags(_, _) => self.flags = true,
            CaseProof::Merges(_, _) => self.merges = true,
        }
    }

    /// The names of the forms.
    pub(crate) fn text(&self, alloc: Global) -> Result<String, AllocError> {
        let mut out = String::new(alloc);
        let forms = [
            (self.any, "any"),
            (self.apart, "apart"),
            (self.equal, "equal"),
            (self.never, "false"),
            (self.rows, "rows"),
            (self.flags, "flags"),
            (self.merges, "merges"),
        ];
        for (stands, name) in &forms {
            if *stands {
                if !out.is_empty() {
                    out.push_str(" ")?;
                }
                out.push_str(name)?;
            }
        }
        Ok(out)
    }
}
