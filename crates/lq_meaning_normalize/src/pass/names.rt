// Bindings to made names.
ghost use Rattle.std.specs.Prelude.{◌≡◌, ◌+◌, [], ◌∷◌, ◌++◌, false, IfOk, OnOk, OnErr};
ghost use Rattle.lq_meaning_normal_tree.specs.BlockView.{local_view, operation_view};
ghost use Rattle.lq_meaning_normal_form.specs.Outcomes.Flattening.{let_one};
ghost use Rattle.lq_text_tree.specs.TreeView.{scoped_view};
ghost use Rattle.lq_meaning_normalize.specs.Pass.Forming as formed;
ghost use Rattle.lq_meaning_normalize.specs.Pass.Views.{became, became_atom, is_pure_normal, lets_of, settled_as, standing_as, GoesOn};

use crate::pass::making::Pass;
use crate::pass::value::Normal;
use lq_base_names::{Binder, Place};
use lq_meaning_normal_tree::{Atom, AtomNode, Binding, Bound, Local, Operation};
use lq_text_tree::Expr;
use std::alloc::AllocError;

impl Pass {
    /// The next made name.
    pub fn make_name(&mut self) -> Result<Binder, AllocError>
        ensures name { IfOk result (λ x. x.0 ≡ self.old.next) }
        ensures next { OnOk result (self.new.next ≡ self.old.next + 1) }
        ensures lets { lets_of self.new ≡ lets_of self.old }
        ensures kept { OnErr result (self.new.next ≡ self.old.next) }
    {
        let name = self.next;
        match name.checked_add(1) {
            Some(next) => {
                self.next = next;
                Ok(Binder(name))
            }
            None => Err(AllocError),
        }
    }

    /// A binding behind the others.
    pub fn bind(
        &mut self,
        id: u32,
        place: Place,
        local: Local,
        value: Operation,
    ) -> Result<(), AllocError>
        ensures lets { OnOk result (lets_of self.new
            ≡ lets_of self.old ++ let_one id place (local_view local) (operation_view value) ∷ []) }
        ensures next { self.new.next ≡ self.old.next }
        ensures kept { OnErr result (lets_of self.new ≡ lets_of self.old) }
    {
        self.bindings.push(Binding {
            id,
            place,
            bound: Bound::Value(local, value),
        })?;
        Ok(())
    }

    /// An operation bound to the next made name, and that name.
    #[tactic(auto, using(crate::specs::Pass::Going::going))]
    pub fn bind_made(
        &mut self,
        id: u32,
        place: Place,
        value: Operation,
    ) -> Result<Binder, AllocError>
        ensures bound { IfOk result (λ x. standing_as self.new id place x
            ≡ formed.named id place (settled_as self.old value)) }
        ensures goes_on { GoesOn self.old self.new }
    {
        let binder = self.make_name()?;
        self.bind(id, place, Local { place, binder }, value)?;
        Ok(binder)
    }

    /// The same, and a use of that name.
    #[tactic(auto, using(crate::specs::Pass::Going::going))]
    pub fn name(&mut self, id: u32, place: Place, value: Operation) -> Result<Atom, AllocError>
        ensures named { IfOk result (λ a. became_atom self.new a false
            ≡ formed.named id place (settled_as self.old value)) }
        ensures goes_on { GoesOn self.old self.new }
    {
        let binder = self.bind_made(id, place, value)?;
        Ok(Atom {
            id,
            place,
            node: AtomNode::Use(binder),
        })
    }

    /// What an operand became: what can't stand as one is bound.
    #[tactic(auto, using(crate::specs::Pass::Going::going))]
    pub fn operand(&mut self, part: &Expr<Binder>, normal: Normal) -> Result<Atom, AllocError>
        ensures stands { IfOk result (λ a. became_atom self.new a (is_pure_normal normal)
            ≡ formed.operand (scoped_view part.now) (became self.old normal)) }
        ensures goes_on { GoesOn self.old self.new }
    {
        match normal {
            Normal::Atom(atom, _) => Ok(atom),
            Normal::Operation(operation) => self.name(part.id, part.place, operation),
        }
    }
}
