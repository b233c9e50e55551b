// Flags, objects and applications.
ghost use Rattle.std.specs.Prelude.{◌≡◌, ◌++◌, ◌∷◌, [], if◌then◌else◌, IfOk, OnOk, map};
ghost use Rattle.lq_logic_predicates.specs.PredView.{formula_of, implication_of};
ghost use Rattle.lq_logic_predicates.specs.Table.{with_term};
ghost use Rattle.lq_logic_predicates.specs.TableView.{terms_of};
ghost use Rattle.lq_logic_predicates.specs.TermView.{sum_of};
ghost use Rattle.lq_prover_proof_tree.specs.Literals.LeafView.{leaf_views};
ghost use Rattle.lq_prover_proof_tree.specs.Literals.Parts.{with_flag, flags_with, flags_in, objects_of, objects_with, objects_in, is_application, places_from};

use crate::literals::leaf::leaves_of;
use indexmap::IndexSet;
use lq_logic_predicates::{Closed, Pred, Symbol, Term, TermTable};
use std::alloc::{AllocError, Global};

// Adds the flag that a leaf is.
fn add_flag(pred: &Pred, flags: &mut IndexSet<Symbol>) -> Result<(), AllocError>
    ensures { OnOk result (flags.new.keys ≡ flags_with flags.old.keys (formula_of pred.now)) }
{
    if let Pred::Flag(symbol) = pred {
        flags.insert(*symbol)?;
    }
    Ok(())
}

/// The flags of an implication.
pub fn flags(alloc: Global, implication: &Closed) -> Result<IndexSet<Symbol>, AllocError>
    ensures { IfOk result (λ flags. flags.keys ≡ flags_in (implication_of implication.now)) }
{
    let leaves = leaves_of(alloc, implication)?;
    let mut flags = IndexSet::new(alloc);
    for leaf in &leaves {
        add_flag(leaf.pred, &mut flags)?;
    }
    Ok(flags)
}

// Adds an object.
fn add_object(alloc: Global, object: &Term, objects: &mut IndexSet<Term>) -> Result<(), AllocError>
    ensures { OnOk result (map sum_of objects.new.keys ≡ with_term (map sum_of objects.old.keys)
        (sum_of object.now)) }
{
    if objects.get_index_of(object).is_none() {
        objects.insert(object.copy(alloc)?)?;
    }
    Ok(())
}

// Adds the objects in a term.
fn add_objects(alloc: Global, term: &Term, objects: &mut IndexSet<Term>) -> Result<(), AllocError>
    ensures { OnOk result (map sum_of objects.new.keys ≡ objects_of (map sum_of objects.old.keys)
        (sum_of term.now)) }
{
    match term {
        Term::Whole(_) | Term::Var(_) => Ok(()),
        Term::Neg(a) => add_objects(alloc, a, objects),
        Term::Add(a, b) | Term::Sub(a, b) | Term::Mul(a, b) | Term::Div(a, b) | Term::Mod(a, b) => {
            add_objects(alloc, a, objects)?;
            add_objects(alloc, b, objects)
        }
        Term::Length(a) | Term::Measure(_, a) => add_object(alloc, a, objects),
    }
}

// Adds the objects in a leaf.
fn add_leaf_objects(
    alloc: Global,
    pred: &Pred,
    objects: &mut IndexSet<Term>,
) -> Result<(), AllocError>
    ensures { OnOk result (map sum_of objects.new.keys ≡ objects_with (map sum_of objects.old.keys)
        (formula_of pred.now)) }
{
    match pred {
        Pred::Compare(_, a, b) => {
            add_objects(alloc, a, objects)?;
            add_objects(alloc, b, objects)
        }
        Pred::Same(a, b) => {
            add_object(alloc, a, objects)?;
            add_object(alloc, b, objects)
        }
        _ => Ok(()),
    }
}

/// The objects of an implication.
pub fn objects(alloc: Global, implication: &Closed) -> Result<IndexSet<Term>, AllocError>
    ensures { IfOk result (λ objects. map sum_of objects.keys ≡ objects_in (implication_of implication.now)) }
{
    let leaves = leaves_of(alloc, implication)?;
    let mut objects = IndexSet::new(alloc);
    for leaf in &leaves {
        add_leaf_objects(alloc, leaf.pred, &mut objects)?;
    }
    Ok(objects)
}

// Whether a term is a product, a quotient, a remainder, a length or a measure.
pub(crate) fn is_application(term: &Term) -> bool
    ensures { result ≡ is_application (sum_of term.now) }
{
    match term {
        Term::Mul(_, _)
        | Term::Div(_, _)
        | Term::Mod(_, _)
        | Term::Length(_)
        | Term::Measure(_, _) => true,
        Term::Whole(_) | Term::Var(_) | Term::Neg(_) | Term::Add(_, _) | Term::Sub(_, _) => false,
    }
}

// Adds the number of a term that is an application.
fn add_number(term: &Term, at: u64, numbers: &mut Vec<u64>) -> Result<(), AllocError>
    ensures { OnOk result (numbers.new.items ≡ numbers.old.items
        ++ (if is_application (sum_of term.now) then at ∷ [] else [])) }
{
    if is_application(term) {
        numbers.push(at)?;
    }
    Ok(())
}

/// The numbers of the terms that are applications, in their order.
pub fn applications(alloc: Global, terms: &TermTable) -> Result<Vec<u64>, AllocError>
    ensures { IfOk result (λ numbers. numbers.items ≡ places_from 0 (terms_of terms.now)) }
{
    let mut numbers = Vec::new(alloc);
    for at in 0..terms.len() {
        add_number(terms.term(at), at, &mut numbers)?;
    }
    Ok(numbers)
}
