// Numbers for the variables of each definition: from 0, as they first appear.
ghost use Rattle.std.specs.Prelude.{◌≡◌, ℕ, ◌+◌, ◌<◌, ◌≤◌, [], ◌∷◌, ◌++◌, List, Option, map, reverse, length, All, IfOk, IfSome, OnOk};
ghost use Rattle.lq_types_rules.specs.Visits.Laws.{slot_count, OwnSlots};
ghost use Rattle.lq_base_names.specs.declared.name.Binder.{Binder};
ghost use Rattle.lq_text_walk.specs.Scoped.Numbers.{binders_at};
ghost use Rattle.lq_text_walk.specs.Scoped.Whole.{scoped_view};
ghost use Rattle.lq_text_tree.specs.Items.{ItemTree, items_view, item_form_view};
ghost use Rattle.lq_text_tree.specs.MlType.{MlType};
ghost use Rattle.lq_text_tree.specs.Pattern.{bound_in, bound_in_form, bound_in_all};
ghost use Rattle.lq_text_tree.specs.PatternView.{pat_view, pat_form_view, pats_view};
ghost use Rattle.lq_types_table.specs.Seen.{node_type};
ghost use Rattle.lq_types_table.specs.Whole.{types_of};
ghost use Rattle.lq_types_rules.specs.Typings.Fronts.{left_at};
ghost use Rattle.lq_types_rules.specs.Typings.Principal.{node_count, is_open, own_node, in_order};
ghost use Rattle.lq_text_walk.specs.Walk.Pending.{visit_view};
ghost use Rattle.lq_types_infer.specs.Annotation.Laws.{AreVariablesApart};
ghost use Rattle.lq_types_infer.specs.Annotation.Naming.{names_in, NumbersItem};
ghost use Rattle.lq_types_infer.specs.Annotation.Numbering.{behind_items, number_in, value_or_zero, variable_in, AreUnnamed};
ghost use Rattle.lq_types_infer.specs.Annotation.Slots.{slot_types, AreRows};

use lq_text_tree::{Binder, Item, ItemNode, Pat, PatNode, Pats};
use lq_text_walk::scoped::Scoped;
use lq_text_walk::walk::{Visit, Walk};
use lq_types_rules::visits::scoped_items_own_slots;
use lq_types_table::{TypeNode, TypeTable};
use std::alloc::{AllocError, Global};

/// The numbers of variables so far.
#[derive(Drop)]
pub(crate) struct Naming {
    names: Vec<Option<u32>>,
    // how many variables of the definition have a number
    next: u32,
    // the types of which each variable has a number
    done: Vec<bool>,
}

// Room for so many variables, or more.
fn widen(names: &mut Vec<Option<u32>>, count: usize) -> Result<(), AllocError>
    ensures long { OnOk result (count ≤ length names.new.items) }
    ensures longer { OnOk result (length names.old.items ≤ length names.new.items) }
    ensures same { OnOk result ((v : ℕ) → number_in names.new.items v ≡ number_in names.old.items v) }
{
    for _ in names.len()..count {
        names.push(None)?;
    }
    Ok(())
}

// The variable that a type is, if it is one.
fn variable_in(node: TypeNode<'_>) -> Option<u32>
    ensures { (all : List MlType) → result ≡ variable_in (node_type all node.entry) }
{
    match node {
        TypeNode::Var(variable) => Some(variable),
        TypeNode::Int | TypeNode::Bool | TypeNode::Unit => None,
        TypeNode::Arrow(_, _) => None,
        TypeNode::Tuple(_) => None,
        TypeNode::Array(_) => None,
        TypeNode::Named(_, _) => None,
        TypeNode::Map(_) => None,
    }
}

// How many variables there are, where this one is among them.
fn count_with(variable: Option<u32>) -> usize
    ensures { IfSome variable (λ v. v < result) }
{
    match variable {
        Some(variable) => variable as usize + 1,
        None => 0,
    }
}

// Puts types before what is still to be walked.
fn push_parts(pending: &mut Vec<u32>, parts: &[u32]) -> Result<(), AllocError>
    ensures { OnOk result (reverse pending.new.items ≡ parts.now ++ reverse pending.old.items) }
{
    let mut left = parts.len();
    while left > 0 {
        left -= 1;
        pending.push(parts[left])?;
    }
    Ok(())
}

impl Naming {
    ghost use Rattle.std.specs.Prelude.{◌≡◌, ◌+◌, ◌<◌, ◌++◌, map, reverse, length, All, IfOk, OnOk};
    ghost use Rattle.lq_types_rules.specs.Constructors.Tasks.{size_of};
    ghost use Rattle.lq_types_table.specs.Nodes.{at};
    ghost use Rattle.lq_types_table.specs.Whole.{types_of};
    ghost use Rattle.lq_types_rules.specs.Typings.Principal.{is_open, variables_of, variables_at};
    ghost use Rattle.lq_types_infer.specs.Annotation.Numbering.{numbers_from_zero, numbers_of, with_number, with_numbers};
    ghost use Rattle.lq_types_infer.specs.Annotation.Numbering.{coming, work, AreUnnamed, HasRoom, IsNaming};
    ghost use Rattle.lq_types_infer.specs.Annotation.Slots.{slot_types};

    // No variable has a number.
    fn new(alloc: Global, table: &TypeTable) -> Result<Naming, AllocError>
        ensures unnamed { IfOk result (λ n. AreUnnamed (types_of table.now) n.names.items) }
        ensures naming { IfOk result (IsNaming (types_of table.now)) }
    {
        let mut names = Vec::new(alloc);
        let mut done = Vec::new(alloc);
        for row in 0..table.len() as u32 {
            done.push(false)?;
            widen(&mut names, count_with(variable_in(table.node(row))))?;
        }
        Ok(Naming {
            names,
            next: 0,
            done,
        })
    }

    // Gives the next number to a variable that has none.
    fn name(&mut self, variable: u32) -> Result<(), AllocError>
        requires { variable < length self.old.names.items }
        ensures numbers { OnOk result (numbers_of self.new ≡ with_number (numbers_of self.old) variable) }
        ensures done { OnOk result (self.new.done ≡ self.old.done) }
    {
        if self.names[variable as usize].is_none() {
            if self.next == u32::MAX {
                return Err(AllocError);
            }
            self.names[variable as usize] = Some(self.next);
            self.next += 1;
        }
        Ok(())
    }

    // Names a type that is a variable, or puts its parts before what is still to be walked.
    fn enter(
        &mut self,
        table: &TypeTable,
        row: u32,
        pending: &mut Vec<u32>,
    ) -> Result<(), AllocError>
        requires row { row < length (types_of table.now) }
        requires inside { All (λ p. p < length (types_of table.now)) (reverse pending.old.items) }
        requires room { HasRoom (types_of table.now) self.old }
        ensures numbers { OnOk result (with_numbers (numbers_of self.new)
            (coming (types_of table.now) pending.new.items) ≡ with_numbers (numbers_of self.old)
            (variables_of (at (types_of table.now) row) ++ coming (types_of table.now) pending.old.items)) }
        ensures smaller { OnOk result (work (types_of table.now) pending.new.items
            < size_of (at (types_of table.now) row) + work (types_of table.now) pending.old.items) }
        ensures inside { OnOk result (All (λ p. p < length (types_of table.now)) (reverse pending.new.items)) }
        ensures room { OnOk result (length self.new.names.items ≡ length self.old.names.items) }
        ensures done { OnOk result (self.new.done ≡ self.old.done) }
    {
        match variable_in(table.node(row)) {
            Some(variable) => self.name(variable),
            None => push_parts(pending, table.parts(row)),
        }
    }

    // Gives numbers to the variables of a type, from left to right.
    fn name_type(&mut self, alloc: Global, table: &TypeTable, row: u32) -> Result<(), AllocError>
        requires row { row < length (types_of table.now) }
        requires room { HasRoom (types_of table.now) self.old }
        ensures numbers { OnOk result (numbers_of self.new ≡ with_numbers (numbers_of self.old)
            (variables_of (at (types_of table.now) row))) }
        ensures done { OnOk result (self.new.done ≡ self.old.done) }
    {
        let mut pending = Vec::new(alloc);
        pending.push(row)?;
        while let Some(next) = pending.pop() {
            self.enter(table, next, &mut pending)?;
        }
        Ok(())
    }

    // The same, unless each of them has one, or there are none.
    fn name_slot(
        &mut self,
        alloc: Global,
        table: &TypeTable,
        open: &[bool],
        row: u32,
    ) -> Result<(), AllocError>
        requires row { row < length (types_of table.now) }
        requires open { open.now ≡ map is_open (types_of table.now) }
        requires naming { IsNaming (types_of table.now) self.old }
        ensures numbers { OnOk result (numbers_of self.new ≡ with_numbers (numbers_of self.old)
            (variables_of (at (types_of table.now) row))) }
        ensures naming { OnOk result (IsNaming (types_of table.now) self.new) }
    {
        if !open[row as usize] {
            return Ok(());
        }
        if self.done[row as usize] {
            return Ok(());
        }
        self.name_type(alloc, table, row)?;
        self.done[row as usize] = true;
        Ok(())
    }

    // The same of a definition's slots, from 0.
    fn name_item(
        &mut self,
        alloc: Global,
        table: &TypeTable,
        open: &[bool],
        rows: &[u32],
        slots: &[usize],
    ) -> Result<(), AllocError>
        requires open { open.now ≡ map is_open (types_of table.now) }
        requires rows { All (λ r. r < length (types_of table.now)) rows.now }
        requires slots { All (λ k. k < length rows.now) slots.now }
        requires naming { IsNaming (types_of table.now) self.old }
        ensures names { OnOk result (self.new.names.items ≡ (with_numbers
            (numbers_from_zero self.old.names.items)
            (variables_at (slot_types (types_of table.now) rows.now) slots.now)).names) }
        ensures naming { OnOk result (IsNaming (types_of table.now) self.new) }
    {
        self.next = 0;
        for slot in slots {
            self.name_slot(alloc, table, open, rows[*slot])?;
        }
        Ok(())
    }
}

// The slot of a definition's own type.
fn push_own(slots: &mut Vec<usize>, item: &ItemNode<Binder>) -> Result<(), AllocError>
    ensures { OnOk result (slots.new.items ≡ slots.old.items
        ++ own_node (item_form_view Binder (λ b. b.0) item.now)) }
{
    match item {
        ItemNode::Type(_) => Ok(()),
        ItemNode::Let(_, expr) => {
            slots.push(expr.id as usize)?;
            Ok(())
        }
        ItemNode::LetRec(_, function) => {
            slots.push(function.id as usize)?;
            Ok(())
        }
    }
}

// The slot of the node that is left, if one is.
fn push_left(slots: &mut Vec<usize>, visit: Visit<'_, Binder>) -> Result<(), AllocError>
    ensures { OnOk result (slots.new.items ≡ slots.old.items
        ++ left_at (visit_view Binder (λ b. b.0) visit.entry)) }
{
    match visit {
        Visit::Leave(node) => {
            slots.push(node.id as usize)?;
            Ok(())
        }
        Visit::LeaveFunction(function) => {
            slots.push(function.id as usize)?;
            Ok(())
        }
        _ => Ok(()),
    }
}

// The slots of the binders that stand here, where so many nodes come before them.
fn push_bound(
    slots: &mut Vec<usize>,
    nodes: u32,
    visit: Visit<'_, Binder>,
) -> Result<(), AllocError>
    ensures { OnOk result (slots.new.items ≡ slots.old.items
        ++ map (λ x. nodes + x) (binders_at (visit_view Binder (λ b. b.0) visit.entry))) }
{
    match visit {
        Visit::Declare(pattern) => push_binders(slots, nodes, pattern),
        Visit::ShowName(name) => {
            slots.push(nodes as usize + name.0 as usize)?;
            Ok(())
        }
        _ => Ok(()),
    }
}

// The slots of binders that a pattern binds, from left to right.
#[cycle(binders)]
fn push_binders(slots: &mut Vec<usize>, nodes: u32, pattern: &Pat<Binder>) -> Result<(), AllocError>
    ensures { OnOk result (slots.new.items ≡ slots.old.items
        ++ map (λ x. nodes + x) (bound_in (pat_view Binder (λ b. b.0) pattern.now))) }
{
    push_form(slots, nodes, &pattern.node)
}

#[cycle(binders)]
fn push_form(slots: &mut Vec<usize>, nodes: u32, form: &PatNode<Binder>) -> Result<(), AllocError>
    ensures { OnOk result (slots.new.items ≡ slots.old.items
        ++ map (λ x. nodes + x) (bound_in_form (pat_form_view Binder (λ b. b.0) form.now))) }
{
    match form {
        PatNode::Any | PatNode::Unit => Ok(()),
        PatNode::Bind(binder) => {
            slots.push(nodes as usize + binder.0 as usize)?;
            Ok(())
        }
        PatNode::Tuple(row) => push_row(slots, nodes, row),
        PatNode::Build(_, _, row) => push_row(slots, nodes, row),
    }
}

#[cycle(binders)]
fn push_row(slots: &mut Vec<usize>, nodes: u32, row: &Pats<Binder>) -> Result<(), AllocError>
    ensures { OnOk result (slots.new.items ≡ slots.old.items
        ++ map (λ x. nodes + x) (bound_in_all (pats_view Binder (λ b. b.0) row.now))) }
{
    for at in 0..row.len() {
        if let Some(pattern) = row.get(at) {
            push_binders(slots, nodes, pattern)?;
        }
    }
    Ok(())
}

// The slots of one definition: that of its own type, those of its nodes, those of its binders.
fn slots_of(alloc: Global, nodes: u32, one: &[Item<Binder>]) -> Result<Vec<usize>, AllocError>
    requires { length one.now ≡ 1 }
    ensures { IfOk result (λ ks. (i : ItemTree) → items_view Binder (λ b. b.0) one.now ≡ i ∷ []
        → ks.items ≡ in_order nodes i) }
{
    let mut slots = Vec::new(alloc);
    let mut binders = Vec::new(alloc);
    push_own(&mut slots, &one[0].node)?;
    let mut walk = Walk::of_items(alloc, one)?;
    while let Some(visit) = walk.next()? {
        push_left(&mut slots, visit)?;
        push_bound(&mut binders, nodes, visit)?;
    }
    slots.extend_from_slice(&binders)?;
    Ok(slots)
}

/// The numbers of a program's variables, where it has so many nodes and these are the types of its slots.
fn names_of(
    alloc: Global,
    program: &Scoped,
    nodes: u32,
    table: &TypeTable,
    open: &[bool],
    rows: &[u32],
) -> Result<Vec<Option<u32>>, AllocError>
    requires open { open.now ≡ map is_open (types_of table.now) }
    requires rows { AreRows (types_of table.now) rows.now (slot_count (scoped_view program.now)) }
    requires nodes { nodes ≡ node_count (scoped_view program.now) }
    ensures { IfOk result (λ ns. (first : List (Option ℕ)) × AreUnnamed (types_of table.now) first × (ns.items
        ≡ behind_items (node_count (scoped_view program.now)) (slot_types (types_of table.now) rows.now) first
        (scoped_view program.now).items)) }
{
    scoped_items_own_slots();
    let mut naming = Naming::new(alloc, table)?;
    let items = program.items();
    for at in 0..items.len() {
        let slots = slots_of(alloc, nodes, &items[at..at + 1])?;
        naming.name_item(alloc, table, open, rows, &slots)?;
    }
    Ok(naming.names)
}

// The numbers themselves; 0 stands for one that isn't there.
fn values_of(alloc: Global, names: &[Option<u32>]) -> Result<Vec<u32>, AllocError>
    ensures { IfOk result (λ ns. ns.items ≡ map value_or_zero names.now) }
{
    let mut values = Vec::new(alloc);
    for name in names {
        values.push(match *name {
            Some(value) => value,
            None => 0,
        })?;
    }
    Ok(values)
}

/// The numbers of a program's variables, where it has so many nodes and these are the types of its slots. Of each type of the table
/// it is told whether a variable stands in it.
pub(crate) fn numbers_of(
    alloc: Global,
    program: &Scoped,
    nodes: u32,
    table: &TypeTable,
    open: &[bool],
    rows: &[u32],
) -> Result<Vec<u32>, AllocError>
    requires open { open.now ≡ map is_open (types_of table.now) }
    requires rows { AreRows (types_of table.now) rows.now (slot_count (scoped_view program.now)) }
    requires nodes { nodes ≡ node_count (scoped_view program.now) }
    requires apart { (owner : ℕ → ℕ) → OwnSlots (node_count (scoped_view program.now))
        (slot_count (scoped_view program.now)) owner 0 (scoped_view program.now).items
        → AreVariablesApart (scoped_view program.now) (slot_types (types_of table.now) rows.now) owner }
    ensures { IfOk result (λ ns. All (NumbersItem (node_count (scoped_view program.now))
        (slot_types (types_of table.now) rows.now) (names_in ns.items)) (scoped_view program.now).items) }
{
    scoped_items_own_slots();
    let names = names_of(alloc, program, nodes, table, open, rows)?;
    values_of(alloc, &names)
}
