// Templates of big types that are taken again and again. From the second time on they are copies of a pattern, which is the template in the
// scope of the mark alone with unknowns from 0 on.
ghost use Rattle.std.specs.Prelude.{◌≡◌, ◌<◌, [], ◌∷◌, ◌++◌, All, Contains, IfOk, IfSome, OnOk, length};
ghost use Rattle.lq_generate_fresh.specs.Fresh.Patterns.{ArePatterns, IsPattern};
ghost use Rattle.lq_generate_fresh.specs.Fresh.Views.{scope_at, scopes_of, unknowns_of, IsMade};
ghost use Rattle.lq_generate_fresh.specs.Fresh.Walking.{arguments_wanted, template_wanted, AreTemplates, IsTemplate};
ghost use Rattle.lq_types_table.specs.Heads.{each};
ghost use Rattle.lq_types_table.specs.Nodes.{at as type_at};
ghost use Rattle.lq_types_table.specs.Whole.{types_of};

use crate::copies::{templates_complete, templates_renumber};
use crate::fresh::simple::Given;
use crate::fresh::templates::Templates;
use lq_logic_predicates::Symbol;
use lq_refined_copies::SharedUnknowns;
use lq_refined_instances::{Scopes, Visible};
use lq_refined_subtyping::table::{Change, RefinedTypes};
use lq_text_qualifiers::sorting::Shape;
use lq_types_table::TypeTable;
use std::alloc::{AllocError, Global};
use std::mem;

// Below so many nodes a template is as good as a copy.
const SMALL: u64 = 16;

// How often the template of a type was taken; of one that was taken often the place of its pattern.
#[derive(Clone, Copy, Debug)]
enum Taken {
    // So small a type has no pattern.
    Small,
    Never,
    Once,
    Often(usize),
}

// A pattern: the number of its simple type, that of its template in the table of refined types, and that of its unknowns.
#[derive(Clone, Copy, Debug)]
pub(crate) struct Pattern {
    pub(crate) at: u32,
    pub(crate) row: usize,
    pub(crate) number: u64,
}

// The patterns that were made, and how often the template of each type was taken.
#[derive(Drop)]
pub(crate) struct Patterns {
    taken: Vec<Taken>,
    made: Vec<Pattern>,
}

// How many nodes a type over these parts has as a tree, up to 2^64 - 1.
fn size_over(sizes: &[u64], parts: &[u32]) -> u64 {
    let mut size: u64 = 1;
    for part in parts {
        if let Some(one) = sizes.get(*part as usize) {
            size = size.saturating_add(*one);
        }
    }
    size
}

// How many nodes each type has as a tree, up to 2^64 - 1.
fn sizes_of(alloc: Global, types: &TypeTable) -> Result<Vec<u64>, AllocError> {
    let mut sizes = Vec::new(alloc);
    for at in 0..types.len() {
        let parts = types.parts(at as u32);
        let size = size_over(sizes.as_slice(), parts);
        sizes.push(size)?;
    }
    Ok(sizes)
}

impl Patterns {
    // None yet, for the types of a table.
    pub(crate) fn new(alloc: Global, types: &TypeTable) -> Result<Patterns, AllocError>
        ensures { IfOk result (λ patterns. patterns.made.items ≡ []) }
    {
        let sizes = sizes_of(alloc, types)?;
        let mut taken = Vec::new(alloc);
        for size in &sizes {
            let first = if *size < SMALL {
                Taken::Small
            } else {
                Taken::Never
            };
            taken.push(first)?;
        }
        Ok(Patterns {
            taken,
            made: Vec::new(alloc),
        })
    }

    // The pattern of a type, where one is made.
    fn of(&self, at: u32) -> Option<Pattern>
        ensures is { IfSome result (λ p. p.at ≡ at) }
        ensures made { IfSome result (λ p. Contains self.now.made.items p) }
    {
        let Some(Taken::Often(place)) = self.taken.get(at as usize) else {
            return None;
        };
        let Some(pattern) = self.made.get(*place) else {
            return None;
        };
        if pattern.at != at {
            return None;
        }
        Some(*pattern)
    }

    // Whether the template of a big type was taken before. From now on it was.
    fn is_taken_again(&mut self, at: u32) -> bool
        ensures { self.new.made ≡ self.old.made }
    {
        let place = at as usize;
        if place >= self.taken.len() {
            return false;
        }
        match self.taken[place] {
            Taken::Small => false,
            Taken::Never => {
                self.taken[place] = Taken::Once;
                false
            }
            Taken::Once | Taken::Often(_) => true,
        }
    }

    // One pattern more.
    fn add(&mut self, pattern: Pattern) -> Result<(), AllocError>
        ensures { OnOk result (self.new.made.items ≡ self.old.made.items ++ pattern ∷ []) }
    {
        let place = self.made.len();
        self.made.push(pattern)?;
        let at = pattern.at as usize;
        if at < self.taken.len() {
            self.taken[at] = Taken::Often(place);
        }
        Ok(())
    }
}

// The pattern of a type. Where there is no memory for it nothing of the types is left.
fn pattern_of(
    alloc: Global,
    templates: &mut Templates,
    given: &Given<'_>,
    at: u32,
) -> Result<Pattern, AllocError>
    requires { at < length (types_of given.now.types.now) }
    ensures is { IfOk result (λ p. p.at ≡ at) }
    ensures pattern { IfOk result (λ p. IsPattern given.now.datatypes.now (types_of given.now.types.now) templates.new p) }
    ensures made { OnOk result (IsMade templates.old templates.new []) }
{
    let mut scopes = Scopes::new(alloc)?;
    let mark = Visible {
        symbol: Symbol::Value,
        shape: Shape::Int,
    };
    let marked = scopes.add(0, mark)?;
    let types = mem::replace(&mut templates.types, RefinedTypes::new(alloc));
    let mut alone = Templates {
        types,
        unknowns: SharedUnknowns::over(alloc, scopes),
    };
    let row = alone.fresh(alloc, given, at, &[], marked)?;
    let (types, unknowns) = alone.into_parts();
    templates.types = types;
    let unknowns = unknowns.flat(alloc)?;
    let number = templates.unknowns.add_pattern(unknowns)?;
    Ok(Pattern { at, row, number })
}

// The fresh template of a type in a scope, as a copy of its pattern.
fn copied(
    templates: &mut Templates,
    given: &Given<'_>,
    pattern: Pattern,
    scope: u64,
) -> Result<usize, AllocError>
    requires pattern { IsPattern given.now.datatypes.now (types_of given.now.types.now) templates.old pattern }
    requires scope { scope < length (scopes_of templates.old) }
    ensures { IfOk result (λ r. IsTemplate given.now.datatypes.now templates.old templates.new r
        (template_wanted (length (unknowns_of templates.old)) (scope_at templates.old scope) (scope_at templates.old scope) []
        (type_at (types_of given.now.types.now) pattern.at))) }
{
    let _given = given;
    templates_renumber();
    templates_complete();
    let first = templates.unknowns.add_copies(pattern.number, scope)?;
    let row = templates
        .types
        .delay(Change::Renumbered(first), pattern.row)?;
    Ok(row)
}

// The fresh template of a type in a scope, without names of arguments. Its unknowns come behind those that there are.
pub(crate) fn shared(
    alloc: Global,
    templates: &mut Templates,
    patterns: &mut Patterns,
    given: &Given<'_>,
    at: u32,
    scope: u64,
) -> Result<usize, AllocError>
    requires type_there { at < length (types_of given.now.types.now) }
    requires scope { scope < length (scopes_of templates.old) }
    requires patterns { ArePatterns given.now.datatypes.now (types_of given.now.types.now) templates.old patterns.old }
    ensures template { IfOk result (λ r. IsTemplate given.now.datatypes.now templates.old templates.new r
        (template_wanted (length (unknowns_of templates.old)) (scope_at templates.old scope) (scope_at templates.old scope) []
        (type_at (types_of given.now.types.now) at))) }
    ensures patterns { OnOk result (ArePatterns given.now.datatypes.now (types_of given.now.types.now) templates.new patterns.new) }
{
    if let Some(pattern) = patterns.of(at) {
        let row = copied(templates, given, pattern, scope)?;
        return Ok(row);
    }
    if !patterns.is_taken_again(at) {
        let row = templates.fresh(alloc, given, at, &[], scope)?;
        return Ok(row);
    }
    let pattern = pattern_of(alloc, templates, given, at)?;
    patterns.add(pattern)?;
    let row = copied(templates, given, pattern, scope)?;
    Ok(row)
}

// The fresh templates of types, each alone. Their unknowns come behind those that there are.
pub(crate) fn all_shared(
    alloc: Global,
    templates: &mut Templates,
    patterns: &mut Patterns,
    given: &Given<'_>,
    parts: &[u32],
    scope: u64,
) -> Result<Vec<usize>, AllocError>
    requires parts { All (λ p. p < length (types_of given.now.types.now)) parts.now }
    requires scope { scope < length (scopes_of templates.old) }
    requires patterns { ArePatterns given.now.datatypes.now (types_of given.now.types.now) templates.old patterns.old }
    ensures templates { IfOk result (λ made. AreTemplates given.now.datatypes.now templates.old templates.new made.items
        (arguments_wanted (length (unknowns_of templates.old)) (scope_at templates.old scope)
        (each (type_at (types_of given.now.types.now)) parts.now))) }
    ensures patterns { OnOk result (ArePatterns given.now.datatypes.now (types_of given.now.types.now) templates.new patterns.new) }
{
    let mut made = Vec::new(alloc);
    for at in 0..parts.len() {
        let row = shared(alloc, templates, patterns, given, parts[at], scope)?;
        made.push(row)?;
    }
    Ok(made)
}
