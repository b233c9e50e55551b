// What has been read and isn't yet part of a larger value.
ghost use Rattle.std.specs.Prelude.{◌≡◌, ◌∷◌, OnOk, IfOk, Err, IfErr};
ghost use Rattle.lq_text_tree.specs.PatternView.{pat_view};
ghost use Rattle.lq_text_tree.specs.PredView.{pred_view};
ghost use Rattle.lq_text_tree.specs.TreeView.{parsed_view};
ghost use Rattle.lq_text_tree.specs.TypeView.{type_view};
ghost use Rattle.lq_text_actions.specs.Value.{mark, named, recursive, expression, expressions, pattern_read, patterns, type_read, types, predicate};
ghost use Rattle.lq_text_actions.specs.Tops.{NoExpression, NoMark, NoName, NoPattern, NoPatterns, NoPredicate, NoRecursive, NoRow, NoTwo, NoType, NoTypes};
ghost use Rattle.lq_text_actions.specs.Views.{views, value_view, commas_view, parsed_pattern, parsed_function, rows_view, pattern_rows_view, type_rows_view};
ghost use Rattle.lq_text_actions.specs.declared.values.MakeError.TheVariants.{Misfit};

use lq_base_names::{Name, Place};
use lq_text_tree::{
    Arms, Constructor, Equation, Expr, Exprs, Function, Item, Measure, Pat, Pats, PredExpr,
    Qualifier, TypeExpr, TypeExprs, TypeParameter,
};
use std::alloc::{AllocError, AllocFailed};

/// What a token has for actions beside its place.
#[derive(Clone, Copy)]
pub enum Content {
    Name(Name),
    Number(u128),
    Neither,
}

/// A token as actions see it.
#[derive(Clone, Copy)]
pub struct Lexeme {
    pub place: Place,
    pub content: Content,
}

impl Lexeme {
    ghost use Rattle.std.specs.Prelude.{◌≡◌, IfOk, IfErr, ℕ};
    ghost use Rattle.lq_text_actions.specs.Value.{some_name, some_number};
    ghost use Rattle.lq_text_actions.specs.Views.{lexeme_view};

    // Its name.
    pub(crate) fn name(&self) -> Result<Name, MakeError>
        ensures ok { IfOk result (λ x. (lexeme_view self.now).content ≡ some_name x.0) }
        ensures misfit { IfErr result (λ _. (x : ℕ) → (lexeme_view self.now).content ≡ some_name x → ⊥) }
    {
        match self.content {
            Content::Name(name) => Ok(name),
            Content::Number(_) | Content::Neither => Err(MakeError::Misfit),
        }
    }

    // Its number.
    pub(crate) fn number(&self) -> Result<u128, MakeError>
        ensures ok { IfOk result (λ v. (lexeme_view self.now).content ≡ some_number v) }
        ensures misfit { IfErr result (λ _. (v : ℕ) → (lexeme_view self.now).content ≡ some_number v → ⊥) }
    {
        match self.content {
            Content::Number(value) => Ok(value),
            Content::Name(_) | Content::Neither => Err(MakeError::Misfit),
        }
    }
}

/// Where the commas of an expression stand.
#[derive(Clone, Copy)]
pub enum Commas {
    /// It is a tuple without parentheses around it.
    Bare,
    /// It is such a tuple directly in parentheses.
    Enclosed,
    Absent,
}

/// An expression that has been read, with the place of its first token, parentheses among the tokens.
#[derive(Drop)]
pub struct Parsed {
    pub tree: Box<Expr<Name>>,
    pub place: Place,
    pub commas: Commas,
}

/// What has been read and isn't yet part of a larger value. A row has the place at which it begins.
#[derive(Drop)]
pub enum Value {
    Mark(Place),
    Named(Name, Place),
    Expression(Parsed),
    Expressions(Exprs<Name>, Place),
    /// An array and an index, before it is known whether an element is read or written.
    Element(Box<Expr<Name>>, Box<Expr<Name>>, Place),
    Arms(Arms<Name>),
    Recursive(Name, Function<Name>),
    Pattern(Pat<Name>),
    Patterns(Pats<Name>, Place),
    Type(TypeExpr, Place),
    Types(TypeExprs, Place),
    Parameters(Vec<TypeParameter>),
    Constructors(Vec<Constructor>),
    Items(Vec<Item<Name>>),
    Predicate(Box<PredExpr>, Place),
    Qualifiers(Vec<Qualifier>),
    Equations(Vec<Equation>),
    Measures(Vec<Measure>),
}

/// Why an action made nothing: the values on top are others than it needs, or memory is out.
#[derive(Clone, Copy, Debug, PartialEq, Eq)]
pub enum MakeError {
    Misfit,
    Memory,
}

impl From<AllocError> for MakeError {
    ghost use Rattle.std.specs.Prelude.{◌≡◌};
    ghost use Rattle.lq_text_actions.specs.declared.values.MakeError.TheVariants.{Memory};

    ghost from_gives = { λ _ e. e ≡ Memory };

    fn from(_: AllocError) -> Self {
        MakeError::Memory
    }
}

impl<T: Drop> From<AllocFailed<T>> for MakeError {
    ghost use Rattle.std.specs.Prelude.{◌≡◌};
    ghost use Rattle.lq_text_actions.specs.declared.values.MakeError.TheVariants.{Memory};

    ghost from_gives = { λ _ e. e ≡ Memory };

    fn from(_: AllocFailed<T>) -> Self {
        MakeError::Memory
    }
}

pub(crate) fn push(values: &mut Vec<Value>, value: Value) -> Result<(), MakeError>
    ensures ok { OnOk result (views values.new.items ≡ value_view value ∷ views values.old.items) }
    ensures never { result ≡ Err Misfit → ⊥ }
{
    values.push(value)?;
    Ok(())
}

pub(crate) fn pop_mark(values: &mut Vec<Value>) -> Result<Place, MakeError>
    ensures ok { IfOk result (λ p. views values.old.items ≡ mark p ∷ views values.new.items) }
    ensures misfit { IfErr result (λ _. NoMark (views values.old.items)) }
{
    match values.pop() {
        Some(Value::Mark(place)) => Ok(place),
        _ => Err(MakeError::Misfit),
    }
}

pub(crate) fn pop_named(values: &mut Vec<Value>) -> Result<(Name, Place), MakeError>
    ensures ok { IfOk result (λ x. views values.old.items ≡ named x.0.0 x.1 ∷ views values.new.items) }
    ensures misfit { IfErr result (λ _. NoName (views values.old.items)) }
{
    match values.pop() {
        Some(Value::Named(name, place)) => Ok((name, place)),
        _ => Err(MakeError::Misfit),
    }
}

pub(crate) fn pop_expression(values: &mut Vec<Value>) -> Result<Parsed, MakeError>
    ensures ok { IfOk result (λ e. views values.old.items ≡ expression (parsed_view e.tree.value) e.place
        (commas_view e.commas) ∷ views values.new.items) }
    ensures misfit { IfErr result (λ _. NoExpression (views values.old.items)) }
{
    match values.pop() {
        Some(Value::Expression(parsed)) => Ok(parsed),
        _ => Err(MakeError::Misfit),
    }
}

/// Two expressions, the one on top last.
pub(crate) fn pop_two(values: &mut Vec<Value>) -> Result<(Parsed, Parsed), MakeError>
    ensures ok { IfOk result (λ e. views values.old.items
        ≡ expression (parsed_view e.1.tree.value) e.1.place (commas_view e.1.commas)
        ∷ expression (parsed_view e.0.tree.value) e.0.place (commas_view e.0.commas)
        ∷ views values.new.items) }
    ensures misfit { IfErr result (λ _. NoTwo (views values.old.items)) }
{
    let second = pop_expression(values)?;
    let first = pop_expression(values)?;
    Ok((first, second))
}

pub(crate) fn pop_row(values: &mut Vec<Value>) -> Result<(Exprs<Name>, Place), MakeError>
    ensures ok { IfOk result (λ es. views values.old.items ≡ expressions (rows_view es.0) es.1
        ∷ views values.new.items) }
    ensures misfit { IfErr result (λ _. NoRow (views values.old.items)) }
{
    match values.pop() {
        Some(Value::Expressions(row, place)) => Ok((row, place)),
        _ => Err(MakeError::Misfit),
    }
}

pub(crate) fn pop_pattern(values: &mut Vec<Value>) -> Result<Pat<Name>, MakeError>
    ensures ok { IfOk result (λ p. views values.old.items ≡ pattern_read (parsed_pattern p)
        ∷ views values.new.items) }
    ensures misfit { IfErr result (λ _. NoPattern (views values.old.items)) }
{
    match values.pop() {
        Some(Value::Pattern(pattern)) => Ok(pattern),
        _ => Err(MakeError::Misfit),
    }
}

pub(crate) fn pop_patterns(values: &mut Vec<Value>) -> Result<(Pats<Name>, Place), MakeError>
    ensures ok { IfOk result (λ ps. views values.old.items ≡ patterns (pattern_rows_view ps.0) ps.1
        ∷ views values.new.items) }
    ensures misfit { IfErr result (λ _. NoPatterns (views values.old.items)) }
{
    match values.pop() {
        Some(Value::Patterns(row, place)) => Ok((row, place)),
        _ => Err(MakeError::Misfit),
    }
}

pub(crate) fn pop_type(values: &mut Vec<Value>) -> Result<(TypeExpr, Place), MakeError>
    ensures ok { IfOk result (λ t. views values.old.items ≡ type_read (type_view t.0) t.1
        ∷ views values.new.items) }
    ensures misfit { IfErr result (λ _. NoType (views values.old.items)) }
{
    match values.pop() {
        Some(Value::Type(read, place)) => Ok((read, place)),
        _ => Err(MakeError::Misfit),
    }
}

pub(crate) fn pop_types(values: &mut Vec<Value>) -> Result<(TypeExprs, Place), MakeError>
    ensures ok { IfOk result (λ ts. views values.old.items ≡ types (type_rows_view ts.0) ts.1
        ∷ views values.new.items) }
    ensures misfit { IfErr result (λ _. NoTypes (views values.old.items)) }
{
    match values.pop() {
        Some(Value::Types(row, place)) => Ok((row, place)),
        _ => Err(MakeError::Misfit),
    }
}

pub(crate) fn pop_predicate(values: &mut Vec<Value>) -> Result<(Box<PredExpr>, Place), MakeError>
    ensures ok { IfOk result (λ e. views values.old.items ≡ predicate (pred_view e.0.value) e.1
        ∷ views values.new.items) }
    ensures misfit { IfErr result (λ _. NoPredicate (views values.old.items)) }
{
    match values.pop() {
        Some(Value::Predicate(read, place)) => Ok((read, place)),
        _ => Err(MakeError::Misfit),
    }
}

pub(crate) fn pop_recursive(values: &mut Vec<Value>) -> Result<(Name, Function<Name>), MakeError>
    ensures ok { IfOk result (λ f. views values.old.items ≡ recursive f.0.0 (parsed_function f.1)
        ∷ views values.new.items) }
    ensures misfit { IfErr result (λ _. NoRecursive (views values.old.items)) }
{
    match values.pop() {
        Some(Value::Recursive(name, function)) => Ok((name, function)),
        _ => Err(MakeError::Misfit),
    }
}
