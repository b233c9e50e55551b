// What texts with their names bound are, as text.

use crate::sorts::told::{measures_of, program_of, quals_of, text_of};
use lq_base_names::{ArithOp, CompareOp, Name, NameTable, Place};
use lq_text_front::texts::{ResolveError, ScopedTexts, resolve};
use lq_text_qualifiers::sorting::{
    ScopedMeasure, ScopedPred, ScopedQualifier, ScopedTerm, Shape, Variable,
};
use std::alloc::{AllocError, Global};

fn variable_text(alloc: Global, variable: Variable) -> Result<String, AllocError> {
    match variable {
        Variable::Value => String::from_str(alloc, "v"),
        Variable::Field(number) => format!(in alloc; "f{number}"),
        Variable::Placeholder(number) => format!(in alloc; "p{number}"),
    }
}

fn arith_text(op: ArithOp) -> &'static str {
    match op {
        ArithOp::Add => "+",
        ArithOp::Sub => "-",
        ArithOp::Mul => "*",
        ArithOp::Div => "/",
        ArithOp::Mod => "mod",
    }
}

fn compare_text(op: CompareOp) -> &'static str {
    match op {
        CompareOp::Eq => "=",
        CompareOp::Ne => "<>",
        CompareOp::Lt => "<",
        CompareOp::Le => "<=",
        CompareOp::Gt => ">",
        CompareOp::Ge => ">=",
    }
}

fn term_text(alloc: Global, term: &ScopedTerm) -> Result<String, AllocError> {
    match term {
        ScopedTerm::Whole(n) => format!(in alloc; "{n}"),
        ScopedTerm::Var(variable) => variable_text(alloc, *variable),
        ScopedTerm::Length(variable) => {
            let of = variable_text(alloc, *variable)?;
            format!(in alloc; "length({of})")
        }
        ScopedTerm::Measure(number, variable) => {
            let of = variable_text(alloc, *variable)?;
            format!(in alloc; "m{number}({of})")
        }
        ScopedTerm::Arith(op, first, second) => {
            let first = term_text(alloc, first)?;
            let second = term_text(alloc, second)?;
            pair_text(alloc, first.as_str(), arith_text(*op), second.as_str())
        }
        ScopedTerm::Neg(part) => {
            let part = term_text(alloc, part)?;
            format!(in alloc; "-({part})")
        }
    }
}

// Two texts with an operator between them.
fn pair_text(
    alloc: Global,
    first: &str,
    between: &str,
    second: &str,
) -> Result<String, AllocError> {
    format!(in alloc; "({first} {between} {second})")
}

fn pred_text(alloc: Global, pred: &ScopedPred) -> Result<String, AllocError> {
    match pred {
        ScopedPred::Flag(b) => format!(in alloc; "{b}"),
        ScopedPred::Holds(variable) => variable_text(alloc, *variable),
        ScopedPred::Compare(op, first, second) => {
            let first = term_text(alloc, first)?;
            let second = term_text(alloc, second)?;
            pair_text(alloc, first.as_str(), compare_text(*op), second.as_str())
        }
        ScopedPred::Not(part) => {
            let part = pred_text(alloc, part)?;
            format!(in alloc; "not({part})")
        }
        ScopedPred::And(first, second) => {
            let first = pred_text(alloc, first)?;
            let second = pred_text(alloc, second)?;
            pair_text(alloc, first.as_str(), "&&", second.as_str())
        }
        ScopedPred::Or(first, second) => {
            let first = pred_text(alloc, first)?;
            let second = pred_text(alloc, second)?;
            pair_text(alloc, first.as_str(), "||", second.as_str())
        }
        ScopedPred::Iff(first, second) => {
            let first = pred_text(alloc, first)?;
            let second = pred_text(alloc, second)?;
            pair_text(alloc, first.as_str(), "<=>", second.as_str())
        }
    }
}

fn shape_text(names: &NameTable, shape: Shape) -> &str {
    match shape {
        Shape::Int => "int",
        Shape::Bool => "bool",
        Shape::Array => "array",
        Shape::Data(name) => text_of(names, name),
    }
}

// A measure: its name and datatype, and its terms in their order.
fn measure_text(
    alloc: Global,
    names: &NameTable,
    measure: &ScopedMeasure,
) -> Result<String, AllocError> {
    let name = text_of(names, measure.name);
    let datatype = text_of(names, measure.datatype);
    let mut text = format!(in alloc; "measure {name} {datatype}")?;
    for term in &measure.terms {
        let term = term_text(alloc, term)?;
        text.push_str("; ")?;
        text.push_str(term.as_str())?;
    }
    Ok(text)
}

// A qualifier: its name and column, what its value and its placeholders are, and its predicate.
fn qualifier_text(
    alloc: Global,
    names: &NameTable,
    qualifier: &ScopedQualifier,
) -> Result<String, AllocError> {
    let name = text_of(names, qualifier.name);
    let column = qualifier.place.column;
    let shape = shape_text(names, qualifier.shape);
    let mut text = format!(in alloc; "qualif {name} at {column} {shape}")?;
    for placeholder in &qualifier.placeholders {
        text.push(' ')?;
        text.push_str(shape_text(names, *placeholder))?;
    }
    let pred = pred_text(alloc, &qualifier.predicate)?;
    text.push_str(": ")?;
    text.push_str(pred.as_str())?;
    Ok(text)
}

fn texts_text(
    alloc: Global,
    names: &NameTable,
    texts: &ScopedTexts,
) -> Result<Vec<String>, AllocError> {
    let mut lines = Vec::new(alloc);
    for measure in &texts.measures {
        lines.push(measure_text(alloc, names, measure)?)?;
    }
    for qualifier in &texts.qualifiers {
        lines.push(qualifier_text(alloc, names, qualifier)?)?;
    }
    Ok(lines)
}

fn error_text(alloc: Global, error: ResolveError) -> Result<String, AllocError> {
    let text = match error {
        ResolveError::Program(_) => "program",
        ResolveError::Measures(_) => "measures",
        ResolveError::Qualifiers(_) => "qualifiers",
        ResolveError::Memory => "memory",
    };
    let code = error.code().unwrap_or(0);
    let column = match error.place() {
        Some(place) => place.column,
        None => 0,
    };
    format!(in alloc; "{text} {code} at {column}")
}

/// What the measures and qualifiers become, a line each, or what is told of the three texts.
pub(crate) fn bound_told(
    alloc: Global,
    program: &str,
    measures: &str,
    quals: &str,
) -> Result<Vec<String>, AllocError> {
    let mut names = NameTable::new(alloc)?;
    let mut lines = Vec::new(alloc);
    let Some(program) = program_of(alloc, &mut names, program.as_bytes())? else {
        lines.push(String::from_str(alloc, "no program")?)?;
        return Ok(lines);
    };
    let Some(measures) = measures_of(alloc, &mut names, measures.as_bytes())? else {
        lines.push(String::from_str(alloc, "no measures")?)?;
        return Ok(lines);
    };
    let Some(quals) = quals_of(alloc, &mut names, quals.as_bytes())? else {
        lines.push(String::from_str(alloc, "no qualifiers")?)?;
        return Ok(lines);
    };
    match resolve(alloc, &program, &measures, &quals, &names) {
        Ok(texts) => texts_text(alloc, &names, &texts),
        Err(error) => {
            lines.push(error_text(alloc, error)?)?;
            Ok(lines)
        }
    }
}
