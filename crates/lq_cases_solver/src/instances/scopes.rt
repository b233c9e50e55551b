// Scopes and unknowns that a line says: `NAME SHAPE, NAME SHAPE -> SHAPE`, and behind a `;` further names of the same scope with a further
// unknown. A name that stands twice hides the first one. A `/` begins an empty scope, and `#1` is a component or a field.

use crate::instances::texts::name_of;
use lq_base_names::{Binder, NameTable};
use lq_logic_predicates::Symbol;
use lq_refined_instances::{Scopes, Unknown, Unknowns, Visible};
use lq_text_qualifiers::sorting::Shape;
use std::alloc::{AllocError, Global};

/// A name that is bound.
#[derive(Drop)]
pub(crate) struct Bound {
    pub(crate) text: String,
    /// How many of this text were bound before.
    pub(crate) before: u64,
    visible: Visible,
    is_shown: bool,
}

/// What a line asks for.
#[derive(Drop)]
pub(crate) struct Asked {
    pub(crate) unknowns: Unknowns,
    pub(crate) bound: Vec<Bound>,
    last: u64,
}

// The shape that a text says; None of one that is no name.
fn shape_of(names: &mut NameTable, text: &str) -> Result<Option<Shape>, AllocError> {
    let shape = match text {
        "int" => Some(Shape::Int),
        "bool" => Some(Shape::Bool),
        "array" => Some(Shape::Array),
        _ => name_of(names, text)?.map(Shape::Data),
    };
    Ok(shape)
}

// The name that is visible under a text.
fn shown(bound: &[Bound], text: &str) -> Option<Visible> {
    bound
        .iter()
        .find(|name| name.is_shown && name.text.as_str() == text)
        .map(|name| name.visible)
}

/// The symbol of a text, which is bound where it isn't yet.
pub(crate) fn bind(
    alloc: Global,
    bound: &mut Vec<Bound>,
    text: &str,
) -> Result<Symbol, AllocError> {
    if let Some(visible) = shown(bound, text) {
        return Ok(visible.symbol);
    }
    let number = u32::try_from(bound.len()).unwrap_or(u32::MAX);
    let symbol = Symbol::Bound(Binder(number));
    bound.push(Bound {
        text: String::from_str(alloc, text)?,
        before: 0,
        visible: Visible {
            symbol,
            shape: Shape::Int,
        },
        is_shown: true,
    })?;
    Ok(symbol)
}

impl Asked {
    fn new(alloc: Global) -> Result<Asked, AllocError> {
        let unknowns = Unknowns {
            scopes: Scopes::new(alloc)?,
            unknowns: Vec::new(alloc),
        };
        Ok(Asked {
            unknowns,
            bound: Vec::new(alloc),
            last: 0,
        })
    }

    // An empty scope.
    fn restart(&mut self) {
        self.last = 0;
        for name in &mut self.bound {
            name.is_shown = false;
        }
    }

    // A symbol more.
    fn add(
        &mut self,
        alloc: Global,
        visible: Visible,
        hidden: Option<Visible>,
    ) -> Result<(), AllocError> {
        let scopes = &mut self.unknowns.scopes;
        if self.last >= scopes.len() {
            return Ok(());
        }
        if let Some(hidden) = hidden {
            if scopes.is_once(alloc, self.last, hidden)? {
                self.last = scopes.add_hiding(self.last, visible, hidden)?;
                return Ok(());
            }
        }
        self.last = scopes.add(self.last, visible)?;
        Ok(())
    }

    // A component or a field more.
    fn add_position(
        &mut self,
        alloc: Global,
        number: &str,
        shape: Shape,
    ) -> Result<(), AllocError> {
        let number = number.parse::<u32>().unwrap_or(0);
        let symbol = Symbol::Position(number);
        self.add(alloc, Visible { symbol, shape }, None)
    }

    // A name more, which hides the one of the same text.
    fn add_name(&mut self, alloc: Global, text: &str, shape: Shape) -> Result<(), AllocError> {
        let number = u32::try_from(self.bound.len()).unwrap_or(u32::MAX);
        let symbol = Symbol::Bound(Binder(number));
        let visible = Visible { symbol, shape };
        let hidden = shown(&self.bound, text);
        let mut before = 0;
        for name in &mut self.bound {
            if name.text.as_str() == text {
                name.is_shown = false;
                before = name.before.saturating_add(1);
            }
        }
        self.bound.push(Bound {
            text: String::from_str(alloc, text)?,
            before,
            visible,
            is_shown: true,
        })?;
        self.add(alloc, visible, hidden)
    }

    // A name and its shape.
    fn read_name(
        &mut self,
        alloc: Global,
        names: &mut NameTable,
        text: &str,
    ) -> Result<(), AllocError> {
        let Some((name, shape)) = text.trim().split_once(" ") else {
            return Ok(());
        };
        let Some(shape) = shape_of(names, shape)? else {
            return Ok(());
        };
        match name.strip_prefix("#") {
            Some(number) => self.add_position(alloc, number, shape),
            None => self.add_name(alloc, name, shape),
        }
    }

    // An unknown and the names before it.
    fn read_unknown(
        &mut self,
        alloc: Global,
        names: &mut NameTable,
        text: &str,
    ) -> Result<(), AllocError> {
        let Some((front, shape)) = text.split_once("->") else {
            return Ok(());
        };
        let Some(shape) = shape_of(names, shape.trim())? else {
            return Ok(());
        };
        let mut front = front.trim();
        if let Some(rest) = front.strip_prefix("/") {
            self.restart();
            front = rest;
        }
        for name in front.split(",") {
            self.read_name(alloc, names, name)?;
        }
        let unknown = Unknown {
            scope: self.last,
            shape,
        };
        self.unknowns.unknowns.push(unknown)?;
        Ok(())
    }
}

/// What a line asks for.
pub(crate) fn read_asked(
    alloc: Global,
    names: &mut NameTable,
    text: &str,
) -> Result<Asked, AllocError> {
    let mut asked = Asked::new(alloc)?;
    for unknown in text.split(";") {
        asked.read_unknown(alloc, names, unknown)?;
    }
    Ok(asked)
}
