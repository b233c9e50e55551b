// Names that are bound, and the scope that is visible at a node.
ghost use Rattle.std.specs.Prelude.{◌≡◌, ◌+◌, ◌<◌, ◌≤◌, true, List, [], ◌∷◌, ◌++◌, IfOk, OnOk, OnErr, Some, None, length, reverse, take};
ghost use Rattle.lq_refined_instances.specs.Scopes.{Scope, is_once, scope_in, without};
ghost use Rattle.lq_refined_instances.specs.Seen.{visible_view};
ghost use Rattle.lq_refined_instances.specs.Views.{scopes_view};
ghost use Rattle.lq_refined_templates.specs.Points.Seen.{names_at, symbols_of};
ghost use Rattle.lq_generate_reading.specs.Visibility.Latest.{changed, if_any, latest_in, name_number, name_shown, of_text, text_number, text_shown};
ghost use Rattle.lq_generate_reading.specs.Visibility.Notes.{annotation_view, IsRight};
ghost use Rattle.lq_generate_reading.specs.Visibility.Scopes.{visible_if, Longer};
ghost use Rattle.lq_generate_reading.specs.Visibility.Stack.{entry_view, names_view, stacked};

use crate::visibility::level::{Level, Span, is_before};
use crate::visibility::notes::Notes;
use indexmap::{IndexMap, IndexSet};
use lq_base_names::{Binder, Name};
use lq_logic_predicates::Symbol;
use lq_refined_instances::{Scopes, Visible};
use std::alloc::{AllocError, Global};

// A name that is bound, and the node before which it is visible, where that isn't to the end of its block.
#[derive(Clone, Copy, Debug, PartialEq, Eq)]
pub(crate) struct Entry {
    pub(crate) name: Binder,
    pub(crate) until: Option<u32>,
}

/// The names that are bound, the last one last. Of the first ones it is remembered what was visible where a scope was asked for last, with
/// the name that was visible of each text.
#[derive(Drop)]
pub struct Bound {
    entries: Vec<Entry>,
    levels: Vec<Level>,
    latest: IndexMap<Name, Option<Binder>>,
}

impl Bound {
    ghost use Rattle.std.specs.Prelude.{◌-◌, drop};
    ghost use Rattle.lq_refined_templates.specs.Points.Seen.{scope_at};
    ghost use Rattle.lq_generate_reading.specs.Visibility.Fits.{Fits};
    ghost use Rattle.lq_generate_reading.specs.Visibility.Levels.{top_of};
    ghost use Rattle.lq_generate_reading.specs.Visibility.Spans.{IsIn};
    ghost use Rattle.lq_generate_reading.specs.Visibility.Stack.{seen_view};
    ghost use Rattle.lq_generate_reading.specs.declared.visibility.notes.Notes.{Notes};

    /// No names.
    pub fn new(alloc: Global) -> Bound
        ensures seen { seen_view result ≡ [] }
        ensures fits { (m : Notes) (all : List Scope) → Fits m all result }
    {
        Bound {
            entries: Vec::new(alloc),
            levels: Vec::new(alloc),
            latest: IndexMap::new(alloc),
        }
    }

    /// How many names are bound.
    pub fn len(&self) -> usize
        ensures { result ≡ length (seen_view self.now) }
    {
        self.entries.len()
    }

    /// Binds a name, which is visible before a node, or to the end of its block. Where memory is refused, the names stay as they were.
    pub fn bind(&mut self, name: Binder, until: Option<u32>) -> Result<(), AllocError>
        ensures bound { OnOk result (seen_view self.new ≡ record { name = name.0; until = until } ∷ seen_view self.old) }
        ensures kept { OnErr result (seen_view self.new ≡ seen_view self.old) }
        ensures fits { (m : Notes) (all : List Scope) → Fits m all self.old → Fits m all self.new }
    {
        self.entries.push(Entry { name, until })?;
        Ok(())
    }

    /// Keeps the first names alone, so many of them.
    pub fn back_to(&mut self, len: usize)
        ensures left { seen_view self.new ≡ drop (length (seen_view self.old) - len) (seen_view self.old) }
        ensures fits { (m : Notes) (all : List Scope) → Fits m all self.old → Fits m all self.new }
    {
        while self.levels.len() > len {
            self.forget();
        }
        self.entries.truncate(len);
    }

    /// The number of the scope that is visible at a node. The scopes that there were keep their numbers, also where memory is refused.
    pub fn scope_at(
        &mut self,
        alloc: Global,
        scopes: &mut Scopes,
        notes: &Notes<'_>,
        node: u32,
    ) -> Result<u64, AllocError>
        requires right { IsRight notes.now }
        requires fits { Fits notes.now (scopes_view scopes.old) self.old }
        ensures scope { IfOk result (λ s. scope_in (scopes_view scopes.new) s ≡ scope_at (annotation_view notes.now) (seen_view self.old) node) }
        ensures there { IfOk result (λ s. s < length (scopes_view scopes.new)) }
        ensures grown { Longer (scopes_view scopes.old) (scopes_view scopes.new) }
        ensures kept { seen_view self.new ≡ seen_view self.old }
        ensures fits { Fits notes.now (scopes_view scopes.new) self.new }
    {
        self.forget_others(node);
        while self.levels.len() < self.entries.len() {
            self.remember(alloc, scopes, notes, node)?;
        }
        Ok(self.top().scope)
    }

    // What is remembered of the last name of which anything is. Where there is none, nothing is visible at any node.
    fn top(&self) -> Level
        ensures { result ≡ top_of (reverse self.now.levels.items) }
    {
        match self.levels.last() {
            Some(level) => *level,
            None => Level {
                scope: 0,
                span: Span { from: 0, end: None },
                text: None,
                hides: None,
            },
        }
    }

    // Forgets what is remembered of that name.
    fn forget(&mut self)
        ensures fits { (m : Notes) (all : List Scope) → Fits m all self.old → Fits m all self.new }
        ensures fewer { self.new.levels.items ≡ take (length self.old.levels.items - 1) self.old.levels.items }
        ensures kept { self.new.entries ≡ self.old.entries }
    {
        if let Some(level) = self.levels.pop() {
            let _refused = set_latest(&mut self.latest, level.text, level.hides);
        }
    }

    // Forgets what is not so at a node.
    fn forget_others(&mut self, node: u32)
        ensures fits { (m : Notes) (all : List Scope) → Fits m all self.old → Fits m all self.new }
        ensures holds { IsIn (top_of (reverse self.new.levels.items)).span node }
        ensures kept { self.new.entries ≡ self.old.entries }
    {
        while !self.top().span.holds(node) {
            self.forget();
        }
    }

    // Remembers what is visible at a node up to one name more.
    fn remember(
        &mut self,
        alloc: Global,
        scopes: &mut Scopes,
        notes: &Notes<'_>,
        node: u32,
    ) -> Result<(), AllocError>
        requires right { IsRight notes.now }
        requires fits { Fits notes.now (scopes_view scopes.old) self.old }
        requires more { length self.old.levels.items < length self.old.entries.items }
        requires holds { IsIn (top_of (reverse self.old.levels.items)).span node }
        ensures fits { Fits notes.now (scopes_view scopes.new) self.new }
        ensures holds { OnOk result (IsIn (top_of (reverse self.new.levels.items)).span node) }
        ensures more { OnOk result (length self.new.levels.items ≡ length self.old.levels.items + 1) }
        ensures grown { Longer (scopes_view scopes.old) (scopes_view scopes.new) }
        ensures kept { self.new.entries ≡ self.old.entries }
    {
        let entry = self.entries[self.levels.len()];
        let scope = self.next_scope(alloc, scopes, notes, node)?;
        let text = text_at(notes, entry, node);
        let level = Level {
            scope,
            span: self.top().span.narrowed(entry.until, node),
            text,
            hides: latest_of(&self.latest, text),
        };
        self.add(level, entry.name)?;
        Ok(())
    }

    // The number of the scope that is visible at a node, of the names up to the first of which nothing is remembered.
    fn next_scope(
        &self,
        alloc: Global,
        scopes: &mut Scopes,
        notes: &Notes<'_>,
        node: u32,
    ) -> Result<u64, AllocError>
        requires right { IsRight notes.now }
        requires fits { Fits notes.now (scopes_view scopes.old) self.now }
        requires more { length self.now.levels.items < length self.now.entries.items }
        requires holds { IsIn (top_of (reverse self.now.levels.items)).span node }
        ensures scope { IfOk result (λ s. scope_in (scopes_view scopes.new) s
            ≡ scope_at (annotation_view notes.now) (stacked [] (take (length self.now.levels.items + 1) self.now.entries.items)) node) }
        ensures there { IfOk result (λ s. s < length (scopes_view scopes.new)) }
        ensures grown { Longer (scopes_view scopes.old) (scopes_view scopes.new) }
    {
        let at = self.levels.len();
        let entry = self.entries[at];
        let below = self.top().scope;
        let hidden = visible_of(notes, latest_of(&self.latest, text_at(notes, entry, node)));
        let visible = visible_of(notes, name_at(entry, node));
        match hidden {
            None => with_visible(scopes, below, visible),
            Some(hidden) => match visible {
                Some(visible) => with_hidden(scopes, below, visible, hidden),
                None => {
                    let names = names_at(alloc, &self.entries[..at + 1], notes, node)?;
                    scope_of(scopes, notes, &names)
                }
            },
        }
    }

    // One level more, with its name.
    fn add(&mut self, level: Level, name: Binder) -> Result<(), AllocError>
        ensures levels { OnOk result (self.new.levels.items ≡ self.old.levels.items ++ level ∷ []) }
        ensures latest { OnOk result (latest_in self.new.latest.entries
            ≡ changed (text_number level.text) (Some name.0) (latest_in self.old.latest.entries)) }
        ensures levels_kept { OnErr result (self.new.levels.items ≡ self.old.levels.items) }
        ensures latest_kept { OnErr result (latest_in self.new.latest.entries ≡ latest_in self.old.latest.entries) }
        ensures kept { self.new.entries ≡ self.old.entries }
    {
        self.levels.push(level)?;
        match set_latest(&mut self.latest, level.text, Some(name)) {
            Ok(()) => Ok(()),
            Err(refused) => {
                self.levels.pop();
                Err(refused)
            }
        }
    }
}

// The text of a name, where it is visible at a node.
fn text_at(notes: &Notes<'_>, entry: Entry, node: u32) -> Option<Name>
    ensures { text_number result ≡ text_shown (annotation_view notes.now) node (entry_view entry) }
{
    if is_before(node, entry.until) {
        notes.text(entry.name)
    } else {
        None
    }
}

// A name, where it is visible at a node.
fn name_at(entry: Entry, node: u32) -> Option<Binder>
    ensures { name_number result ≡ name_shown node (entry_view entry) }
{
    if is_before(node, entry.until) {
        Some(entry.name)
    } else {
        None
    }
}

// The name that is visible of a text.
fn latest_of(latest: &IndexMap<Name, Option<Binder>>, text: Option<Name>) -> Option<Binder>
    ensures { name_number result ≡ of_text (latest_in latest.now.entries) (text_number text) }
{
    match latest.get(&text?) {
        Some(found) => *found,
        None => None,
    }
}

// Another name is visible of a text, or none. Memory is refused only where there is no name of it.
fn set_latest(
    latest: &mut IndexMap<Name, Option<Binder>>,
    text: Option<Name>,
    to: Option<Binder>,
) -> Result<(), AllocError>
    ensures set { OnOk result (latest_in latest.new.entries
        ≡ changed (text_number text) (name_number to) (latest_in latest.old.entries)) }
    ensures kept { OnErr result (latest_in latest.new.entries ≡ latest_in latest.old.entries) }
    ensures absent { OnErr result (of_text (latest_in latest.old.entries) (text_number text) ≡ None) }
{
    if let Some(text) = text {
        latest.insert(text, to)?;
    }
    Ok(())
}

// The symbols of names, one after another.
fn scope_of(scopes: &mut Scopes, notes: &Notes<'_>, names: &[Binder]) -> Result<u64, AllocError>
    requires { IsRight notes.now }
    ensures scope { IfOk result (λ s. scope_in (scopes_view scopes.new) s ≡ symbols_of (annotation_view notes.now) (names_view names.now)) }
    ensures there { IfOk result (λ s. s < length (scopes_view scopes.new)) }
    ensures grown { Longer (scopes_view scopes.old) (scopes_view scopes.new) }
{
    let mut scope = 0;
    for at in 0..names.len() {
        scope = with_visible(scopes, scope, visible_of(notes, Some(names[at])))?;
    }
    Ok(scope)
}

// The names of the source that are visible at a node, the last one first, and their texts.
#[derive(Drop)]
struct Walked {
    texts: IndexSet<Name>,
    names: Vec<Binder>,
}

impl Walked {
    ghost use Rattle.std.specs.Prelude.{if◌then◌else◌, ◌&&◌};
    ghost use Rattle.lq_refined_templates.specs.Points.Seen.{is_before};
    ghost use Rattle.lq_generate_reading.specs.Visibility.Walking.{has_new_text, walked_texts};
    ghost use Rattle.lq_generate_reading.specs.Visibility.Takes.{Takes};

    // Whether the text of a name is another one than those so far; a made name has none.
    fn is_new(&self, notes: &Notes<'_>, name: Binder) -> bool
        ensures { result ≡ has_new_text self.now.texts.keys ((annotation_view notes.now).text name.0) }
    {
        match notes.text(name) {
            Some(text) => !self.texts.contains(&text),
            None => false,
        }
    }

    // Takes a name with its text.
    fn add(&mut self, notes: &Notes<'_>, name: Binder) -> Result<(), AllocError>
        ensures texts { OnOk result (self.new.texts.keys ≡ walked_texts self.old.texts.keys ((annotation_view notes.now).text name.0)) }
        ensures names { OnOk result (self.new.names.items ≡ self.old.names.items ++ name ∷ []) }
    {
        if let Some(text) = notes.text(name) {
            self.texts.insert(text)?;
        }
        self.names.push(name)?;
        Ok(())
    }

    // Takes the name of an entry, if it is visible at a node and no later name has its text.
    fn take(&mut self, notes: &Notes<'_>, node: u32, entry: Entry) -> Result<(), AllocError>
        ensures { OnOk result (Takes (annotation_view notes.now) node self.old self.new (entry_view entry)) }
    {
        if is_before(node, entry.until) && self.is_new(notes, entry.name) {
            self.add(notes, entry.name)?;
        }
        Ok(())
    }
}

// The names of the source that are visible at a node, the outermost first. A name hides earlier ones of its text, so the last ones are
// taken first.
fn names_at(
    alloc: Global,
    entries: &[Entry],
    notes: &Notes<'_>,
    node: u32,
) -> Result<Vec<Binder>, AllocError>
    ensures { IfOk result (λ names. names_view names.items ≡ names_at (annotation_view notes.now) (stacked [] entries.now) node) }
{
    let mut walked = Walked {
        texts: IndexSet::new(alloc),
        names: Vec::new(alloc),
    };
    let mut at = entries.len();
    while at > 0 {
        at -= 1;
        walked.take(notes, node, entries[at])?;
    }
    walked.names.reverse();
    Ok(walked.names)
}

// The symbol that a name is, with its shape, where predicates speak of it.
fn visible_of(notes: &Notes<'_>, name: Option<Binder>) -> Option<Visible>
    requires { IsRight notes.now }
    ensures { visible_if result ≡ symbols_of (annotation_view notes.now) (if_any (name_number name)) }
{
    let name = name?;
    if !notes.is_spoken_of(name) {
        return None;
    }
    match notes.shape_of(notes.type_of_binder(name)) {
        Some(shape) => Some(Visible {
            symbol: Symbol::Bound(name),
            shape,
        }),
        None => None,
    }
}

// The number of a scope with one symbol more, where there is one.
fn with_visible(
    scopes: &mut Scopes,
    scope: u64,
    visible: Option<Visible>,
) -> Result<u64, AllocError>
    requires { scope < length (scopes_view scopes.old) }
    ensures scope { IfOk result (λ s. scope_in (scopes_view scopes.new) s ≡ scope_in (scopes_view scopes.old) scope ++ visible_if visible) }
    ensures there { IfOk result (λ s. s < length (scopes_view scopes.new)) }
    ensures grown { Longer (scopes_view scopes.old) (scopes_view scopes.new) }
{
    match visible {
        Some(visible) => {
            let added = scopes.add(scope, visible)?;
            Ok(added)
        }
        None => Ok(scope),
    }
}

// The number of a scope without one symbol and with one more.
fn with_hidden(
    scopes: &mut Scopes,
    scope: u64,
    visible: Visible,
    hidden: Visible,
) -> Result<u64, AllocError>
    requires parent { scope < length (scopes_view scopes.old) }
    requires once { is_once (visible_view hidden) (scope_in (scopes_view scopes.old) scope) ≡ true }
    ensures scope { IfOk result (λ s. scope_in (scopes_view scopes.new) s
        ≡ without (Some (visible_view hidden)) (scope_in (scopes_view scopes.old) scope) ++ visible_view visible ∷ []) }
    ensures there { IfOk result (λ s. s < length (scopes_view scopes.new)) }
    ensures grown { Longer (scopes_view scopes.old) (scopes_view scopes.new) }
{
    let added = scopes.add_hiding(scope, visible, hidden)?;
    Ok(added)
}
