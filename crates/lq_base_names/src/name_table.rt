// Texts by number.
ghost use Rattle.std.specs.Prelude.{◌≡◌, ◌-◌, ◌<◌, ◌^◌, ◌∷◌, ◌++◌, [], ℕ, List, length, slice_get, Some, IfOk, OnOk, OnErr};
ghost use Rattle.std.specs.BTreeMap.{get_by_text};
ghost use Rattle.std.specs.Map.{update};
ghost use Rattle.std.specs.Str.{bytes_eq};
ghost use Rattle.std.specs.String.{string_bytes};
ghost use Rattle.lq_base_names.specs.NameTable.{predeclared, with_text, texts_of, AreNumbers, HasOneNumberEach, IsNameTable};

use crate::name::Name;
use std::alloc::{AllocError, Global};
use std::collections::BTreeMap;
use std::marker::Model;

const PREDECLARED: [&str; 12] = [
    "int", "bool", "unit", "array", "list", "option", "map", "[]", "::", "None", "Some", "'a",
];

/// Texts, each with the number that stands for it in tokens and trees. A new text gets the next number. A text is found in an order of
/// the texts, so its time grows with the logarithm of their count, whatever they are.
///
/// Every table begins with the predeclared types `int`, `bool`, `unit`, `array`, `list`, `option` and `map`, the constructors `[]`,
/// `::`, `None` and `Some`, and the type variable `'a`.
#[derive(Drop)]
pub struct NameTable {
    texts: Vec<String>,
    numbers: BTreeMap<String, u32>,
}

impl Model for NameTable {
    ghost use Rattle.std.specs.Prelude.{List, ℕ};
    ghost use Rattle.lq_base_names.specs.NameTable.{texts_of, AreNumbers, IsNameTable};

    ghost Value = { List (List ℕ) };

    ghost view = { λ t. texts_of t.texts.items };

    ghost invariant = { λ t. IsNameTable (texts_of t.texts.items) × AreNumbers (texts_of t.texts.items) t.numbers };
}

impl NameTable {
    pub fn new(alloc: Global) -> Result<NameTable, AllocError>
        ensures { IfOk result (λ t. t ≡ predeclared) }
    {
        let mut texts = Vec::new(alloc);
        let mut numbers = BTreeMap::new(alloc);
        for text in &PREDECLARED {
            put(alloc, &mut texts, &mut numbers, text)?;
        }
        Ok(NameTable { texts, numbers })
    }

    /// The number of a text, which is added where the table lacks it.
    pub fn intern(&mut self, text: &str) -> Result<Name, AllocError>
        requires { length self.old < 2 ^ 32 - 1 }
        ensures texts { OnOk result (self.new ≡ with_text self.old text.now) }
        ensures number { IfOk result (λ n. slice_get self.new n.0 ≡ Some text.now) }
        ensures err { OnErr result (self.new ≡ self.old) }
        ensures table { IsNameTable self.new }
    {
        let alloc = *self.texts.allocator();
        let number = put(alloc, &mut self.texts, &mut self.numbers, text)?;
        Ok(Name(number))
    }

    /// How many texts the table has.
    pub fn len(&self) -> u32
        ensures len { result ≡ length self.now }
        ensures table { IsNameTable self.now }
    {
        self.texts.len() as u32
    }

    /// The text of a name of this table.
    pub fn text(&self, name: Name) -> &str
        requires { name.0 < length self.now }
        ensures text { slice_get self.now name.0 ≡ Some result.now }
        ensures table { IsNameTable self.now }
    {
        self.texts[name.0 as usize].as_str()
    }
}

// The number that the map has for a text.
fn number_in(numbers: &BTreeMap<String, u32>, text: &str) -> Option<u32>
    ensures { result ≡ get_by_text numbers.now text.now }
{
    numbers.get(text).copied()
}

// Gives a text a number.
fn set_number(
    numbers: &mut BTreeMap<String, u32>,
    text: String,
    number: u32,
) -> Result<(), AllocError>
    ensures number { OnOk result ((q : List ℕ) → get_by_text numbers.new q
        ≡ update bytes_eq (get_by_text numbers.old) (string_bytes text) (Some number) q) }
    ensures unchanged { OnErr result ((q : List ℕ) → get_by_text numbers.new q ≡ get_by_text numbers.old q) }
{
    numbers.insert(text, number)?;
    Ok(())
}

// Adds a text that there is not yet, with the next number.
fn add(
    alloc: Global,
    texts: &mut Vec<String>,
    numbers: &mut BTreeMap<String, u32>,
    text: &str,
) -> Result<u32, AllocError>
    requires { length texts.old.items < 2 ^ 32 }
    ensures number { IfOk result (λ n. n ≡ length texts.old.items) }
    ensures texts { OnOk result (texts_of texts.new.items ≡ texts_of texts.old.items ++ text.now ∷ []) }
    ensures numbers { OnOk result ((q : List ℕ) → get_by_text numbers.new q
        ≡ update bytes_eq (get_by_text numbers.old) text.now (Some (length texts.old.items)) q) }
    ensures err { OnErr result (texts.new.items ≡ texts.old.items) }
    ensures unchanged { OnErr result ((q : List ℕ) → get_by_text numbers.new q ≡ get_by_text numbers.old q) }
{
    let key = String::from_str(alloc, text)?;
    let owned = String::from_str(alloc, text)?;
    let number = texts.len() as u32;
    texts.push(owned)?;
    if let Err(error) = set_number(numbers, key, number) {
        texts.pop();
        return Err(error);
    }
    Ok(number)
}

// The number of a text, which is put last where there is none.
fn put(
    alloc: Global,
    texts: &mut Vec<String>,
    numbers: &mut BTreeMap<String, u32>,
    text: &str,
) -> Result<u32, AllocError>
    requires room { length texts.old.items < 2 ^ 32 }
    requires numbers { AreNumbers (texts_of texts.old.items) numbers.old }
    requires distinct { HasOneNumberEach (texts_of texts.old.items) }
    ensures texts { OnOk result (texts_of texts.new.items ≡ with_text (texts_of texts.old.items) text.now) }
    ensures number { IfOk result (λ n. slice_get (texts_of texts.new.items) n ≡ Some text.now) }
    ensures numbers { AreNumbers (texts_of texts.new.items) numbers.new }
    ensures distinct { HasOneNumberEach (texts_of texts.new.items) }
    ensures err { OnErr result (texts.new.items ≡ texts.old.items) }
{
    match number_in(numbers, text) {
        Some(number) => Ok(number),
        None => {
            let number = add(alloc, texts, numbers, text)?;
            Ok(number)
        }
    }
}
