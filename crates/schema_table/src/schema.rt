//! Tables of types, with names.
ghost use Rattle.std.specs.Prelude.{◌≡◌, ◌<◌, length, None, IfSome, Decides};
ghost use Rattle.schema_table.specs.TypeNames.{HasTypeName, NoTypeName};

use crate::Node;

/// What a node's values are called, and so what they look like as text.
///
/// # Example
/// ```rust
/// if let Names::Fields(names) | Names::Variants(names) = names {
///     put_names(line, names)?;
/// }
/// ```
#[derive(Debug, Drop)]
pub enum Names {
    /// No names: numbers, texts, options, lists, arrays.
    Nothing,
    /// `f32`, `f64`, whose bits are read as an integer's bytes.
    Float,
    /// What a variant without fields holds.
    Empty,
    /// `()`, or a struct without fields.
    Unit,
    /// A struct of one field without a name, which looks as what it holds.
    Newtype,
    /// A tuple, or a struct whose fields have no names.
    Tuple,
    /// A struct, by the names of its fields.
    Fields(Vec<String>),
    /// An enum, by the names of its variants.
    Variants(Vec<String>),
    /// A map, which is a list of pairs on the wire.
    Map,
}

/// A declared type.
///
/// # Example
/// ```rust
/// let is_right = match &read {
///     Ok(schema) => matches!(
///         schema.types.as_slice(),
///         [Named { line: 2, .. }, Named { line: 4, .. }]
///     ),
///     Err(_) => false,
/// };
/// ```
#[derive(Debug, Drop)]
pub struct Named {
    /// Its name.
    pub name: String,
    /// The line of its declaration, counted from 1.
    pub line: usize,
}

/// The types of some declarations as one table.
///
/// # Example
/// ```rust
/// fn put_lines(line: &mut String, schema: &Schema) -> Result<(), AllocError> {
///     for (node, names) in schema.nodes.iter().zip(schema.names.iter()) {
///         line.push_str(kind_of(node))?;
///         put_held(line, node)?;
///         put_called(line, names)?;
///     }
///     Ok(())
/// }
/// ```
#[derive(Drop)]
pub struct Schema {
    /// The declared types, in the order of the text: the first has place 0 in the table, the second place 1 and so
    /// on.
    pub types: Vec<Named>,
    /// The table: the declared types, then those without a name.
    pub nodes: Vec<Node>,
    /// What each node's values are called, at its place.
    pub names: Vec<Names>,
}

// Whether two texts are equal.
fn is_text(text: &str, wanted: &str) -> bool
    ensures { Decides result (text.now ≡ wanted.now) }
{
    text == wanted
}

impl Schema {
    /// Returns the place of the declared type of this name, the first if there are several; `None` if there is none.
    ///
    /// # Example
    /// ```rust
    /// let is_right = match &read {
    ///     Ok(schema) => schema.place_of("B") == Some(1) && schema.place_of("C").is_none(),
    ///     Err(_) => false,
    /// };
    /// ```
    pub fn place_of(&self, name: &str) -> Option<usize>
        ensures within { IfSome result (λ place. place < length self.now.types.items) }
        ensures found { IfSome result (λ place. HasTypeName self.now.types.items place name.now) }
        ensures first { IfSome result (λ place. NoTypeName self.now.types.items place name.now) }
        ensures none { result ≡ None
            → NoTypeName self.now.types.items (length self.now.types.items) name.now }
    {
        for place in 0..self.types.len() {
            if is_text(self.types[place].name.as_str(), name) {
                return Some(place);
            }
        }
        None
    }
}
