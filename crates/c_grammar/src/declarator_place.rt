/// Where a declarator stands, which decides whether it has a name.
#[derive(Clone, Copy, PartialEq, Eq)]
pub enum DeclaratorPlace {
    /// In a declaration or a function definition: it has a name.
    Declaration,
    /// In a structure or union: it has a name.
    Member,
    /// In a parameter: it has a name or none.
    Parameter,
    /// In a type name: it has no name.
    TypeName,
}
