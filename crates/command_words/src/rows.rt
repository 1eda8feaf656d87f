//! What `clap` is told of an argument.

/// What is given as an argument.
#[derive(Clone, Copy)]
pub(crate) enum Form {
    Word,
    /// So many words or more.
    Words(usize),
    /// A number from one to another.
    Number(i64, i64),
    /// An option with a text.
    TextOption,
    /// An option with a number from one to another.
    NumberOption(i64, i64),
    /// An option with no value, whose name is its id.
    Flag,
}

/// What `clap` is told of an argument.
#[derive(Clone, Copy)]
pub(crate) struct Row {
    pub(crate) id: &'static str,
    /// The name of an option with a value.
    pub(crate) long: &'static str,
    pub(crate) form: Form,
    pub(crate) defaults: &'static [&'static str],
    pub(crate) required: bool,
    pub(crate) help: &'static str,
}

/// An argument that need not be given.
pub(crate) const OPTIONAL: Row = Row {
    id: "",
    long: "",
    form: Form::Word,
    defaults: &[],
    required: false,
    help: "",
};
