// The languages that templates are translated to.

/// The language of the template.
#[derive(Clone, Copy, Debug, PartialEq, Eq)]
pub enum Target {
    Strfmt,
    Formatx,
}
