// Names in lines.

/// The place of a name among some. A choice by its number is proved sooner than one by the name.
pub fn place_of(name: &str, names: &[&str]) -> Option<usize> {
    names.iter().position(|it| *it == name)
}
