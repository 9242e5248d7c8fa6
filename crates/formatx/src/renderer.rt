// A template with its values.
ghost use Rattle.std.specs.Prelude.{◌≡◌, ◌++◌, ◌∷◌, [], IfErr, IfOk, OnErr, OnOk, Err, Ok, true, false, length, string_bytes};
ghost use Rattle.formatx.specs.Fault.{Tells};
ghost use Rattle.formatx.specs.Scene.{named, scene_over, with_name};
ghost use Rattle.formatx.specs.Text.{Prints};

use crate::error::Error;
use crate::names::Names;
use crate::template::Template;
use crate::value::FormatValue;
use std::alloc::Global;
use std::marker::Model;

/// A template with its values: each has a position, counted from 0, and some have names too.
#[derive(Drop)]
pub struct Renderer<'a, V: FormatValue> {
    template: &'a Template,
    values: Vec<V>,
    names: Names,
    alloc: Global,
}

impl<'a, V: FormatValue> Model for Renderer<'a, V> {
    ghost use Rattle.formatx.specs.Templates.{Filling};

    ghost Value = { Filling V };

    ghost view = { λ r. record { source = r.template.now; values = r.values.items; names = r.names } };
}

impl<'a, V: FormatValue> Renderer<'a, V> {
    pub(crate) fn new(template: &'a Template, alloc: Global) -> Renderer<'a, V>
        ensures source { result.source ≡ template.now }
        ensures values { result.values ≡ [] }
        ensures names { result.names ≡ [] }
    {
        Renderer {
            template,
            values: Vec::new(alloc),
            names: Names::new(alloc),
            alloc,
        }
    }

    /// Adds a value at the next position. Without memory the value is dropped.
    pub fn add(&mut self, value: V) -> Result<(), Error>
        ensures ok { OnOk result (self.new ≡ record self.old { values = self.old.values ++ value ∷ [] }) }
        ensures err { OnErr result (self.new ≡ self.old) }
        ensures memory { IfErr result (λ e. e ≡ Error.NoMemory) }
    {
        match self.values.push(value) {
            Ok(()) => Ok(()),
            Err(_) => Err(Error::NoMemory),
        }
    }

    /// Adds a value at the next position, and a name for this position; where a name comes twice, the first counts. Without
    /// memory the value is dropped.
    pub fn add_named(&mut self, name: &str, value: V) -> Result<(), Error>
        ensures source { self.new.source ≡ self.old.source }
        ensures values { OnOk result (self.new.values ≡ self.old.values ++ value ∷ []) }
        ensures names { OnOk result (named self.new.names ≡ with_name (named self.old.names) name.now (length self.old.values)) }
        ensures err { OnErr result (self.new ≡ self.old) }
        ensures memory { IfErr result (λ e. e ≡ Error.NoMemory) }
    {
        let index = self.values.len();
        self.values.reserve(1)?;
        self.names.add(name, index)?;
        self.values.push(value).unwrap();
        Ok(())
    }

    /// The same as `add`, and answers the renderer.
    pub fn arg(&mut self, value: V) -> Result<&mut Self, Error>
        ensures same { IfOk result (λ r. r.ghost_name ≡ self.entry.ghost_name) }
        ensures ok { IfOk result (λ r. r.now ≡ record self.old { values = self.old.values ++ value ∷ [] }) }
        ensures memory { IfErr result (λ e. e ≡ Error.NoMemory) }
    {
        self.add(value)?;
        Ok(self)
    }

    /// The same as `add_named`, and answers the renderer.
    pub fn named(&mut self, name: &str, value: V) -> Result<&mut Self, Error>
        ensures same { IfOk result (λ r. r.ghost_name ≡ self.entry.ghost_name) }
        ensures source { IfOk result (λ r. r.now.source ≡ self.old.source) }
        ensures values { IfOk result (λ r. r.now.values ≡ self.old.values ++ value ∷ []) }
        ensures names { IfOk result (λ r. named r.now.names ≡ with_name (named self.old.names) name.now (length self.old.values)) }
        ensures memory { IfErr result (λ e. e ≡ Error.NoMemory) }
    {
        self.add_named(name, value)?;
        Ok(self)
    }

    /// The template's text. A missing value is refused.
    pub fn finish(&self) -> Result<String, Error>
        ensures ok { IfOk result (λ text. Prints (scene_over V.meaning self.now.source self.now.values self.now.names true) (Ok (string_bytes text))) }
        ensures err { IfErr result (λ e. Tells e (λ fault. Prints (scene_over V.meaning self.now.source self.now.values self.now.names true) (Err fault))) }
    {
        self.finish_by(true)
    }

    /// The template's text. A placeholder whose value is missing prints nothing.
    pub fn finish_lenient(&self) -> Result<String, Error>
        ensures ok { IfOk result (λ text. Prints (scene_over V.meaning self.now.source self.now.values self.now.names false) (Ok (string_bytes text))) }
        ensures err { IfErr result (λ e. Tells e (λ fault. Prints (scene_over V.meaning self.now.source self.now.values self.now.names false) (Err fault))) }
    {
        self.finish_by(false)
    }

    fn finish_by(&self, strict: bool) -> Result<String, Error>
        ensures ok { IfOk result (λ text. Prints (scene_over V.meaning self.now.source self.now.values self.now.names strict) (Ok (string_bytes text))) }
        ensures err { IfErr result (λ e. Tells e (λ fault. Prints (scene_over V.meaning self.now.source self.now.values self.now.names strict) (Err fault))) }
    {
        let mut text = String::new(self.alloc);
        self.template.render_into(
            self.alloc,
            &mut text,
            self.values.as_slice(),
            &self.names,
            strict,
        )?;
        Ok(text)
    }
}
