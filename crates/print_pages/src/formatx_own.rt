ghost use Rattle.formatx.specs.Values.{bool_meaning};

use formatx::{DebugStyle, Error, FormatValue, Shape, Template};
use std::test::Fail;

/// A switch, which prints as a truth value does.
#[derive(Drop)]
struct Switch {
    on: bool,
}

impl FormatValue for Switch {
    // Its two texts and its two shapes: those of a truth value.
    ghost meaning = { λ switch. bool_meaning switch.on };

    fn display(&self, out: &mut String) -> Result<(), Error> {
        self.on.display(out)
    }

    fn debug(&self, style: DebugStyle, out: &mut String) -> Result<(), Error> {
        self.on.debug(style, out)
    }

    fn display_shape(&self) -> Shape {
        Shape::Text
    }

    fn debug_shape(&self) -> Shape {
        Shape::Text
    }
}

pub fn show(rt: &HostRuntime) -> Result<(), Fail> {
    let alloc = rt.alloc();
    let template = Template::new(alloc, "{:>6}|{:.1}|")?;
    let mut renderer = template.render::<Switch>(alloc);
    renderer.add(Switch { on: true })?;
    renderer.add(Switch { on: false })?;
    println!(rt; "{}", renderer.finish()?)?;
    Ok(())
}
