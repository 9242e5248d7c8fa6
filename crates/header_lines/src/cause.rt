// Why a line is refused, and what is told of it.
ghost use Rattle.std.specs.Prelude.{◌≡◌, ◌≤◌, length};
ghost use Rattle.line_job.specs.Told.{line_message};
ghost use Rattle.header_lines.specs.Message.{cause_message, template_text, fault_text, refused_text};

use line_job::{Cause, Message, line_message, numbered_message};
use printer::{RenderFault, TemplateFault};
use separation::Refused;

/// Why a line is refused, by whatever command. Lines count from 1.
#[derive(Clone, Copy, Debug, PartialEq, Eq)]
pub enum LineCause {
    /// The header line is missing, or it is a kinds line with a word that names no kind, or a dialect line that isn't one
    /// dialect word.
    Header { line: u64 },
    /// The format line is no printf format.
    SourceFormat { line: u64 },
    /// The rows of the format can't be read back.
    Refused { line: u64, why: Refused },
    /// The template isn't in the grammar of its dialect.
    Template { line: u64, why: TemplateFault },
    /// No list of values prints to this line.
    NotARow { line: u64 },
    /// The line has its list, and the template has no text for it.
    Render { line: u64, fault: RenderFault },
}

impl Cause for LineCause {
    ghost message = { cause_message };

    fn message(self) -> Message {
        match self {
            LineCause::Header { line } => line_message(line, b"bad header"),
            LineCause::SourceFormat { line } => line_message(line, b"not a printf format"),
            LineCause::Refused { line, why } => refused_message(line, why),
            LineCause::Template { line, why } => line_message(line, template_text(why)),
            LineCause::NotARow { line } => line_message(line, b"not a row"),
            LineCause::Render { line, fault } => line_message(line, fault_text(fault)),
        }
    }
}

/// The message on a format whose rows can't be read back.
fn refused_message(line: u64, why: Refused) -> Message
    ensures { result.items ≡ line_message line (refused_text why) }
{
    match why {
        Refused::Kind { field } => numbered_message(line, b"field ", field as u64, b": kind"),
        Refused::Lossy { field } => numbered_message(line, b"field ", field as u64, b": lossy"),
        Refused::RunsOn { field } => numbered_message(line, b"field ", field as u64, b": runs on"),
    }
}

/// What is wrong with a text that is no template.
fn template_text(why: TemplateFault) -> &'static [u8]
    ensures text { result.now ≡ template_text why }
    ensures short { length result.now ≤ 80 }
{
    match why {
        TemplateFault::Printf => b"not a printf template",
        TemplateFault::Formatx => b"not a formatx template",
    }
}

/// What is wrong where a template has no text for a row's values.
fn fault_text(fault: RenderFault) -> &'static [u8]
    ensures text { result.now ≡ fault_text fault }
    ensures short { length result.now ≤ 80 }
{
    match fault {
        RenderFault::WrongType => b"template fault: WrongType",
        RenderFault::TooManyArgs => b"template fault: TooManyArgs",
        RenderFault::NotEnoughArgs => b"template fault: NotEnoughArgs",
        RenderFault::Invalid => b"template fault: Invalid",
        RenderFault::KeyError => b"template fault: KeyError",
        RenderFault::TypeError => b"template fault: TypeError",
        RenderFault::Parse => b"template fault: Parse",
        RenderFault::MissingArgument => b"template fault: MissingArgument",
        RenderFault::UnsupportedTrait => b"template fault: UnsupportedTrait",
    }
}
