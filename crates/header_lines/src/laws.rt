// Laws of header lines and of messages: nothing here is run for its answer.
ghost use Rattle.header_lines.specs.Laws.{HeaderLinesAreClear};
ghost use Rattle.header_lines.specs.Message.{MessagesDiffer};

/// Two different refusals never have the same message, so a message that was told whole fixes its refusal.
pub fn messages_differ()
    ensures { MessagesDiffer }
{}

/// A header line says one thing, or is refused for one cause, and never both.
pub fn header_lines_are_clear()
    ensures { HeaderLinesAreClear }
{}
