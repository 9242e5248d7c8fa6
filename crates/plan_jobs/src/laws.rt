// Laws of messages: nothing here is run for its answer.
ghost use Rattle.plan_jobs.specs.TranslateMessage.{MessagesDiffer};

/// Two different refusals never have the same message, so a message that was told whole fixes its refusal.
pub fn translate_messages_differ()
    ensures { MessagesDiffer }
{}
