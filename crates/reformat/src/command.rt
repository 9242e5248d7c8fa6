// The commands of the program.
ghost use Rattle.std.specs.Prelude.{◌≡◌, ◌≤◌, ◌≢◌, ◌∷◌, [], ℕ, List, map, string_bytes, decimal, MatchOption};
ghost use Rattle.line_job.specs.Ends.{Tells, Took, source_seen, sink_seen};
ghost use Rattle.line_job.specs.Told.{RunsTold};
ghost use Rattle.header_lines.specs.Heading.{first_next};
ghost use Rattle.header_lines.specs.Message.{cause_message};
ghost use Rattle.rewriting.specs.Rules.{rewrite_rules, heading_next};
ghost use Rattle.rewriting.specs.Reformats.{WritesAll, Completes};
ghost use Rattle.plan_jobs.specs.Plan.{plan_rules, heading_next as plan_heading};
ghost use Rattle.plan_jobs.specs.Scan.{scan_rules};
ghost use Rattle.plan_jobs.specs.Translate.{translate_rules, heading_next as translate_heading};
ghost use Rattle.plan_jobs.specs.TranslateMessage.{translate_message};
ghost use Rattle.plan_jobs.specs.Written.{PlansAll, ScansAll, TranslatesAll};
ghost use Rattle.sample_job.specs.Summary.{IsSummary};
ghost use Rattle.sample_job.specs.Samples.{Samples};
ghost use Rattle.translation.specs.declared.target.Target.{Target};
ghost use Rattle.reformat.specs.Run.{usage, rewrite_words, plan_words, scan_words, target_word, translate_words, sample_words, sample_limit, IsCommand, input_limit};
ghost use Rattle.reformat.specs.Inner.Said.{IsSaid, IsWithin, Does, Leaves};

use edge_io::{Sink, Source};
use line_job::tell;
use plan_jobs::{Target, run_plan, run_scan, run_translate};
use rewriting::run_rewrite;
use sample_job::run_sample;
use std::alloc::Global;
use values::read_decimal;

/// How many bytes of input a command takes at most.
const LIMIT: u64 = 268435456;

/// How many rows a sample has at most.
const SAMPLE_LIMIT: usize = 1000000;

const USAGE: &[u8] =
    b"usage: reformat rewrite | plan | scan FORMAT | translate strfmt|formatx | sample N\n";

/// What the words of the program say.
#[derive(Clone, Copy)]
enum Command<'w> {
    Rewrite,
    Plan,
    Scan(&'w str),
    Translate(Target),
    Sample(u64),
}

/// The command that one word says.
fn one_word(word: &str) -> Option<Command<'_>>
    ensures { MatchOption result (¬ IsCommand (word.now ∷ [])) (IsSaid (word.now ∷ [])) }
{
    match word {
        "rewrite" => Some(Command::Rewrite),
        "plan" => Some(Command::Plan),
        _ => None,
    }
}

/// The target that the word names.
fn target_of(word: &str) -> Option<Target>
    ensures { MatchOption result ((target : Target) → word.now ≢ target_word target) (λ target. word.now ≡ target_word target) }
{
    match word {
        "strfmt" => Some(Target::Strfmt),
        "formatx" => Some(Target::Formatx),
        _ => None,
    }
}

/// The number of rows that the word says in decimal, without a sign and without a zero in front.
fn rows_of(word: &str) -> Option<u64>
    ensures { MatchOption result ((n : ℕ) → n ≤ sample_limit → word.now ≢ decimal n) (λ n. (n ≤ sample_limit) × (word.now ≡ decimal n)) }
{
    let rows = read_decimal(word)?;
    if rows > SAMPLE_LIMIT {
        return None;
    }
    Some(rows as u64)
}

/// The command that two words say.
fn two_words<'w>(word: &str, object: &'w str) -> Option<Command<'w>>
    ensures { MatchOption result (¬ IsCommand (word.now ∷ object.now ∷ [])) (IsSaid (word.now ∷ object.now ∷ [])) }
{
    match word {
        "scan" => Some(Command::Scan(object)),
        "translate" => Some(Command::Translate(target_of(object)?)),
        "sample" => Some(Command::Sample(rows_of(object)?)),
        _ => None,
    }
}

/// The command that the words say.
fn command_of(words: &[String]) -> Option<Command<'_>>
    ensures { MatchOption result (¬ IsCommand (map string_bytes words.now)) (IsSaid (map string_bytes words.now)) }
{
    match words {
        [only] => one_word(only.as_str()),
        [first, second] => {
            let word = first.as_str();
            let object = second.as_str();
            two_words(word, object)
        }
        _ => None,
    }
}

/// Does what the command says, and answers the exit status.
fn run_command<S: Source, K: Sink, E: Sink>(
    alloc: Global,
    command: Command<'_>,
    input: &mut S,
    output: &mut K,
    errors: &mut E,
) -> u8
    requires { IsWithin command }
    ensures leaves { Leaves command.entry input.old input.new }
    ensures does { Does command.entry (source_seen S.supply input.old input.new) (sink_seen K.held K.faults output.old output.new) (sink_seen E.held E.faults errors.old errors.new) result }
    ensures quiet { result ≡ 0 → errors.new ≡ errors.old }
{
    match command {
        Command::Rewrite => run_rewrite(alloc, input, output, errors, LIMIT),
        Command::Plan => run_plan(alloc, input, output, errors, LIMIT),
        Command::Scan(format) => run_scan(alloc, format, input, output, errors, LIMIT),
        Command::Translate(target) => run_translate(alloc, target, input, output, errors, LIMIT),
        Command::Sample(n) => run_sample(alloc, n, output, errors),
    }
}

/// Does what the words say, and answers the exit status: 0 for success, 1 for a refused line, 2 where the words are
/// no command, 3 past the limit, 4 for a read fault, 5 for a write fault, 6 for want of memory.
pub fn run<S: Source, K: Sink, E: Sink>(
    alloc: Global,
    words: &[String],
    input: &mut S,
    output: &mut K,
    errors: &mut E,
) -> u8
    // Status 0 of `rewrite`: all was read, and the rows were written over again.
    ensures rewritten { map string_bytes words.now ≡ rewrite_words → result ≡ 0
        → WritesAll (source_seen S.supply input.old input.new) (sink_seen K.held K.faults output.old output.new) }

    // Every status of `rewrite` is that of a result of the job, and its message is told.
    ensures job { map string_bytes words.now ≡ rewrite_words
        → RunsTold rewrite_rules (heading_next first_next) cause_message input_limit (source_seen S.supply input.old input.new) (sink_seen K.held K.faults output.old output.new) (sink_seen E.held E.faults errors.old errors.new) result }

    // Input that keeps the rules and the limit is rewritten, where no fault was counted and memory was there.
    ensures complete { map string_bytes words.now ≡ rewrite_words
        → Completes input_limit (source_seen S.supply input.old input.new) (sink_seen K.held K.faults output.old output.new) result }

    // Status 0 of `plan`: all was read, and the planned text of the format was written.
    ensures planned { map string_bytes words.now ≡ plan_words → result ≡ 0
        → PlansAll (source_seen S.supply input.old input.new) (sink_seen K.held K.faults output.old output.new) }

    // Every status of `plan` is that of a result of the job that plans, and its message is told.
    ensures plans { map string_bytes words.now ≡ plan_words
        → RunsTold plan_rules (plan_heading first_next) cause_message input_limit (source_seen S.supply input.old input.new) (sink_seen K.held K.faults output.old output.new) (sink_seen E.held E.faults errors.old errors.new) result }

    // Status 0 of `scan`: all was read, and the tokens of each line were written.
    ensures scanned { (format : List ℕ) → map string_bytes words.now ≡ scan_words format → result ≡ 0
        → ScansAll format (source_seen S.supply input.old input.new) (sink_seen K.held K.faults output.old output.new) }

    // Every status of `scan` is that of a result of the job that scans by the format, and its message is told.
    ensures scans { (format : List ℕ) → map string_bytes words.now ≡ scan_words format
        → RunsTold scan_rules (record { format = format }) cause_message input_limit (source_seen S.supply input.old input.new) (sink_seen K.held K.faults output.old output.new) (sink_seen E.held E.faults errors.old errors.new) result }

    // Status 0 of `translate`: all was read, and the template to which the format is translated was written.
    ensures translated { (target : Target) → map string_bytes words.now ≡ translate_words target → result ≡ 0
        → TranslatesAll target (source_seen S.supply input.old input.new) (sink_seen K.held K.faults output.old output.new) }

    // Every status of `translate` is that of a result of the job that translates, and its message is told.
    ensures translates { (target : Target) → map string_bytes words.now ≡ translate_words target
        → RunsTold translate_rules (translate_heading target first_next) translate_message input_limit (source_seen S.supply input.old input.new) (sink_seen K.held K.faults output.old output.new) (sink_seen E.held E.faults errors.old errors.new) result }

    // Status 0 of `sample`: the summary of what is written for a sample of so many rows was written.
    ensures sampled { (n : ℕ) → n ≤ sample_limit → map string_bytes words.now ≡ sample_words n → result ≡ 0
        → (line : List ℕ) × IsSummary n line × Took (sink_seen K.held K.faults output.old output.new) line }

    // Every status of `sample` is that of success, of a write fault or of want of memory, and nothing is read.
    ensures samples { (n : ℕ) → n ≤ sample_limit → map string_bytes words.now ≡ sample_words n
        → (input.new ≡ input.old) × Samples n (sink_seen K.held K.faults output.old output.new) (sink_seen E.held E.faults errors.old errors.new) result }

    // Other words are no command: the usage line is told, and nothing is read or written.
    ensures usage { ¬ IsCommand (map string_bytes words.now)
        → (result ≡ 2) × (input.new ≡ input.old) × (output.new ≡ output.old) × Tells (sink_seen E.held E.faults errors.old errors.new) usage }

    // Success tells nothing.
    ensures quiet { result ≡ 0 → errors.new ≡ errors.old }
{
    match command_of(words) {
        Some(command) => run_command(alloc, command, input, output, errors),
        None => {
            tell(errors, USAGE);
            2
        }
    }
}
