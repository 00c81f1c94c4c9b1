// The public calls, as C links them: include/fernpocket.h says what each answers.
#![tactic(auto)]

ghost use Rattle.std.specs.Prelude.{◌≡◌, length};
ghost use Rattle.answer.specs.Answers.{status_answer, count_answer, counted_answer};
ghost use Rattle.records.specs.Accept.{checked};
ghost use Rattle.facts.specs.Lent.{lent};
ghost use Rattle.instances.specs.Records.{lent_states};
ghost use Rattle.calls.specs.Evaluation.{assemble_answer, assemble_values, verdicts_answer, verdicts_verdicts, operate_answer, operate_states};
ghost use Rattle.calls.specs.Flows.{first_answer, first_path, next_answer, next_path, run_answer, run_path, run_states};
ghost use Rattle.calls.specs.Reports.{states_answer, reachable_answer, admissible_answer, can_cause_answer, rules_answer, stratum_answer, outcomes_answer, tree_size_answer, depth_answer};
ghost use Rattle.text.specs.Calls.{read_answer, read_buffer, write_answer, write_buffer};

use answer::Answer;
use reports::{Report, look_up};

// The sheet checker.
#[unsafe(no_mangle)]
pub extern "C" fn fernpocket_check(sheet: &[i64]) -> Answer
    ensures { result ≡ status_answer (checked sheet.now) }
{
    Answer::of(sheet::check(sheet))
}

// The text of a sheet, read into words.
#[unsafe(no_mangle)]
pub extern "C" fn fernpocket_read_text(text: &[u8], words: &mut [i64]) -> Answer
    ensures value { result ≡ count_answer (read_answer text.now (length words.old)) }
    ensures words_after { words.new ≡ read_buffer text.now words.old }
{
    Answer::of(text::read(text, words))
}

// Words written as the text of a sheet.
#[unsafe(no_mangle)]
pub extern "C" fn fernpocket_write_text(words: &[i64], text: &mut [u8]) -> Answer
    ensures value { result ≡ count_answer (write_answer words.now (length text.old)) }
    ensures text_after { text.new ≡ write_buffer words.now text.old }
{
    Answer::of(text::write(words, text))
}

// Fact assembly: the defaults are put into the lent values.
#[unsafe(no_mangle)]
pub extern "C" fn fernpocket_assemble(
    sheet: &[i64],
    values: &mut [i64],
    given: &[i64],
    lists: &[i64],
    lengths: &[i64],
) -> Answer
    ensures value { result ≡ status_answer (assemble_answer sheet.now (lent values.old given.now lists.now lengths.now)) }
    ensures values_after { values.new ≡ assemble_values sheet.now (lent values.old given.now lists.now lengths.now) }
{
    Answer::of(evaluate::assemble(sheet, values, given, lists, lengths))
}

// The verdicts over the lent facts.
#[unsafe(no_mangle)]
pub extern "C" fn fernpocket_verdicts(
    sheet: &[i64],
    values: &[i64],
    given: &[i64],
    lists: &[i64],
    lengths: &[i64],
    verdicts: &mut [i64],
) -> Answer
    ensures value { result ≡ status_answer (verdicts_answer sheet.now (lent values.now given.now lists.now lengths.now) (length verdicts.old)) }
    ensures verdicts_after { verdicts.new ≡ verdicts_verdicts sheet.now (lent values.now given.now lists.now lengths.now) verdicts.old }
{
    Answer::of(evaluate::verdicts(sheet, values, given, lists, lengths, verdicts))
}

// One operation by a persona on the named instances, who wants the outcome of that number, or with −1 the only one that is applicable. The number
// answered is the outcome.
#[unsafe(no_mangle)]
pub extern "C" fn fernpocket_operate(
    sheet: &[i64],
    values: &[i64],
    given: &[i64],
    lists: &[i64],
    lengths: &[i64],
    states: &mut [i64],
    instances: &[i64],
    persona: i64,
    operation: i64,
    wanted: i64,
) -> Answer
    ensures value { result ≡ count_answer (operate_answer sheet.now (lent values.now given.now lists.now lengths.now) (lent_states states.old instances.now) persona operation wanted) }
    ensures states_after { states.new ≡ operate_states sheet.now (lent values.now given.now lists.now lengths.now) (lent_states states.old instances.now) persona operation wanted }
{
    Answer::of(evaluate::operate(
        sheet, values, given, lists, lengths, states, instances, persona, operation, wanted,
    ))
}

// One run of a flow on the named instances, with a wanted word for each of its steps. The numbers answered are the terminal and the path's
// length.
#[unsafe(no_mangle)]
pub extern "C" fn fernpocket_run(
    sheet: &[i64],
    values: &[i64],
    given: &[i64],
    lists: &[i64],
    lengths: &[i64],
    states: &mut [i64],
    instances: &[i64],
    flow: i64,
    wanted: &[i64],
    path: &mut [u16],
) -> Answer
    ensures value { result ≡ counted_answer (run_answer sheet.now (lent values.now given.now lists.now lengths.now) (lent_states states.old instances.now) flow wanted.now path.old) }
    ensures path_after { path.new ≡ run_path sheet.now (lent values.now given.now lists.now lengths.now) (lent_states states.old instances.now) flow wanted.now path.old }
    ensures states_after { states.new ≡ run_states sheet.now (lent values.now given.now lists.now lengths.now) (lent_states states.old instances.now) flow wanted.now path.old }
{
    Answer::of(flows::run(
        sheet, values, given, lists, lengths, states, instances, flow, wanted, path,
    ))
}

// S6: path 0 of a flow.
#[unsafe(no_mangle)]
pub extern "C" fn fernpocket_first(sheet: &[i64], flow: i64, path: &mut [u16]) -> Answer
    ensures value { result ≡ counted_answer (first_answer sheet.now flow path.old) }
    ensures path_after { path.new ≡ first_path sheet.now flow path.old }
{
    Answer::of(flows::first(sheet, flow, path))
}

// S6: the path of a flow that follows the one at the buffer's head.
#[unsafe(no_mangle)]
pub extern "C" fn fernpocket_next(sheet: &[i64], flow: i64, path: &mut [u16]) -> Answer
    ensures value { result ≡ counted_answer (next_answer sheet.now flow path.old) }
    ensures path_after { path.new ≡ next_path sheet.now flow path.old }
{
    Answer::of(flows::next(sheet, flow, path))
}

// S1: the number of an entity's states.
#[unsafe(no_mangle)]
pub extern "C" fn fernpocket_states(sheet: &[i64], entity: i64) -> Answer
    ensures { result ≡ count_answer (states_answer sheet.now entity) }
{
    Answer::of(look_up(sheet, Report::States, entity))
}

// S2: the mask of the states reached from the initial one. The count is its scans, as many as the mask has states.
#[unsafe(no_mangle)]
pub extern "C" fn fernpocket_reachable(sheet: &[i64], entity: i64) -> Answer
    ensures { result ≡ counted_answer (reachable_answer sheet.now entity) }
{
    Answer::of(reports::reachable(sheet, entity))
}

// S3a: 1 for yes, 0 for no.
#[unsafe(no_mangle)]
pub extern "C" fn fernpocket_admissible(
    sheet: &[i64],
    entity: i64,
    state: i64,
    persona: i64,
    operation: i64,
) -> Answer
    ensures { result ≡ count_answer (admissible_answer sheet.now entity state persona operation) }
{
    Answer::of(reports::admissible(sheet, entity, state, persona, operation))
}

// S4: 1 for yes, 0 for no.
#[unsafe(no_mangle)]
pub extern "C" fn fernpocket_can_cause(
    sheet: &[i64],
    persona: i64,
    entity: i64,
    from: i64,
    to: i64,
) -> Answer
    ensures { result ≡ count_answer (can_cause_answer sheet.now persona entity from to) }
{
    Answer::of(reports::can_cause(sheet, persona, entity, from, to))
}

// S5: the number of rules.
#[unsafe(no_mangle)]
pub extern "C" fn fernpocket_rules(sheet: &[i64]) -> Answer
    ensures { result ≡ count_answer (rules_answer sheet.now) }
{
    Answer::of(reports::rules(sheet))
}

// S5: a rule's stratum.
#[unsafe(no_mangle)]
pub extern "C" fn fernpocket_stratum(sheet: &[i64], rule: i64) -> Answer
    ensures { result ≡ count_answer (stratum_answer sheet.now rule) }
{
    Answer::of(look_up(sheet, Report::Stratum, rule))
}

// S5: the number of an operation's outcomes.
#[unsafe(no_mangle)]
pub extern "C" fn fernpocket_outcomes(sheet: &[i64], operation: i64) -> Answer
    ensures { result ≡ count_answer (outcomes_answer sheet.now operation) }
{
    Answer::of(look_up(sheet, Report::Outcomes, operation))
}

// S7: the number of nodes in the tree under a node.
#[unsafe(no_mangle)]
pub extern "C" fn fernpocket_tree_size(sheet: &[i64], node: i64) -> Answer
    ensures { result ≡ count_answer (tree_size_answer sheet.now node) }
{
    Answer::of(look_up(sheet, Report::TreeSize, node))
}

// S7: the number of steps on a flow's longest path.
#[unsafe(no_mangle)]
pub extern "C" fn fernpocket_depth(sheet: &[i64], flow: i64) -> Answer
    ensures { result ≡ count_answer (depth_answer sheet.now flow) }
{
    Answer::of(look_up(sheet, Report::Depth, flow))
}
