//! What holds of every step.
ghost use Rattle.nesl_session_meaning.specs.Laws.{GoesOn, LimitsStay, LinesAreStored, OneRun, OneState, OneStep};
ghost use Rattle.nesl_session_meaning.specs.Laws.{RecordedLinesGrow};
ghost use Rattle.nesl_session_meaning.specs.Worked.{budget_of_none, comment, it_in_a_body, names_of_none};
ghost use Rattle.nesl_session_meaning.specs.Worked.{no_room_for_a_line};
ghost use Rattle.nesl_session_meaning.specs.Worked.{no_token, no_tree, reset_after_a_sum, reset_at_the_limit};
ghost use Rattle.nesl_session_meaning.specs.Worked.{small_sum, sum_in_two_parts, sum_over_the_work_of_a_line};
ghost use Rattle.nesl_session_meaning.specs.Worked.{sum_without_room, unknown_name};

use nesl_infer::laws::verdicts_are_one;
use nesl_lex::{one_reading, reading_computes};
use nesl_syntax::{form_computes, one_form};

/// In one state, a line has one answer and leads to one state.
pub fn one_step()
    ensures { OneStep }
{
    one_reading();
    one_form();
    verdicts_are_one();
}

/// The stored lines of a session have one replay, so that the session has one state.
pub fn one_state()
    ensures { OneState }
{
    one_reading();
    one_form();
    verdicts_are_one();
}

/// Alone, a session answers the same lines by the same replies, and becomes the same session.
pub fn one_run()
    ensures { OneRun }
{
    one_reading();
    one_form();
    verdicts_are_one();
}

/// Further lines go on from the session that the earlier lines left.
pub fn goes_on()
    ensures { GoesOn }
{
    one_reading();
    one_form();
    verdicts_are_one();
}

/// A recorded line counts as one more line of its session, and any other line as none. The limits don't change.
pub fn recorded_lines_grow()
    ensures grow { RecordedLinesGrow }
    ensures limits { LimitsStay }
{}

/// A line stores nothing, or itself, or it is a reset, after which nothing is stored.
pub fn lines_are_stored()
    ensures { LinesAreStored }
{}

/// Lines of a session, worked by hand. By the definition of a step they get these replies, and leave this work.
pub fn worked_lines()
    ensures lexical { no_token }
    ensures syntax { no_tree }
    ensures comment { comment }
    ensures names { names_of_none }
    ensures budget { budget_of_none }
    ensures unknown { unknown_name }
    ensures value { small_sum }
    ensures work { sum_over_the_work_of_a_line }
    ensures elements { sum_without_room }
    ensures parts { sum_in_two_parts }
    ensures body { it_in_a_body }
    ensures reset { reset_after_a_sum }
    ensures transcript { no_room_for_a_line }
    ensures limit { reset_at_the_limit }
{
    reading_computes();
    form_computes();
}
