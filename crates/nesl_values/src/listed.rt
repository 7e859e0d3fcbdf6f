// Equality of trees, where a list holds what is still to be compared.
ghost use Rattle.std.specs.Prelude.{◌≡◌, ◌↔◌, ◌+◌, ◌*◌, ◌-◌, ⊤, [], IsTrue, IfOk, OnOk, MatchOption, length};
ghost use Rattle.nesl_values.specs.Tree.{pair, tagged, sequence, trees_of, size, sizes};
ghost use Rattle.nesl_values.specs.Parts.{elements};
ghost use Rattle.nesl_values.specs.View.{tree_of, item_trees};
ghost use Rattle.nesl_values.specs.Comparing.{QuestionHolds, AllMeet, work_of, Asks, IsNext, Reduces};

use crate::items::Items;
use crate::same::{Comparison, compare};
use crate::shape::Shape;
use crate::value::Value;
use std::alloc::{AllocError, Allocator};

/// What is still to be compared.
#[derive_where(Copy)]
pub enum Question<'a, 'b, A: Allocator, B: Allocator> {
    Values(&'a Value<A>, &'b Value<B>),
    Elements(Items<'a, A>, Items<'b, B>),
}

impl<A: Allocator, B: Allocator> Clone for Question<'_, '_, A, B> {
    ghost is_clone = { λ one other. other ≡ one };

    ghost is_infallible = { λ _. ⊤ };

    fn clone(&self) -> Result<Self, AllocError> {
        Ok(*self)
    }
}

impl<A: Allocator> Value<A> {
    /// Whether the two are the same tree. What is still to be compared is kept in a list that `alloc`
    /// holds, so values of any depth are compared with no recursion. Takes time for each of the `nodes`,
    /// however they are shared.
    pub fn same_by_list<B: Allocator, C: Allocator>(
        &self,
        alloc: C,
        other: &Value<B>,
    ) -> Result<bool, AllocError>
        ensures { IfOk result (λ b. IsTrue b ↔ (tree_of self.now ≡ tree_of other.now)) }
    {
        let mut questions = Vec::new(alloc);
        ask(&mut questions, Question::Values(self, other))?;
        answer_all(&mut questions)
    }
}

// Whether all the questions are answered by yes.
fn answer_all<'a, 'b, A: Allocator, B: Allocator, C: Allocator>(
    questions: &mut Vec<Question<'a, 'b, A, B>, C>,
) -> Result<bool, AllocError>
    ensures { IfOk result (λ b. IsTrue b ↔ AllMeet questions.old.items) }
{
    while let Some(question) = next_question(questions) {
        if !answer(questions, question)? {
            return Ok(false);
        }
    }
    Ok(true)
}

// The question that comes next.
#[tactic(auto, using(crate::proofs::Questions::is_next))]
fn next_question<'a, 'b, A: Allocator, B: Allocator, C: Allocator>(
    questions: &mut Vec<Question<'a, 'b, A, B>, C>,
) -> Option<Question<'a, 'b, A, B>>
    ensures { MatchOption result
        (questions.old.items ≡ [])
        (λ question. IsNext question questions.old.items questions.new.items) }
{
    questions.pop()
}

// Adds a question.
fn ask<'a, 'b, A: Allocator, B: Allocator, C: Allocator>(
    questions: &mut Vec<Question<'a, 'b, A, B>, C>,
    question: Question<'a, 'b, A, B>,
) -> Result<(), AllocError>
    ensures { OnOk result
        (Asks (QuestionHolds question.entry) (work_of question.entry) questions.old.items questions.new.items) }
{
    questions.push(question)?;
    Ok(())
}

// Whether a question may still be answered by yes. What that rests on is added to the questions.
fn answer<'a, 'b, A: Allocator, B: Allocator, C: Allocator>(
    questions: &mut Vec<Question<'a, 'b, A, B>, C>,
    question: Question<'a, 'b, A, B>,
) -> Result<bool, AllocError>
    ensures { IfOk result (λ yes.
        Reduces yes (QuestionHolds question.entry) (work_of question.entry) questions.old.items questions.new.items) }
{
    match question {
        Question::Values(one, other) => answer_values(questions, one, other),
        Question::Elements(one, other) => answer_elements(questions, one, other),
    }
}

fn answer_values<'a, 'b, A: Allocator, B: Allocator, C: Allocator>(
    questions: &mut Vec<Question<'a, 'b, A, B>, C>,
    one: &'a Value<A>,
    other: &'b Value<B>,
) -> Result<bool, AllocError>
    ensures { IfOk result (λ yes. Reduces yes (tree_of one.now ≡ tree_of other.now) (3 * size (tree_of one.now) - 1)
        questions.old.items questions.new.items) }
{
    match one.shape() {
        Shape::Int(n) => Ok(other.is_int(n)),
        Shape::Bool(b) => Ok(other.is_bool(b)),
        Shape::Char(c) => Ok(other.is_char(c)),
        Shape::Pair(left, right) => answer_pair(questions, left, right, other),
        Shape::Tagged(tag, inner) => answer_tagged(questions, tag, inner, other),
        Shape::Sequence(len) => answer_sequence(questions, one, len, other),
    }
}

// Whether another value may be the pair of these two.
fn answer_pair<'a, 'b, A: Allocator, B: Allocator, C: Allocator>(
    questions: &mut Vec<Question<'a, 'b, A, B>, C>,
    left: &'a Value<A>,
    right: &'a Value<A>,
    other: &'b Value<B>,
) -> Result<bool, AllocError>
    ensures { IfOk result (λ yes. Reduces yes (pair (tree_of left.now) (tree_of right.now) ≡ tree_of other.now)
        (3 * size (pair (tree_of left.now) (tree_of right.now)) - 1) questions.old.items questions.new.items) }
{
    let Some((other_left, other_right)) = other.as_pair() else {
        return Ok(false);
    };
    ask(questions, Question::Values(right, other_right))?;
    ask(questions, Question::Values(left, other_left))?;
    Ok(true)
}

// Whether another value may be this one under that tag.
fn answer_tagged<'a, 'b, A: Allocator, B: Allocator, C: Allocator>(
    questions: &mut Vec<Question<'a, 'b, A, B>, C>,
    tag: u64,
    inner: &'a Value<A>,
    other: &'b Value<B>,
) -> Result<bool, AllocError>
    ensures { IfOk result (λ yes. Reduces yes (tagged tag (tree_of inner.now) ≡ tree_of other.now)
        (3 * size (tagged tag (tree_of inner.now)) - 1) questions.old.items questions.new.items) }
{
    match other.as_tagged() {
        Some((other_tag, other_inner)) if tag == other_tag => {
            ask(questions, Question::Values(inner, other_inner))?;
            Ok(true)
        }
        _ => Ok(false),
    }
}

// Whether another value may be this sequence of `len` elements.
fn answer_sequence<'a, 'b, A: Allocator, B: Allocator, C: Allocator>(
    questions: &mut Vec<Question<'a, 'b, A, B>, C>,
    one: &'a Value<A>,
    len: usize,
    other: &'b Value<B>,
) -> Result<bool, AllocError>
    requires elements { tree_of one.now ≡ sequence (elements (tree_of one.now)) }
    requires len { len ≡ length (elements (tree_of one.now)) }
    ensures { IfOk result (λ yes. Reduces yes (tree_of one.now ≡ tree_of other.now) (3 * size (tree_of one.now) - 1)
        questions.old.items questions.new.items) }
{
    match other.sequence_len() {
        Some(other_len) if len == other_len => {
            ask(questions, Question::Elements(one.items(), other.items()))?;
            Ok(true)
        }
        _ => Ok(false),
    }
}

fn answer_elements<'a, 'b, A: Allocator, B: Allocator, C: Allocator>(
    questions: &mut Vec<Question<'a, 'b, A, B>, C>,
    one: Items<'a, A>,
    other: Items<'b, B>,
) -> Result<bool, AllocError>
    ensures { IfOk result (λ yes. Reduces yes (item_trees one.entry ≡ item_trees other.entry)
        (3 * sizes (trees_of (item_trees one.entry)) + 1) questions.old.items questions.new.items) }
{
    let len = one.len();
    if other.len() != len {
        return Ok(false);
    }
    for place in 0..len {
        match compare(one.at(place), other.at(place)) {
            Comparison::Settled(true) => {}
            Comparison::Settled(false) => return Ok(false),
            Comparison::RestsOn(x, y) => {
                let rest = one.part(place + 1, len);
                return ask_from(questions, x, y, rest, other.part(place + 1, len));
            }
        }
    }
    Ok(true)
}

// Asks whether two elements are the same, and whether those after them are.
fn ask_from<'a, 'b, A: Allocator, B: Allocator, C: Allocator>(
    questions: &mut Vec<Question<'a, 'b, A, B>, C>,
    x: &'a Value<A>,
    y: &'b Value<B>,
    one: Items<'a, A>,
    other: Items<'b, B>,
) -> Result<bool, AllocError>
    requires { length (item_trees one) ≡ length (item_trees other) }
    ensures { IfOk result (λ yes. Reduces yes
        ((tree_of x.now ≡ tree_of y.now) × (item_trees one.entry ≡ item_trees other.entry))
        (3 * (size (tree_of x.now) + sizes (trees_of (item_trees one.entry))) + 1)
        questions.old.items questions.new.items) }
{
    ask_rest(questions, one, other)?;
    ask(questions, Question::Values(x, y))?;
    Ok(true)
}

// Adds the question whether these elements are the same, where there are any.
#[tactic(auto, using(crate::proofs::Questions::none_asked))]
fn ask_rest<'a, 'b, A: Allocator, B: Allocator, C: Allocator>(
    questions: &mut Vec<Question<'a, 'b, A, B>, C>,
    one: Items<'a, A>,
    other: Items<'b, B>,
) -> Result<(), AllocError>
    requires { length (item_trees one) ≡ length (item_trees other) }
    ensures { OnOk result (Asks (item_trees one.entry ≡ item_trees other.entry)
        (3 * sizes (trees_of (item_trees one.entry)) + 1) questions.old.items questions.new.items) }
{
    if one.len() == 0 {
        return Ok(());
    }
    ask(questions, Question::Elements(one, other))
}
