//! The submissions of a class, graded on several threads.
ghost use Rattle.std.specs.Prelude.{◌≡◌, ◌<◌, ℕ, IfSome, length, slice_index_or};
ghost use Rattle.nesl_gradebook.specs.declared.book.Submission.{Submission};
ghost use Rattle.nesl_grade.specs.declared.examined.Examined.{Examined};
ghost use Rattle.nesl_grade.specs.Grades.{IsExamined, IsGraded, TellsEach};

use crate::adviser::Adviser;
use crate::details::details_of;
use crate::grade::{examined_by, grade};
use nesl_exercise::exercise::Exercise;
use nesl_exercise::outcome::Graded;
use nesl_gradebook::book::{Details, Submission, Submitted};
use nesl_session::limits::Limits;
use std::alloc::{AllocError, Global};
use std::thread;
use std::thread::Threads;

/// Whether what pages have beside the outcomes is found, too: curves of costs, and hints.
#[derive(Clone, Copy)]
pub enum Extent {
    Outcomes,
    Details,
}

/// What submissions are graded by.
#[derive(Drop)]
pub struct Grader<'a, A> {
    pub alloc: Global,
    pub limits: Limits,
    pub exercise: &'a Exercise,
    pub adviser: &'a A,
    pub extent: Extent,
}

impl<A: Adviser + Sync> Grader<'_, A> {
    /// Grades submissions on at most this many threads. One for which memory runs out has no grade afterwards.
    pub fn grade_all<R: Threads + Sync>(
        &self,
        rt: &R,
        submissions: &mut [Submission],
        threads: usize,
    )
        requires { 0 < threads }
        ensures { (i : ℕ) (d : Submission) → i < length submissions.old → IsGraded self.now.limits
            self.now.exercise.now (slice_index_or submissions.old i d) (slice_index_or submissions.new i d) }
    {
        thread::for_each_mut(
            rt,
            submissions,
            threads,
            &|_, submission| self.grade_one(submission),
        );
    }

    // Grades one submission.
    fn grade_one(&self, submission: &mut Submission)
        ensures { IsGraded self.now.limits self.now.exercise.now submission.old submission.new }
    {
        let graded = self.graded_forms(&submission.forms);
        let Ok(details) = self.details_for(&submission.forms, graded.as_ref()) else {
            submission.graded = None;
            return;
        };
        submission.details = details;
        submission.graded = graded;
    }

    // Grades a submission, if memory suffices for it.
    fn graded_forms(&self, forms: &Submitted) -> Option<Graded>
        ensures { IfSome result (λ graded. (s : Examined) × IsExamined self.now.limits self.now.exercise.now forms.now s
            × TellsEach s self.now.exercise.now.tests.items graded.outcomes.items) }
    {
        match grade(self.alloc, self.limits, self.exercise, forms) {
            Ok(graded) => Some(graded),
            Err(AllocError) => None,
        }
    }

    // Finds what the page of a submission has beside its outcomes, if there are to be pages.
    fn details_for(
        &self,
        forms: &Submitted,
        graded: Option<&Graded>,
    ) -> Result<Option<Details>, AllocError> {
        let (Extent::Details, Some(graded)) = (self.extent, graded) else {
            return Ok(None);
        };
        let examined = examined_by(self.alloc, self.limits, self.exercise, forms)?;
        let details = details_of(
            self.alloc,
            self.adviser,
            &examined,
            self.exercise.tests.as_slice(),
            graded.outcomes.as_slice(),
        )?;
        Ok(Some(details))
    }
}
