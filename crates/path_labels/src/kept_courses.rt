//! Courses that are kept for the next requests like those that had them.

ghost use Rattle.std.specs.Prelude.{◌≡◌, ◌↔◌, ◌++◌, ◌∷◌, [], All, IfNone, IfOk, IfSome, IsTrue};
ghost use Rattle.std.specs.Prelude.{vec_capacity};
ghost use Rattle.tail_states.specs.Alike.{AreAlike};
ghost use Rattle.path_labels.specs.Courses.{IsAlikeAt, IsCourseAmong, IsSmall, IsTakenOut};
ghost use Rattle.path_labels.specs.Courses.{StayCourses, StayCoursesWith, kept_for, with_room};

use crate::Course;
use no_memory::NoMemory;
use rail_types::{Request, Stop, Train};
use std::alloc::Global;
use std::marker::Model;

/// Greatest number of courses that are kept.
pub const MAX_COURSES: usize = 16;

/// Greatest number of places of a course that is kept.
pub const MAX_KEPT_PLACES: usize = 32_768;

/// A course that is kept, and a request whose course it is.
#[derive(Drop)]
pub struct KeptCourse {
    pub(crate) request: Request,
    pub(crate) course: Course,
}

/// Courses that are kept for the next requests, the one that was kept last behind the others: at
/// most `MAX_COURSES`, each with at most `MAX_KEPT_PLACES` places. Contracts see the list of them.
#[derive(Drop)]
pub struct Courses {
    kept: Vec<KeptCourse>,
}

impl Model for Courses {
    ghost use Rattle.std.specs.Prelude.{◌≤◌, List as list_of, vec_capacity};
    ghost use Rattle.path_labels.specs.declared.kept_courses.KeptCourse.{KeptCourse as one_kept};
    ghost use Rattle.path_labels.specs.declared.kept_courses.TheConstants.{MAX_COURSES};
    ghost use Rattle.path_labels.specs.Courses.{AreFew};

    ghost Value = { list_of one_kept };

    ghost view = { λ a. a.kept.items };

    ghost invariant = { λ a. record {
      few : AreFew a.kept.items;
      room : MAX_COURSES ≤ vec_capacity a.kept;
    } };
}

impl Courses {
    /// None yet. The memory for as many as are kept is taken here; `NoMemory` alone is refused.
    pub fn new(alloc: Global) -> Result<Courses, NoMemory>
        ensures { IfOk result (λ courses. courses ≡ []) }
    {
        Ok(Courses {
            kept: Vec::with_capacity(alloc, MAX_COURSES)?,
        })
    }

    /// Hands out a course that is kept for such a request, if there is one; it is kept no more.
    pub fn take(&mut self, request: &Request) -> Option<Course>
        ensures taken { IfSome result (IsTakenOut self.old self.new request.now) }
        ensures some { IfSome result (IsCourseAmong self.old request.now) }
        ensures none { IfNone result
            (All (λ kept. ¬ AreAlike kept.request request.now) self.old) }
        ensures same { IfNone result (self.new ≡ self.old) }
        ensures kept { StayCourses self.old self.new }
    {
        let Some(at) = first_alike(self.kept.as_slice(), request) else {
            return None;
        };
        let one = self.kept.remove(at);
        Some(one.course)
    }

    /// Whether a course is kept for a request of that train.
    pub fn has_train(&self, train: &Train) -> bool {
        self.kept
            .iter()
            .any(|kept| kept.request.train.is_same(train))
    }

    /// Keeps the course of a request behind the others; of `MAX_COURSES` the first one is let go
    /// for it. A course of too many places is let go itself.
    pub fn keep(&mut self, request: Request, course: Course)
        ensures small { IsSmall course
            → self.new ≡ with_room self.old ++ kept_for request course ∷ [] }
        ensures large { ¬ IsSmall course → self.new ≡ self.old }
        ensures kept { StayCoursesWith request course self.old self.new }
    {
        if course.places.count() > MAX_KEPT_PLACES {
            return;
        }
        make_room(&mut self.kept);
        self.kept.push_reserved(KeptCourse { request, course });
    }
}

// Whether requests differ in their windows alone.
fn are_alike(one: &Request, other: &Request) -> bool
    ensures { IsTrue result ↔ AreAlike one.now other.now }
{
    one.train.is_same(&other.train)
        && one.origin == other.origin
        && one.destination == other.destination
        && same_stops(one.stops.as_slice(), other.stops.as_slice())
}

fn same_stops(a: &[Stop], b: &[Stop]) -> bool
    ensures { IsTrue result ↔ (a.now ≡ b.now) }
{
    a == b
}

// Where the first course stands that is kept for such a request.
fn first_alike(courses: &[KeptCourse], request: &Request) -> Option<usize>
    ensures some { IfSome result (IsAlikeAt courses.now request.now) }
    ensures none { IfNone result
        (All (λ kept. ¬ AreAlike kept.request request.now) courses.now) }
{
    for at in 0..courses.len() {
        if are_alike(&courses[at].request, request) {
            return Some(at);
        }
    }
    None
}

// Lets the first course go where no more could be kept.
fn make_room(courses: &mut Vec<KeptCourse>)
    ensures items { courses.new.items ≡ with_room courses.old.items }
    ensures room { vec_capacity courses.new ≡ vec_capacity courses.old }
{
    if courses.len() >= MAX_COURSES {
        courses.remove(0);
    }
}
