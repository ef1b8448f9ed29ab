//! Blank objects of all kinds, and the tasks that need them.

ghost use Rattle.std.specs.Prelude.{⊤, IfOk};

use charmlet_chare::Chare;
use charmlet_kinds::{Account, Counter, Ring, Sum, Tape, Tree};
use charmlet_model::Kind;
use std::alloc::{AllocError, Global};

/// An object of any kind.
pub(crate) type Object = Box<dyn Chare + Send>;

/// A task that needs blank objects.
pub(crate) trait Task: Drop {
    /// The type of the task's answer.
    type Answer: Drop;

    /// The condition under which the task may begin.
    ghost may_begin: { Self → Type 0 };

    /// The meaning of the task's answer.
    ghost answers: { Self → Self.Answer → Type 0 } = { λ _ _. ⊤ };

    /// How many blanks of a kind the elements of a restarted store need.
    fn blanks(&self, kind: Kind) -> u64;

    /// How many blanks of a kind the lines of the task's script supply.
    fn supplies(&self, kind: Kind) -> u64;

    /// Does the task, with these blanks.
    fn begin(self, blanks: Vec<Object>, supplies: Vec<Object>) -> Self::Answer
        requires { may_begin self }
        ensures { answers self result };
}

/// A boxed object, or `None` when out of memory.
macro_rules! boxed {
    ($alloc:expr, $object:expr) => {
        match Box::new($alloc, $object) {
            Ok(object) => Some(object),
            Err(_) => None,
        }
    };
}

/// A new boxed blank object of a kind, or the error of lacking memory. It is a macro, since the
/// checker has each function make the boxes of a `dyn` type that it needs, and none can return
/// them. It has no `?`, since each `?` would drop everything that its function owns there.
macro_rules! blank {
    ($alloc:expr, $kind:expr) => {{
        let blank: Option<Object> = match $kind {
            Kind::Counter => boxed!($alloc, Counter::blank()),
            Kind::Ring => boxed!($alloc, Ring::blank()),
            Kind::Account => boxed!($alloc, Account::blank()),
            Kind::Sum => boxed!($alloc, Sum::blank()),
            Kind::Tree => boxed!($alloc, Tree::blank()),
            Kind::Tape => boxed!($alloc, Tape::blank($alloc)),
        };
        blank.ok_or(AllocError)
    }};
}

/// Makes the blanks that a task needs, and starts it with them. It fails only when there is no
/// memory for them.
pub(crate) fn with_blanks<T: Task>(alloc: Global, task: T) -> Result<T::Answer, AllocError>
    requires { T.may_begin task }
    ensures { IfOk result (T.answers task) }
{
    let mut blanks = Vec::new(alloc);
    let mut supplies = Vec::new(alloc);
    for kind in &Kind::ALL {
        let wanted = task.blanks(*kind);
        for count in 0..wanted.saturating_add(task.supplies(*kind)) {
            let blank = blank!(alloc, kind)?;
            if count < wanted {
                blanks.push(blank)?;
            } else {
                supplies.push(blank)?;
            }
        }
    }
    Ok(task.begin(blanks, supplies))
}
