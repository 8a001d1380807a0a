//! The body of a routine.

ghost use Rattle.std.specs.Prelude.{◌≡◌, IfOk};

use pl_base::Shared;
use pl_bodies::Body;
use std::alloc::{AllocError, Global};
use std::marker::Model;

/// The body of a routine, with several owners: who runs it keeps it, whatever becomes of the
/// routine. Contracts see the body. Its drop is one call, so that crates that drop a routine don't
/// prove the drops of all that a body may hold.
pub struct RoutineBody {
    inner: Shared<Body>,
}

impl Model for RoutineBody {
    ghost use Rattle.std.specs.Coded.{codes};
    ghost use Rattle.pl_bodies.specs.contracts.statement.Body as body;
    ghost use Rattle.pl_bodies.specs.declared.statement.Body as declared;

    ghost Value = { declared.Body };

    ghost coded = { Prim.hlevel (codes, body.the_row.coded) };

    ghost view = { λ held. held.inner };
}

impl Drop for RoutineBody {
    fn drop(self) {
        let RoutineBody { inner: _inner } = self;
    }
}

impl RoutineBody {
    /// The body with one owner.
    pub fn new(alloc: Global, body: Body) -> Result<RoutineBody, AllocError>
        ensures { IfOk result (λ made. made ≡ body) }
    {
        Ok(RoutineBody {
            inner: Shared::new(alloc, body)?,
        })
    }

    /// The body, lent.
    pub fn get(&self) -> &Body
        ensures { result.now ≡ self.now }
    {
        self.inner.get()
    }

    /// One owner more. It takes no memory; `Err` says that there are as many owners as can be
    /// counted.
    pub fn share(&self) -> Result<RoutineBody, AllocError>
        ensures { IfOk result (λ made. made ≡ self.now) }
    {
        Ok(RoutineBody {
            inner: self.inner.share()?,
        })
    }
}
