//! Clients' requests in lines, and their answers.

ghost use Rattle.std.specs.Prelude.{◌≡◌, ℕ, List, IfOk};
ghost use Rattle.charmlet_requests.specs.Handlers.{handler_of};
ghost use Rattle.charmlet_engine.specs.Engine.{client_answer};
ghost use Rattle.charmlet_script_output.specs.Named.{named_by};

use charmlet_model::{Answer, Refusal, Told};
use charmlet_requests::{Handler, Handlers};
use charmlet_script::HandlerLine;
use std::alloc::{AllocError, Global};

/// A client's request to a named handler.
#[derive(Clone, Copy)]
pub struct Call<'a> {
    pub client: u32,
    pub number: u64,
    pub name: &'a str,
    pub index: u64,
    pub words: &'a [u64],
}

/// The answer to a client: what it is told, or the refusal.
pub fn told_answer(told: Result<Told, Refusal>) -> Answer
    ensures { result ≡ client_answer told }
{
    match told {
        Ok(told) => Answer::Told(told),
        Err(refusal) => Answer::Refused(refusal),
    }
}

/// The handlers of these lines. If a name comes twice, the last line counts. It fails only when out
/// of memory.
pub fn handlers_of(alloc: Global, lines: &[HandlerLine]) -> Result<Handlers, AllocError>
    ensures { IfOk result (λ handlers. (name : List ℕ) →
        handler_of handlers name ≡ named_by lines.now name) }
{
    let mut handlers = Handlers::new(alloc);
    for line in lines {
        let handler = Handler {
            array: line.array,
            entry: line.entry,
        };
        if handlers.register(line.name.as_str(), handler).is_err() {
            return Err(AllocError);
        }
    }
    Ok(handlers)
}
