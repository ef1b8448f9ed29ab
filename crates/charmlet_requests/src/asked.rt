//! Requests and status questions by a client's pass.

ghost use Rattle.std.specs.Prelude.{◌≡◌, ℕ, IfOk, OnErr};
ghost use Rattle.charmlet_model.specs.Core as core;
ghost use Rattle.charmlet_model.specs.Core.{Blanks, Steps};
ghost use Rattle.charmlet_history.specs.Kept.{core_in, told_or_refused};
ghost use Rattle.charmlet_requests.specs.Pass.{IsHeard, IsUpToDate, with_accept, with_told};

use crate::pass::ClientPass;
use charmlet_history::{History, Request};
use charmlet_model::{Refusal, Told};

/// Accepts a request of the pass's client, as [`History::request`] does, with the same refusals in
/// the same order. If it isn't refused, the pass records that it was accepted, and what was told
/// about it. A refusal changes nothing.
///
/// If everything that the pass knows is true of the durable events, it is still true afterwards.
/// The client is then told no less about the request than the pass knew, and no other words.
pub fn request(
    history: &mut History,
    pass: &mut ClientPass,
    request: &Request<'_>,
) -> Result<Told, Refusal>
    ensures steps { (blanks : Blanks) → Steps (core_in history.old) blanks
        (core.Request pass.old.client request.now.number request.now.to request.now.entry
        request.now.words.now)
        (record { answer = told_or_refused result; core = core_in history.new; blanks = blanks }) }
    ensures ok { IfOk result (λ told. pass.new
        ≡ with_accept (with_told pass.old request.now.number told) request.now.number) }
    ensures heard { IsHeard pass.old pass.new (core_in history.old) (core_in history.new)
        request.now.number result }
    ensures up_to_date { IsUpToDate pass.old (core_in history.old) →
        IsUpToDate pass.new (core_in history.new) }
    ensures same { OnErr result (core_in history.new ≡ core_in history.old) }
{
    history.facts();
    let told = history.request(pass.client(), request)?;
    pass.hear(request.number, &told)?;
    pass.accept(request.number);
    Ok(told)
}

/// Tells the pass's client what is durable of its request, as [`History::status`] does, with the
/// same refusals in the same order. The pass records the answer. A refusal changes nothing. An
/// answer without words takes no memory.
///
/// If everything that the pass knows is true of the durable events, it is still true afterwards.
/// The client is then told no less about the request than the pass knew, and no other words.
pub fn status(history: &History, pass: &mut ClientPass, number: u64) -> Result<Told, Refusal>
    ensures steps { (blanks : Blanks) → Steps (core_in history.now) blanks
        (core.Status pass.old.client number)
        (record { answer = told_or_refused result; core = core_in history.now; blanks = blanks }) }
    ensures ok { IfOk result (λ told. pass.new ≡ with_told pass.old number told) }
    ensures heard { IsHeard pass.old pass.new (core_in history.now) (core_in history.now)
        number result }
{
    history.facts();
    let told = history.status(pass.client(), number)?;
    pass.hear(number, &told)?;
    Ok(told)
}
