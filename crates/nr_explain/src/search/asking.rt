//! What a space answers a request, and stays as it is.

ghost use Rattle.std.specs.Prelude.{◌≡◌, ◌↔◌, IfOk, IsTrue, OnOk};
ghost use Rattle.std.specs.FinMap as finite;
ghost use Rattle.vs_types.specs.Operation.{IsAction};
ghost use Rattle.vs_types.specs.Query.{IsQuery};
ghost use Rattle.vs_types.specs.Space.{IsSpace};
ghost use Rattle.vs_types.specs.Step.{step};
ghost use Rattle.nr_explain.specs.inside.Nearest.{IsToldIn};

use crate::calls::answers::asked_address;
use crate::search::spaces::is_same;
use vs_plain::PlainSpace;
use vs_plain::laws::pages_are_a_space;
use vs_types::{Action, Answer, Memory, Op, Page, Query, Request};

/// The page that begins at a base, if one does.
fn page_from(space: &PlainSpace, base: u64) -> Option<Page>
    ensures page { result ≡ finite.get space.now.space base }
    ensures is_space { IsSpace space.now.depth space.now.space }
{
    pages_are_a_space(space);
    match space.resolve(base) {
        Answer::Mapped(phys, size, rights) => {
            if base % size.bytes() == 0 {
                Some(Page {
                    base,
                    size,
                    rights,
                    phys,
                })
            } else {
                None
            }
        }
        _ => None,
    }
}

/// What an operation is answered, which is then undone. Allocates memory for a page that it maps or that comes back.
fn ask_update(space: &mut PlainSpace, op: Op) -> Result<Answer, Memory>
    requires { IsAction space.old.depth op }
    ensures answer { IfOk result (λ answer. answer
        ≡ (step space.old.depth space.old.limit space.old.space op).answer) }
    ensures stays { OnOk result (space.new ≡ space.old) }
{
    let base = asked_address(Request::update(op));
    let page = page_from(space, base);
    let answer = space.apply(op)?;
    space.apply(Op::of(Action::Unmap(base)))?;
    if let Some(page) = page {
        space.add(page)?;
    }
    Ok(answer)
}

/// What a request is answered in a space, which is then as it was. Allocates memory for a page that an operation maps or that comes back
/// behind it.
fn ask(space: &mut PlainSpace, request: Request) -> Result<Answer, Memory>
    requires { IsQuery space.old.depth request }
    ensures answer { IfOk result (IsToldIn space.old request) }
    ensures stays { OnOk result (space.new ≡ space.old) }
{
    match request.query() {
        Query::Update(op) => ask_update(space, op),
        Query::Resolve(address) => Ok(space.resolve(address)),
        Query::Access(address, mode, access) => Ok(space.access(address, mode, access)),
    }
}

/// Whether a request is answered so in a space, which is then as it was. Allocates what `ask` does.
pub(crate) fn is_told(
    space: &mut PlainSpace,
    request: Request,
    told: Answer,
) -> Result<bool, Memory>
    requires { IsQuery space.old.depth request }
    ensures is { IfOk result (λ is. IsTrue is ↔ IsToldIn space.old request told) }
    ensures stays { OnOk result (space.new ≡ space.old) }
{
    let answer = ask(space, request)?;
    Ok(is_same(told, answer))
}
