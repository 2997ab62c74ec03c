//! Laws of the definitions in `specs/`. Each function does nothing: its clauses say what holds of all requests.

ghost use Rattle.std.specs.Prelude.{◌≡◌, ℕ, List};
ghost use Rattle.vs_types.specs.Query.{IsQuery};
ghost use Rattle.vs_types.specs.declared.addresses.depth.Depth.{Depth};
ghost use Rattle.vs_types.specs.declared.requests.request.Query.{Query};
ghost use Rattle.vs_text.specs.Requests.{request_text, SpellsQuery};
ghost use Rattle.vs_text.specs.Words.{words};

/// What is written of a request is read back as that request.
pub fn requests_are_read_back()
    ensures { (depth : Depth) (query : Query) → IsQuery depth query
        → SpellsQuery depth (words (request_text query)) query }
{}

/// Words are one request at most.
pub fn one_request_of_words()
    ensures { (depth : Depth) (them : List (List ℕ)) (a b : Query) → SpellsQuery depth them a
        → SpellsQuery depth them b → a ≡ b }
{}
