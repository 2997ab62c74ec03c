//! Laws of the definitions in `specs/`. Each function does nothing: its clauses say what holds of all texts.

ghost use Rattle.std.specs.Prelude.{◌≡◌, ℕ, ◌<◌, ◌++◌, List, decimal, map};
ghost use Rattle.vs_types.specs.Query.{IsQuery};
ghost use Rattle.vs_types.specs.declared.addresses.depth.Depth.{Depth};
ghost use Rattle.vs_types.specs.declared.requests.request.Query.{Query};
ghost use Rattle.vs_text.specs.Requests.{request_text};
ghost use Rattle.vs_text.specs.Words.{space};
ghost use Rattle.nr_script.specs.Lines.{Says};
ghost use Rattle.nr_script.specs.Script.{IsBadLine, IsScript};
ghost use Rattle.nr_script.specs.declared.line.Line.{Line};
ghost use Rattle.nr_script.specs.declared.line.Line.TheVariants as says;
ghost use Rattle.nr_script.specs.declared.script.Script.{Script};

/// A thread's number, a space and what is written of a request are a line of that request of that thread.
pub fn written_requests_are_lines()
    ensures { (depth : Depth) (thread : ℕ) (query : Query) → thread < 64 → IsQuery depth query
        → Says depth (decimal thread ++ (space ++ request_text query)) (says.Request thread query) }
{}

/// A line says one thing at most.
pub fn one_meaning_of_a_line()
    ensures { (depth : Depth) (line : List ℕ) (a b : Line) → Says depth line a → Says depth line b
        → a ≡ b }
{}

/// No text is a script and has a bad line.
pub fn no_script_has_a_bad_line()
    ensures { (depth : Depth) (bytes : List ℕ) (script : Script) (number : ℕ)
        → IsScript depth bytes script → IsBadLine depth bytes number → ⊥ }
{}

/// A text is one script at most: two have the same threads, requests, steps, and first line of a step.
pub fn one_script_of_a_text()
    ensures threads { (depth : Depth) (bytes : List ℕ) (a b : Script) → IsScript depth bytes a
        → IsScript depth bytes b → a.threads ≡ b.threads }
    ensures requests { (depth : Depth) (bytes : List ℕ) (a b : Script) → IsScript depth bytes a
        → IsScript depth bytes b
        → map (λ list. list.items) a.requests.items ≡ map (λ list. list.items) b.requests.items }
    ensures steps { (depth : Depth) (bytes : List ℕ) (a b : Script) → IsScript depth bytes a
        → IsScript depth bytes b → a.steps.items ≡ b.steps.items }
    ensures first_step { (depth : Depth) (bytes : List ℕ) (a b : Script) → IsScript depth bytes a
        → IsScript depth bytes b → a.first_step ≡ b.first_step }
{}
